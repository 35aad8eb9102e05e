//! Tests of the base: lists and texts, tokens, names, scalars, values, what values become and why a
//! field has none.

mod check_errors;
mod conversions;
mod default_scalars;
mod field_errors;
mod from_scalars;
mod input_types;
mod input_values;
mod items;
mod lent_scalars;
mod name_maps;
mod names;
mod nested_items;
mod output_values;
mod primitives;
mod scalar_values;
mod texts;
mod to_scalars;
mod tokens;
mod type_references;
