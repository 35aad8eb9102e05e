//! Which values conform to a type of a schema, and why others do not; and whether the defaults that
//! a schema's types declare conform to the types of what they are given to (GraphQL October 2021,
//! 5.6.1 Values of Correct Type, 3 Type System: input coercion).
#![tactic(auto)]

mod conforming;
mod defaults;
mod input_fields;
mod judging;
pub mod laws;
mod misfit;
mod open_values;
mod reasons;
mod source;
mod validate;
mod wraps;

pub use defaults::{first_with_bad_default, type_defaults_conform};
pub use source::Source;
pub use validate::{validate_literal_value, validate_value};
