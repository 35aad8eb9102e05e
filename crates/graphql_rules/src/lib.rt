//! Rules of validation that look at one part of a document at a time, and those that judge literals
//! by the types that are asked for where they stand, a rule a module (GraphQL October 2021, 5
//! Validation, 5.6.1 Values of Correct Type). Each module's `factory` makes its rule, as a visitor.
#![tactic(auto)]

pub mod arguments_of_correct_type;
pub mod default_values_of_correct_type;
pub mod disable_introspection;
pub mod fields_on_correct_type;
pub mod fragments_on_composite_types;
mod given;
mod kinds;
pub mod known_argument_names;
pub mod known_directives;
pub mod known_fragment_names;
pub mod known_type_names;
pub mod laws;
mod literals;
mod overlaps;
pub mod possible_fragment_spreads;
pub mod provided_non_null_arguments;
mod repeats;
pub mod scalar_leafs;
pub mod unique_argument_names;
pub mod unique_input_field_names;
pub mod variables_are_input_types;

pub use arguments_of_correct_type::ArgumentsOfCorrectType;
pub use default_values_of_correct_type::DefaultValuesOfCorrectType;
pub use disable_introspection::DisableIntrospection;
pub use fields_on_correct_type::FieldsOnCorrectType;
pub use fragments_on_composite_types::FragmentsOnCompositeTypes;
pub use known_argument_names::KnownArgumentNames;
pub use known_directives::KnownDirectives;
pub use known_fragment_names::KnownFragmentNames;
pub use known_type_names::KnownTypeNames;
pub use possible_fragment_spreads::PossibleFragmentSpreads;
pub use provided_non_null_arguments::ProvidedNonNullArguments;
pub use scalar_leafs::ScalarLeafs;
pub use unique_argument_names::UniqueArgumentNames;
pub use unique_input_field_names::UniqueInputFieldNames;
pub use variables_are_input_types::VariablesAreInputTypes;
