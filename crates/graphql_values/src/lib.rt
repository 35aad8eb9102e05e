//! The values of GraphQL's input.
#![tactic(auto)]

mod conversions;
mod input_value;
pub mod laws;

pub use conversions::{
    FromInputValue, FromInputValueArrayError, FromInputValueVecError, IntoInputValue, ToInputValue,
    no_scalar,
};
pub use graphql_names::{
    BorrowedType, Name, NameParseError, Named, NamedItems, Type, TypeModifier, TypeModifiers,
};
pub use graphql_scalars::{DefaultScalarValue, ParseScalarResult, ParseScalarValue, ScalarValue};
pub use input_value::{InputValue, Variables, push_unlocated};
