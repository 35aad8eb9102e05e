//! The scalars of GraphQL: what a type of scalars offers, how scalars are read from a text's
//! tokens, and the scalars of a schema that declares none of its own.
#![tactic(auto)]

mod check_error;
mod default_scalar;
mod from_scalar;
mod int_value;
pub mod laws;
mod lent_scalar;
mod literals;
mod primitives;
mod scalar;
mod string_value;
mod to_scalar;

pub use check_error::{CheckError, WrongInputScalarTypeError};
pub use default_scalar::DefaultScalarValue;
pub use from_scalar::FromScalarValue;
pub use lent_scalar::Scalar;
pub use primitives::TryToPrimitive;
pub use scalar::{ParseScalarResult, ParseScalarValue, ScalarValue};
pub use to_scalar::ToScalarValue;
