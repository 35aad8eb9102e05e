//! The values that an execution answers (GraphQL October 2021, 7.1 Response Format).
#![tactic(auto)]

mod clones;
mod display;
mod equality;
mod input_values;
mod into_value;
mod key;
pub mod laws;
mod lookup;
mod object;
mod value;
mod walk;

pub use graphql_scalars::{DefaultScalarValue, ScalarValue};
pub use into_value::IntoValue;
pub use key::Key;
pub use object::{FieldsMut, Object};
pub use value::Value;
pub use walk::{Step, Walk};
