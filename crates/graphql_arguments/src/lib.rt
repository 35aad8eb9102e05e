//! The argument values of a field, as a resolver reads them.
#![tactic(auto)]

mod arguments;
mod filling;
mod given;
mod made_value;

pub use arguments::Arguments;
pub use given::{GivenValue, given_value};
