//! Conversions between input values and types of the program: what a value means at a type, and
//! which value stands for what is of a type.

mod arrays;
mod from_input_value;
mod into_input_value;
mod lists;
mod optional;
mod pointers;
mod scalars;
mod to_input_value;

pub use arrays::FromInputValueArrayError;
pub use from_input_value::FromInputValue;
pub use into_input_value::IntoInputValue;
pub use lists::FromInputValueVecError;
pub use scalars::no_scalar;
pub use to_input_value::ToInputValue;
