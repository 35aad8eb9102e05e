//! The input values that values of other types become.

ghost use Rattle.std.specs.Prelude.{string_bytes};
ghost use Rattle.std.specs.Cow.{cow_str_bytes};
ghost use Rattle.graphql_text.specs.Memory.{Gives};
ghost use Rattle.graphql_values.specs.Conversions as spec;
ghost use Rattle.graphql_values.specs.declared.input_value.InputValue.{InputValue};
ghost use Rattle.graphql_values.specs.declared.input_value.InputValue.TheVariants as value;

use super::to_input_value::ToInputValue;
use crate::input_value::InputValue;
use graphql_scalars::ScalarValue;
use std::alloc::{AllocError, Global};
use std::borrow::CowStr;

/// A type whose values become input values, in no text (GraphQL October 2021, 2.9 Input Values).
pub trait IntoInputValue<S>: Sized {
    /// The input value that a value becomes.
    ghost becomes: { Self → InputValue S };

    /// The input value that the value becomes. An error is want of memory.
    fn into_input_value(self, alloc: Global) -> Result<InputValue<S>, AllocError>
        ensures { Gives result (becomes self) };
}

/// The value as it is. Takes no memory.
impl<S> IntoInputValue<S> for InputValue<S> {
    ghost becomes = { λ v. v };

    fn into_input_value(self, _alloc: Global) -> Result<InputValue<S>, AllocError> {
        Ok(self)
    }
}

/// Null where there is none, else what the value that is there becomes.
impl<S, T: IntoInputValue<S>> IntoInputValue<S> for Option<T> {
    ghost becomes = { spec.nullable_of T.becomes };

    fn into_input_value(self, alloc: Global) -> Result<InputValue<S>, AllocError> {
        match self {
            Some(given) => given.into_input_value(alloc),
            None => Ok(InputValue::Null),
        }
    }
}

/// The input value of the value that is lent.
impl<S, T: ToInputValue<S>> IntoInputValue<S> for &T {
    ghost becomes = { λ lent. T.input lent.now };

    fn into_input_value(self, alloc: Global) -> Result<InputValue<S>, AllocError> {
        self.to_input_value(alloc)
    }
}

/// The scalar of the boolean (3.5.4 Boolean). Takes no memory.
impl<S: ScalarValue> IntoInputValue<S> for bool {
    ghost becomes = { λ truth. value.Scalar (S.of_bool truth) };

    fn into_input_value(self, _alloc: Global) -> Result<InputValue<S>, AllocError> {
        Ok(InputValue::Scalar(S::from_bool(self)))
    }
}

/// The scalar of the integer (3.5.1 Int). Takes no memory.
impl<S: ScalarValue> IntoInputValue<S> for i32 {
    ghost becomes = { λ number. value.Scalar (S.of_int number) };

    fn into_input_value(self, _alloc: Global) -> Result<InputValue<S>, AllocError> {
        Ok(InputValue::Scalar(S::from_int(self)))
    }
}

/// The scalar of the text (3.5.3 String).
impl<S: ScalarValue> IntoInputValue<S> for &str {
    ghost becomes = { λ text. value.Scalar (S.of_text text.now) };

    fn into_input_value(self, alloc: Global) -> Result<InputValue<S>, AllocError> {
        Ok(InputValue::Scalar(S::from_string(String::from_str(alloc, self)?)))
    }
}

/// The scalar of the text (3.5.3 String). Takes no memory.
impl<S: ScalarValue> IntoInputValue<S> for String {
    ghost becomes = { λ text. value.Scalar (S.of_text (string_bytes text)) };

    fn into_input_value(self, _alloc: Global) -> Result<InputValue<S>, AllocError> {
        Ok(InputValue::Scalar(S::from_string(self)))
    }
}

/// The scalar of the text (3.5.3 String). Takes memory only for a text that is lent.
impl<S: ScalarValue> IntoInputValue<S> for CowStr<'_> {
    ghost becomes = { λ text. value.Scalar (S.of_text (cow_str_bytes text)) };

    fn into_input_value(self, alloc: Global) -> Result<InputValue<S>, AllocError> {
        Ok(InputValue::Scalar(S::from_string(self.into_owned(alloc)?)))
    }
}
