//! The values of other types' values.

ghost use Rattle.std.specs.Prelude.{◌≡◌, string_bytes};
ghost use Rattle.std.specs.Option.{option_map_or};
ghost use Rattle.graphql_text.specs.Memory.{Gives};
ghost use Rattle.std.specs.Cow.{cow_str_bytes};
ghost use Rattle.graphql_output_values.specs.declared.value.Value.{Value};
ghost use Rattle.graphql_output_values.specs.declared.value.Value.TheVariants as value;

use crate::value::Value;
use graphql_scalars::{ScalarValue, ToScalarValue};
use std::alloc::{AllocError, Global};
use std::borrow::CowStr;

/// A type whose values become values of an answer (GraphQL October 2021, 6.4.3 Value Completion).
pub trait IntoValue<S> {
    /// What a value becomes.
    ghost becomes: { Self → Value S };

    /// The value that this becomes. An error is want of memory.
    fn into_value(self, alloc: Global) -> Result<Value<S>, AllocError>
        ensures { Gives result (becomes self) };
}

/// The value itself. Takes no memory.
impl<S> IntoValue<S> for Value<S> {
    ghost becomes = { λ itself. itself };

    fn into_value(self, _alloc: Global) -> Result<Value<S>, AllocError> {
        Ok(self)
    }
}

/// What the value becomes, or `null` where there is none.
impl<S, T: IntoValue<S>> IntoValue<S> for Option<T> {
    ghost becomes = { λ option. option_map_or T.becomes option value.Null };

    fn into_value(self, alloc: Global) -> Result<Value<S>, AllocError> {
        match self {
            Some(some) => some.into_value(alloc),
            None => Ok(Value::Null),
        }
    }
}

/// The scalar of the value that is lent.
impl<S, T: ToScalarValue<S>> IntoValue<S> for &T {
    ghost becomes = { λ lent. value.Scalar (T.scalar lent.now) };

    fn into_value(self, alloc: Global) -> Result<Value<S>, AllocError> {
        Ok(Value::Scalar(self.to_scalar_value(alloc)?))
    }
}

/// The scalar of the text.
impl<S: ScalarValue> IntoValue<S> for &str {
    ghost becomes = { λ text. value.Scalar (S.of_text text.now) };

    fn into_value(self, alloc: Global) -> Result<Value<S>, AllocError> {
        Ok(Value::Scalar(S::from_string(String::from_str(alloc, self)?)))
    }
}

/// The scalar of the text. Takes no memory.
impl<S: ScalarValue> IntoValue<S> for String {
    ghost becomes = { λ text. value.Scalar (S.of_text (string_bytes text)) };

    fn into_value(self, _alloc: Global) -> Result<Value<S>, AllocError> {
        Ok(Value::Scalar(S::from_string(self)))
    }
}

/// The scalar of the text. Takes memory where the text is lent.
impl<'a, S: ScalarValue> IntoValue<S> for CowStr<'a> {
    ghost becomes = { λ text. value.Scalar (S.of_text (cow_str_bytes text)) };

    fn into_value(self, alloc: Global) -> Result<Value<S>, AllocError> {
        Ok(Value::Scalar(S::from_string(self.into_owned(alloc)?)))
    }
}

/// The scalar of the boolean. Takes no memory.
impl<S: ScalarValue> IntoValue<S> for bool {
    ghost becomes = { λ truth. value.Scalar (S.of_bool truth) };

    fn into_value(self, _alloc: Global) -> Result<Value<S>, AllocError> {
        Ok(Value::Scalar(S::from_bool(self)))
    }
}

/// The scalar of the integer. Takes no memory.
impl<S: ScalarValue> IntoValue<S> for i32 {
    ghost becomes = { λ number. value.Scalar (S.of_int number) };

    fn into_value(self, _alloc: Global) -> Result<Value<S>, AllocError> {
        Ok(Value::Scalar(S::from_int(self)))
    }
}
