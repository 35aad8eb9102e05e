//! Values that may be null.

ghost use Rattle.std.specs.Prelude.{◌≡◌, None};
ghost use Rattle.graphql_values.specs.Conversions as spec;

use super::FromInputValue;
use crate::input_value::InputValue;
use std::alloc::Global;

/// Null is none, and any other value means what it means at `T` (GraphQL October 2021, 3.12
/// Non-Null: a type is nullable where it is not wrapped).
impl<S, T: FromInputValue<S>> FromInputValue<S> for Option<T> {
    type Error = T::Error;

    ghost means = { spec.MeansNullable T.means };

    ghost refuses = { spec.RefusesNullable T.refuses };

    ghost is_memory = { T.is_memory };

    ghost means_absent = { λ x. x ≡ None };

    ghost refuses_absent = { λ e. ⊥ };

    ghost apart = { spec.nullable_apart T.means T.refuses T.apart };

    ghost absent_apart = { λ x e is h. h };

    ghost memory = { T.memory };

    fn from_input_value(alloc: Global, value: &InputValue<S>) -> Result<Option<T>, T::Error> {
        match value {
            InputValue::Null => Ok(None),
            given => match given.convert(alloc) {
                Ok(meant) => Ok(Some(meant)),
                Err(error) => Err(error),
            },
        }
    }

    fn from_implicit_null(_alloc: Global) -> Result<Option<T>, T::Error> {
        Ok(None)
    }
}
