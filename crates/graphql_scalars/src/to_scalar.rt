//! The scalars of other types' values.

ghost use Rattle.std.specs.Prelude.{◌≡◌, string_bytes};
ghost use Rattle.graphql_text.specs.Memory.{Gives};

use crate::scalar::ScalarValue;
use graphql_text::Text;
use std::alloc::{AllocError, Global};
use std::rc::Rc;

/// A type whose values are scalars (GraphQL October 2021, 3.5 Scalars, result coercion).
pub trait ToScalarValue<S> {
    /// The scalar of a value.
    ghost scalar: { Self → S };

    /// The scalar of the value. An error is want of memory.
    fn to_scalar_value(&self, alloc: Global) -> Result<S, AllocError>
        ensures { Gives result (scalar self.now) };
}

/// The scalar of the boolean (3.5.4 Boolean). Takes no memory.
impl<S: ScalarValue> ToScalarValue<S> for bool {
    ghost scalar = { S.of_bool };

    fn to_scalar_value(&self, _alloc: Global) -> Result<S, AllocError> {
        Ok(S::from_bool(*self))
    }
}

/// The scalar of the integer (3.5.1 Int). Takes no memory.
impl<S: ScalarValue> ToScalarValue<S> for i32 {
    ghost scalar = { S.of_int };

    fn to_scalar_value(&self, _alloc: Global) -> Result<S, AllocError> {
        Ok(S::from_int(*self))
    }
}

/// The scalar of the text (3.5.3 String).
impl<S: ScalarValue> ToScalarValue<S> for &str {
    ghost scalar = { λ text. S.of_text text.now };

    fn to_scalar_value(&self, alloc: Global) -> Result<S, AllocError> {
        Ok(S::from_string(String::from_str(alloc, *self)?))
    }
}

/// The scalar of the text (3.5.3 String).
impl<S: ScalarValue> ToScalarValue<S> for String {
    ghost scalar = { λ text. S.of_text (string_bytes text) };

    fn to_scalar_value(&self, alloc: Global) -> Result<S, AllocError> {
        self.as_str().to_scalar_value(alloc)
    }
}

/// The scalar of the text (3.5.3 String).
impl<S: ScalarValue> ToScalarValue<S> for Text {
    ghost scalar = { S.of_text };

    fn to_scalar_value(&self, alloc: Global) -> Result<S, AllocError> {
        self.as_str().to_scalar_value(alloc)
    }
}

/// The scalar of the value that is lent.
impl<S, T: ToScalarValue<S>> ToScalarValue<S> for &T {
    ghost scalar = { λ lent. T.scalar lent.now };

    fn to_scalar_value(&self, alloc: Global) -> Result<S, AllocError> {
        T::to_scalar_value(*self, alloc)
    }
}

/// The scalar of the value in the box.
impl<S, T: ToScalarValue<S>> ToScalarValue<S> for Box<T> {
    ghost scalar = { λ boxed. T.scalar boxed.value };

    fn to_scalar_value(&self, alloc: Global) -> Result<S, AllocError> {
        T::to_scalar_value(&**self, alloc)
    }
}

/// The scalar of the value that is shared.
impl<S, T: ToScalarValue<S>> ToScalarValue<S> for Rc<T> {
    ghost scalar = { λ shared. T.scalar shared.value };

    fn to_scalar_value(&self, alloc: Global) -> Result<S, AllocError> {
        T::to_scalar_value(&**self, alloc)
    }
}
