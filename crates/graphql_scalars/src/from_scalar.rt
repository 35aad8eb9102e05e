//! What scalars mean at other types.

ghost use Rattle.std.specs.Prelude.{◌≡◌, Some, codes, string_bytes};
ghost use Rattle.std.specs.declared.alloc.AllocError.{AllocError};
ghost use Rattle.std.proofs.Common.{rules};
ghost use Rattle.graphql_text.specs.Memory.{Answers};
ghost use Rattle.graphql_scalars.specs.Conversions.{Refused};
ghost use Rattle.graphql_scalars.specs.ScalarText.{scalar_text};
ghost use Rattle.graphql_scalars.specs.ScalarAnswers.{as_int, as_bool, as_text};
ghost use Rattle.graphql_scalars.specs.declared.check_error.CheckError.TheVariants.{Memory};

use crate::check_error::CheckError;
use crate::lent_scalar::Scalar;
use crate::primitives::TryToPrimitive;
use crate::scalar::ScalarValue;
use graphql_text::Text;
use std::alloc::{AllocError, Global};
use std::rc::Rc;

/// A type that scalars mean values of (GraphQL October 2021, 3.5 Scalars, input coercion).
pub trait FromScalarValue<'s, S>: Sized {
    /// Why a scalar means nothing here, or want of memory.
    type Error: From<AllocError>;

    /// Whether a scalar means this value.
    ghost means: { S → Self → Type 0 };

    /// Whether a scalar means nothing here, and the error says so.
    ghost refuses: { S → Self.Error → Type 0 };

    /// Whether an error is want of memory.
    ghost is_memory: { Self.Error → Type 0 };

    /// What the scalar means, or why it means nothing here.
    fn from_scalar_value(alloc: Global, scalar: &'s S) -> Result<Self, Self::Error>
        ensures { Answers (means scalar.now) (refuses scalar.now) is_memory result };

    /// No scalar both means a value and is refused.
    ghost apart: { (s : S) (x : Self) (e : Self.Error) → means s x → refuses s e → ⊥ };

    /// An error that is made of want of memory is one.
    ghost memory: { (a : AllocError) (e : Self.Error) → Self.Error.from_gives a e → is_memory e };
}

/// The boolean that a scalar answers (3.5.4 Boolean). Takes memory only for the refusal.
impl<'s, S: ScalarValue> FromScalarValue<'s, S> for bool {
    type Error = CheckError;

    ghost means = { λ s value. as_bool (S.answer s) ≡ Some value };

    ghost refuses = { λ s e.
        Refused (codes "Boolean") (scalar_text (S.answer s)) (as_bool (S.answer s)) e };

    ghost is_memory = { λ e. e ≡ Memory };

    ghost apart = { Prim.search rules };

    ghost memory = { Prim.search rules };

    fn from_scalar_value(alloc: Global, scalar: &'s S) -> Result<bool, CheckError> {
        scalar.try_to_primitive(alloc)
    }
}

/// The integer that a scalar answers (3.5.1 Int). Takes memory only for the refusal.
impl<'s, S: ScalarValue> FromScalarValue<'s, S> for i32 {
    type Error = CheckError;

    ghost means = { λ s value. as_int (S.answer s) ≡ Some value };

    ghost refuses = { λ s e.
        Refused (codes "Int") (scalar_text (S.answer s)) (as_int (S.answer s)) e };

    ghost is_memory = { λ e. e ≡ Memory };

    ghost apart = { Prim.search rules };

    ghost memory = { Prim.search rules };

    fn from_scalar_value(alloc: Global, scalar: &'s S) -> Result<i32, CheckError> {
        scalar.try_to_primitive(alloc)
    }
}

/// The text that a scalar answers, lent (3.5.3 String). Takes memory only for the refusal.
impl<'s, S: ScalarValue> FromScalarValue<'s, S> for &'s str {
    type Error = CheckError;

    ghost means = { λ s text. as_text (S.answer s) ≡ Some text.now };

    ghost refuses = { λ s e.
        Refused (codes "String") (scalar_text (S.answer s)) (as_text (S.answer s)) e };

    ghost is_memory = { λ e. e ≡ Memory };

    ghost apart = { Prim.search rules };

    ghost memory = { Prim.search rules };

    fn from_scalar_value(alloc: Global, scalar: &'s S) -> Result<&'s str, CheckError> {
        scalar.try_to_primitive(alloc)
    }
}

/// The text that a scalar answers, as a text of its own (3.5.3 String).
impl<'s, S: ScalarValue> FromScalarValue<'s, S> for String {
    type Error = CheckError;

    ghost means = { λ s text. as_text (S.answer s) ≡ Some (string_bytes text) };

    ghost refuses = { λ s e.
        Refused (codes "String") (scalar_text (S.answer s)) (as_text (S.answer s)) e };

    ghost is_memory = { λ e. e ≡ Memory };

    ghost apart = { Prim.search rules };

    ghost memory = { Prim.search rules };

    fn from_scalar_value(alloc: Global, scalar: &'s S) -> Result<String, CheckError> {
        scalar.try_to_primitive(alloc)
    }
}

/// The text that a scalar answers, as a text of its own (3.5.3 String).
impl<'s, S: ScalarValue> FromScalarValue<'s, S> for Text {
    type Error = CheckError;

    ghost means = { λ s text. as_text (S.answer s) ≡ Some text };

    ghost refuses = { λ s e.
        Refused (codes "String") (scalar_text (S.answer s)) (as_text (S.answer s)) e };

    ghost is_memory = { λ e. e ≡ Memory };

    ghost apart = { Prim.search rules };

    ghost memory = { Prim.search rules };

    fn from_scalar_value(alloc: Global, scalar: &'s S) -> Result<Text, CheckError> {
        let text: String = scalar.try_to_primitive(alloc)?;
        Ok(Text::from_string(text))
    }
}

/// The scalar itself, lent. None is refused, and no memory is taken.
impl<'s, S> FromScalarValue<'s, S> for &'s S {
    type Error = CheckError;

    ghost means = { λ s lent. lent.now ≡ s };

    ghost refuses = { λ s e. ⊥ };

    ghost is_memory = { λ e. e ≡ Memory };

    ghost apart = { λ s x e is no. no };

    ghost memory = { Prim.search rules };

    fn from_scalar_value(_alloc: Global, scalar: &'s S) -> Result<&'s S, CheckError> {
        Ok(scalar)
    }
}

/// The scalar itself, lent, as messages name it. None is refused, and no memory is taken.
impl<'s, S> FromScalarValue<'s, S> for Scalar<'s, S> {
    type Error = CheckError;

    ghost means = { λ s lent. lent ≡ s };

    ghost refuses = { λ s e. ⊥ };

    ghost is_memory = { λ e. e ≡ Memory };

    ghost apart = { λ s x e is no. no };

    ghost memory = { Prim.search rules };

    fn from_scalar_value(_alloc: Global, scalar: &'s S) -> Result<Scalar<'s, S>, CheckError> {
        Ok(Scalar::from(scalar))
    }
}

/// What a scalar means at the type within, in a box.
impl<'s, S, T: FromScalarValue<'s, S> + Drop> FromScalarValue<'s, S> for Box<T> {
    type Error = T::Error;

    ghost means = { λ s boxed. T.means s boxed.value };

    ghost refuses = { T.refuses };

    ghost is_memory = { T.is_memory };

    ghost apart = { λ s boxed e. T.apart s boxed.value e };

    ghost memory = { T.memory };

    fn from_scalar_value(alloc: Global, scalar: &'s S) -> Result<Box<T>, T::Error> {
        match T::from_scalar_value(alloc, scalar) {
            Ok(value) => Ok(Box::new(alloc, value).map_err(AllocError::from)?),
            Err(error) => Err(error),
        }
    }
}

/// What a scalar means at the type within, shared.
impl<'s, S, T: FromScalarValue<'s, S> + Drop> FromScalarValue<'s, S> for Rc<T> {
    type Error = T::Error;

    ghost means = { λ s shared. T.means s shared.value };

    ghost refuses = { T.refuses };

    ghost is_memory = { T.is_memory };

    ghost apart = { λ s shared e. T.apart s shared.value e };

    ghost memory = { T.memory };

    fn from_scalar_value(alloc: Global, scalar: &'s S) -> Result<Rc<T>, T::Error> {
        match T::from_scalar_value(alloc, scalar) {
            Ok(value) => Ok(Rc::new(alloc, value).map_err(AllocError::from)?),
            Err(error) => Err(error),
        }
    }
}
