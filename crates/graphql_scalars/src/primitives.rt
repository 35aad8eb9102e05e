//! The plain values that scalars mean.

ghost use Rattle.std.specs.Prelude.{◌≡◌, ◌≢◌, Some, codes, string_bytes};
ghost use Rattle.std.specs.declared.alloc.AllocError.{AllocError};
ghost use Rattle.std.proofs.Common.{rules};
ghost use Rattle.graphql_scalars.specs.CheckErrors as spec;
ghost use Rattle.graphql_text.specs.Memory.{Answers};
ghost use Rattle.graphql_scalars.specs.Conversions.{Refused};
ghost use Rattle.graphql_scalars.specs.ScalarText.{scalar_text};
ghost use Rattle.graphql_scalars.specs.ScalarAnswers.{as_int, as_bool, as_text};
ghost use Rattle.graphql_scalars.specs.declared.check_error.CheckError.TheVariants.{Message};
ghost use Rattle.graphql_scalars.specs.declared.check_error.CheckError.TheVariants.{Memory};

use crate::check_error::{CheckError, WrongInputScalarTypeError};
use crate::lent_scalar::Scalar;
use crate::scalar::ScalarValue;
use graphql_text::TextRef;
use std::alloc::{AllocError, Global};

/// A scalar that may be a plain value, of the type `T` (GraphQL October 2021, 3.5 Scalars, input
/// coercion).
pub trait TryToPrimitive<'me, T> {
    /// Why the scalar is no value of the type, or want of memory.
    type Error: From<AllocError>;

    /// Whether the scalar means this value.
    ghost means: { Self → T → Type 0 };

    /// Whether the scalar means no value of the type, and the error says so.
    ghost refuses: { Self → Self.Error → Type 0 };

    /// Whether an error is want of memory.
    ghost is_memory: { Self.Error → Type 0 };

    /// The value that the scalar means, or why it means none.
    fn try_to_primitive(&'me self, alloc: Global) -> Result<T, Self::Error>
        ensures { Answers (means self.now) (refuses self.now) is_memory result };

    /// No scalar both means a value and is refused.
    ghost apart: { (s : Self) (x : T) (e : Self.Error) → means s x → refuses s e → ⊥ };

    /// An error that is made of want of memory is one.
    ghost memory: { (a : AllocError) (e : Self.Error) → Self.Error.from_gives a e → is_memory e };
}

/// The refusal of a scalar that is no value of the type of this name.
fn refusal<S: ScalarValue>(alloc: Global, type_name: &str, scalar: &S) -> CheckError
    ensures { result ≢ Memory
        → result ≡ Message (spec.wrong_type type_name.now (scalar_text (S.answer scalar.now))) }
{
    let error = WrongInputScalarTypeError {
        type_name: TextRef::new(type_name),
        input: Scalar::from(scalar),
    };
    error.to_check_error(alloc)
}

/// The boolean that the scalar answers (3.5.4 Boolean). Takes memory only for the refusal.
impl<'me, S: ScalarValue> TryToPrimitive<'me, bool> for S {
    type Error = CheckError;

    ghost means = { λ s value. as_bool (S.answer s) ≡ Some value };

    ghost refuses = { λ s e.
        Refused (codes "Boolean") (scalar_text (S.answer s)) (as_bool (S.answer s)) e };

    ghost is_memory = { λ e. e ≡ Memory };

    ghost apart = { Prim.search rules };

    ghost memory = { Prim.search rules };

    fn try_to_primitive(&'me self, alloc: Global) -> Result<bool, CheckError> {
        match self.try_to_bool() {
            Some(value) => Ok(value),
            None => Err(refusal(alloc, "Boolean", self)),
        }
    }
}

/// The integer that the scalar answers (3.5.1 Int). Takes memory only for the refusal.
impl<'me, S: ScalarValue> TryToPrimitive<'me, i32> for S {
    type Error = CheckError;

    ghost means = { λ s value. as_int (S.answer s) ≡ Some value };

    ghost refuses = { λ s e.
        Refused (codes "Int") (scalar_text (S.answer s)) (as_int (S.answer s)) e };

    ghost is_memory = { λ e. e ≡ Memory };

    ghost apart = { Prim.search rules };

    ghost memory = { Prim.search rules };

    fn try_to_primitive(&'me self, alloc: Global) -> Result<i32, CheckError> {
        match self.try_to_int() {
            Some(value) => Ok(value),
            None => Err(refusal(alloc, "Int", self)),
        }
    }
}

/// The text that the scalar answers, lent (3.5.3 String). Takes memory only for the refusal.
impl<'me, S: ScalarValue> TryToPrimitive<'me, &'me str> for S {
    type Error = CheckError;

    ghost means = { λ s text. as_text (S.answer s) ≡ Some text.now };

    ghost refuses = { λ s e.
        Refused (codes "String") (scalar_text (S.answer s)) (as_text (S.answer s)) e };

    ghost is_memory = { λ e. e ≡ Memory };

    ghost apart = { Prim.search rules };

    ghost memory = { Prim.search rules };

    fn try_to_primitive(&'me self, alloc: Global) -> Result<&'me str, CheckError> {
        match self.try_as_str() {
            Some(text) => Ok(text),
            None => Err(refusal(alloc, "String", self)),
        }
    }
}

/// The text that the scalar answers, as a text of its own (3.5.3 String).
impl<'me, S: ScalarValue> TryToPrimitive<'me, String> for S {
    type Error = CheckError;

    ghost means = { λ s text. as_text (S.answer s) ≡ Some (string_bytes text) };

    ghost refuses = { λ s e.
        Refused (codes "String") (scalar_text (S.answer s)) (as_text (S.answer s)) e };

    ghost is_memory = { λ e. e ≡ Memory };

    ghost apart = { Prim.search rules };

    ghost memory = { Prim.search rules };

    fn try_to_primitive(&'me self, alloc: Global) -> Result<String, CheckError> {
        match self.try_as_str() {
            Some(text) => Ok(String::from_str(alloc, text)?),
            None => Err(refusal(alloc, "String", self)),
        }
    }
}
