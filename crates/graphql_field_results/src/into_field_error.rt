//! The errors of fields that errors of other types become.

ghost use Rattle.std.specs.Prelude.{◌≡◌, string_bytes};
ghost use Rattle.std.specs.Box.{boxed_str_bytes};
ghost use Rattle.std.specs.Cow.{cow_str_bytes};
ghost use Rattle.graphql_scalars.specs.CheckErrors.{error_text, wrong_type};
ghost use Rattle.graphql_scalars.specs.ScalarText.{scalar_text};
ghost use Rattle.graphql_values.specs.declared.conversions.arrays.FromInputValueArrayError.TheVariants as array_error;
ghost use Rattle.graphql_values.specs.declared.conversions.lists.FromInputValueVecError.TheVariants as vec_error;
ghost use Rattle.graphql_field_results.specs.IntoFieldErrors.{
  IsFaultOf,
  check_fault,
  of_array_error,
  of_list_error,
  only_reason,
  wrong_count,
};
ghost use Rattle.graphql_field_results.specs.declared.field_error.FieldError.{FieldError};
ghost use Rattle.graphql_field_results.specs.declared.field_fault.FieldFault.TheVariants as fault;

use crate::field_error::FieldError;
use crate::field_fault::FieldFault;
use graphql_scalars::{CheckError, ScalarValue, WrongInputScalarTypeError};
use graphql_text::Text;
use graphql_values::{FromInputValue, FromInputValueArrayError, FromInputValueVecError};
use std::alloc::Global;
use std::borrow::CowStr;
use std::boxed::BoxedStr;

/// A type whose values become errors of fields (GraphQL October 2021, 6.4.4 Handling Field Errors).
pub trait IntoFieldError<S>: Sized {
    /// The error of a field that a value becomes.
    ghost becomes: { Self → FieldError S };

    /// The error of a field that the value becomes, or want of memory.
    fn into_field_error(self, alloc: Global) -> FieldFault<S>
        ensures { IsFaultOf (becomes self) result };
}

/// The error as it is. Takes no memory.
impl<S> IntoFieldError<S> for FieldError<S> {
    ghost becomes = { λ error. error };

    fn into_field_error(self, _alloc: Global) -> FieldFault<S>
        ensures { result ≡ fault.Error self }
    {
        FieldFault::Error(self)
    }
}

/// The text is the reason.
impl<S> IntoFieldError<S> for &str {
    ghost becomes = { λ text. only_reason text.now };

    fn into_field_error(self, alloc: Global) -> FieldFault<S> {
        match Text::from_str(alloc, self) {
            Ok(text) => text.into_field_error(alloc),
            Err(_) => FieldFault::Memory,
        }
    }
}

/// The text is the reason. Takes no memory.
impl<S> IntoFieldError<S> for String {
    ghost becomes = { λ text. only_reason (string_bytes text) };

    fn into_field_error(self, _alloc: Global) -> FieldFault<S>
        ensures { result ≡ fault.Error (only_reason (string_bytes self)) }
    {
        FieldFault::Error(FieldError::of(Text::from_string(self)))
    }
}

/// The text is the reason. Takes memory only for a text that is lent.
impl<S> IntoFieldError<S> for CowStr<'_> {
    ghost becomes = { λ text. only_reason (cow_str_bytes text) };

    fn into_field_error(self, alloc: Global) -> FieldFault<S> {
        match self.into_owned(alloc) {
            Ok(text) => text.into_field_error(alloc),
            Err(_) => FieldFault::Memory,
        }
    }
}

/// The text is the reason. Takes no memory.
impl<S> IntoFieldError<S> for BoxedStr {
    ghost becomes = { λ text. only_reason (boxed_str_bytes text) };

    fn into_field_error(self, _alloc: Global) -> FieldFault<S>
        ensures { result ≡ fault.Error (only_reason (boxed_str_bytes self)) }
    {
        FieldFault::Error(FieldError::of(Text::from_string(self.into_string())))
    }
}

/// The text is the reason. Takes no memory.
impl<S> IntoFieldError<S> for Text {
    ghost becomes = { only_reason };

    fn into_field_error(self, _alloc: Global) -> FieldFault<S>
        ensures { result ≡ fault.Error (only_reason self) }
    {
        FieldFault::Error(FieldError::of(self))
    }
}

/// What is wrong with the value is the reason. Want of memory stays want of memory. Takes no
/// memory.
impl<S> IntoFieldError<S> for CheckError {
    ghost becomes = { λ error. only_reason (error_text error) };

    fn into_field_error(self, _alloc: Global) -> FieldFault<S>
        ensures { result ≡ check_fault self }
    {
        match self {
            CheckError::Message(text) => FieldFault::Error(FieldError::of(text)),
            CheckError::Memory => FieldFault::Memory,
        }
    }
}

/// The reason tells which type was expected, and which scalar was found.
impl<'a, S: ScalarValue, T> IntoFieldError<T> for WrongInputScalarTypeError<'a, S> {
    ghost becomes = { λ error.
        only_reason (wrong_type error.type_name (scalar_text (S.answer error.input))) };

    fn into_field_error(self, alloc: Global) -> FieldFault<T> {
        match self.to_string(alloc) {
            Ok(text) => text.into_field_error(alloc),
            Err(_) => FieldFault::Memory,
        }
    }
}

/// That null is refused, or what the item's error becomes. Want of memory stays want of memory.
impl<S, T: FromInputValue<S>> IntoFieldError<S> for FromInputValueVecError<T, S>
where
    T::Error: IntoFieldError<S>,
{
    ghost becomes = { of_list_error T.Error.becomes };

    fn into_field_error(self, alloc: Global) -> FieldFault<S>
        ensures value { IsFaultOf (of_list_error T.Error.becomes self) result }
        ensures memory { self ≡ vec_error.Memory → result ≡ fault.Memory }
    {
        match self {
            FromInputValueVecError::Null => {
                "Failed to convert into `Vec`: Value cannot be `null`".into_field_error(alloc)
            }
            FromInputValueVecError::Item(error) => error.into_field_error(alloc),
            FromInputValueVecError::Memory => FieldFault::Memory,
        }
    }
}

/// How many items were found in place of how many, or want of memory.
fn count_told<S>(alloc: Global, actual: usize, expected: usize) -> FieldFault<S>
    ensures { IsFaultOf (only_reason (wrong_count actual expected)) result }
{
    let written = format!(in alloc;
        "Failed to convert into exact-size array: wrong elements count: {actual} instead of {expected}"
    );
    match written {
        Ok(text) => text.into_field_error(alloc),
        Err(_) => FieldFault::Memory,
    }
}

/// That null is refused, which number of items was found in place of which, or what the item's
/// error becomes. Want of memory stays want of memory.
impl<S, T: FromInputValue<S>> IntoFieldError<S> for FromInputValueArrayError<T, S>
where
    T::Error: IntoFieldError<S>,
{
    ghost becomes = { of_array_error T.Error.becomes };

    fn into_field_error(self, alloc: Global) -> FieldFault<S>
        ensures value { IsFaultOf (of_array_error T.Error.becomes self) result }
        ensures memory { self ≡ array_error.Memory → result ≡ fault.Memory }
    {
        match self {
            FromInputValueArrayError::Null => {
                "Failed to convert into exact-size array: Value cannot be `null`".into_field_error(
                    alloc,
                )
            }
            FromInputValueArrayError::WrongCount { actual, expected } => {
                count_told(alloc, actual, expected)
            }
            FromInputValueArrayError::Item(error) => error.into_field_error(alloc),
            FromInputValueArrayError::Memory => FieldFault::Memory,
        }
    }
}
