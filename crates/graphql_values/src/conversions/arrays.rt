//! Values as lists of one length.

ghost use Rattle.std.specs.Prelude.{◌≡◌, ◌≢◌, length, MatchOption, MatchResult};
ghost use Rattle.graphql_values.specs.ConversionsOfArrays as spec;
ghost use Rattle.graphql_values.specs.ConversionLaws.{arrays_apart, array_memory};
ghost use Rattle.graphql_values.specs.declared.conversions.arrays.FromInputValueArrayError.TheVariants as array_error;

use super::FromInputValue;
use super::lists::FromInputValueVecError;
use crate::input_value::InputValue;
use std::alloc::{AllocError, AllocFailed, Global};
use std::error::Error;
use std::fmt;

/// Why a value means no list of the wanted length, by its items' errors.
#[derive_where(Clone, Debug, PartialEq, Eq; T::Error)]
#[derive(Drop)]
pub enum FromInputValueArrayError<T, S>
where
    T: FromInputValue<S>,
{
    /// The value is null.
    Null,

    /// The value gives another number of items.
    WrongCount {
        /// How many it gives.
        actual: usize,

        /// How many are wanted.
        expected: usize,
    },

    /// The error of the first item that means nothing.
    Item(T::Error),

    /// Memory ran out. It says nothing about the value.
    Memory,
}

impl<S, T: FromInputValue<S>> From<AllocError> for FromInputValueArrayError<T, S> {
    ghost from_gives = { λ _ e. e ≡ array_error.Memory };

    fn from(_error: AllocError) -> FromInputValueArrayError<T, S> {
        FromInputValueArrayError::Memory
    }
}

impl<U: Drop, S, T: FromInputValue<S>> From<AllocFailed<U>> for FromInputValueArrayError<T, S> {
    ghost from_gives = { λ _ e. e ≡ array_error.Memory };

    fn from(_error: AllocFailed<U>) -> FromInputValueArrayError<T, S> {
        FromInputValueArrayError::Memory
    }
}

impl<S, T: FromInputValue<S>> From<FromInputValueVecError<T, S>>
    for FromInputValueArrayError<T, S> {
    ghost from_gives = { λ error e. e ≡ spec.of_list_error error };

    fn from(error: FromInputValueVecError<T, S>) -> FromInputValueArrayError<T, S> {
        match error {
            FromInputValueVecError::Null => FromInputValueArrayError::Null,
            FromInputValueVecError::Item(error) => FromInputValueArrayError::Item(error),
            FromInputValueVecError::Memory => FromInputValueArrayError::Memory,
        }
    }
}

/// How many items a list has, if it is another number than the wanted one.
fn other_count<S>(value: &InputValue<S>, expected: usize) -> Option<usize>
    ensures { MatchOption result (spec.ListHas expected value.now)
        (spec.ListHasOther expected value.now) }
{
    match value {
        InputValue::List(items) => {
            let actual = items.len();
            (actual != expected).then_some(actual)
        }
        _ => None,
    }
}

/// The values as an array, if there are as many.
fn exactly<S, T: FromInputValue<S> + Drop, const N: usize>(
    values: Vec<T>,
) -> Result<[T; N], FromInputValueArrayError<T, S>>
    ensures { MatchResult result (λ array. (array ≡ values.items) × (length values.items ≡ N))
        (λ e. (e ≡ array_error.WrongCount (length values.items) N) × (length values.items ≢ N)) }
{
    let actual = values.len();
    match <[T; N]>::try_from(values) {
        Ok(array) => Ok(array),
        Err(_) => Err(FromInputValueArrayError::WrongCount {
            actual,
            expected: N,
        }),
    }
}

/// What a value means as a list, if it is a list of `N` items. A list of another number is refused
/// before its items are read, and a value that stands alone once it has been read (GraphQL October
/// 2021, 3.11 List, "Input Coercion").
impl<S, T: FromInputValue<S> + Drop, const N: usize> FromInputValue<S> for [T; N] {
    type Error = FromInputValueArrayError<T, S>;

    ghost means = { spec.MeansExactly N T.means };

    ghost refuses = { spec.RefusesExactly N T.means T.refuses };

    ghost is_memory = { spec.IsItemMemory T.is_memory };

    ghost means_absent = { λ meant. ⊥ };

    ghost refuses_absent = { λ e. e ≡ array_error.Null };

    ghost apart = { arrays_apart N T.means T.refuses T.apart };

    ghost absent_apart = { λ meant e impossible is. impossible };

    ghost memory = { λ _ e is. array_memory T.is_memory e is };

    fn from_input_value(
        alloc: Global,
        value: &InputValue<S>,
    ) -> Result<[T; N], FromInputValueArrayError<T, S>> {
        if let Some(actual) = other_count(value, N) {
            return Err(FromInputValueArrayError::WrongCount {
                actual,
                expected: N,
            });
        }
        match Vec::from_input_value(alloc, value) {
            Ok(meant) => exactly(meant),
            Err(error) => Err(FromInputValueArrayError::from(error)),
        }
    }

    fn from_implicit_null(_alloc: Global) -> Result<[T; N], FromInputValueArrayError<T, S>> {
        Err(FromInputValueArrayError::Null)
    }
}

/// Writes that null is refused, which number of items was found in place of which, an item's own
/// text, or `Out of memory`.
impl<S, T: FromInputValue<S>> fmt::Display for FromInputValueArrayError<T, S>
where
    T::Error: fmt::Display,
{
    ghost output = { spec.array_error_text T.Error.output };

    fn fmt<W: fmt::Write>(&self, f: &mut fmt::Formatter<W>) -> fmt::Result {
        match self {
            FromInputValueArrayError::Null => {
                f.write_str("Failed to convert into exact-size array: Value cannot be `null`")
            }
            FromInputValueArrayError::WrongCount { actual, expected } => write!(
                f,
                "Failed to convert into exact-size array: wrong elements count: {actual} instead of {expected}"
            ),
            FromInputValueArrayError::Item(error) => write!(f, "{error}"),
            FromInputValueArrayError::Memory => f.write_str("Out of memory"),
        }
    }
}

impl<S: Drop, T: FromInputValue<S> + Drop> Error for FromInputValueArrayError<T, S>
where
    T::Error: fmt::Debug + fmt::Display + Drop,
{}
