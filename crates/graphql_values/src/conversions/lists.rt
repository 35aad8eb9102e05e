//! Values as lists of any length.

ghost use Rattle.std.specs.Prelude.{◌≡◌, ◌≢◌};
ghost use Rattle.graphql_text.specs.Memory.{Answers};
ghost use Rattle.graphql_values.specs.ConversionLaws.{lists_apart, list_memory};
ghost use Rattle.graphql_values.specs.ConversionsOfLists as spec;
ghost use Rattle.graphql_values.specs.declared.conversions.lists.FromInputValueVecError.TheVariants as vec_error;
ghost use Rattle.graphql_values.specs.declared.input_value.InputValue.TheVariants as value;

use super::FromInputValue;
use crate::input_value::InputValue;
use graphql_text::Spanning;
use std::alloc::{AllocError, AllocFailed, Global};
use std::error::Error;
use std::fmt;

/// Why a value means no list, by its items' errors.
#[derive_where(Clone, Debug, PartialEq, Eq; T::Error)]
#[derive(Drop)]
pub enum FromInputValueVecError<T, S>
where
    T: FromInputValue<S>,
{
    /// The value is null.
    Null,

    /// The error of the first item that means nothing.
    Item(T::Error),

    /// Memory ran out. It says nothing about the value.
    Memory,
}

impl<S, T: FromInputValue<S>> From<AllocError> for FromInputValueVecError<T, S> {
    ghost from_gives = { λ _ e. e ≡ vec_error.Memory };

    fn from(_error: AllocError) -> FromInputValueVecError<T, S> {
        FromInputValueVecError::Memory
    }
}

impl<U: Drop, S, T: FromInputValue<S>> From<AllocFailed<U>> for FromInputValueVecError<T, S> {
    ghost from_gives = { λ _ e. e ≡ vec_error.Memory };

    fn from(_error: AllocFailed<U>) -> FromInputValueVecError<T, S> {
        FromInputValueVecError::Memory
    }
}

/// What each of the values means, or the error of the first that means nothing.
fn read_items<S, T: FromInputValue<S> + Drop>(
    alloc: Global,
    items: &[Spanning<InputValue<S>>],
) -> Result<Vec<T>, FromInputValueVecError<T, S>>
    ensures { Answers (λ meant. spec.MeansItems T.means (value.List items.now) meant.items)
        (spec.RefusesItems T.means T.refuses (value.List items.now)) (spec.IsItemMemory T.is_memory)
        result }
{
    let mut meant = Vec::with_capacity(alloc, items.len())?;
    'items: for item in items {
        match item.item.convert(alloc) {
            Ok(one) => meant.push(one)?,
            Err(error) => return Err(FromInputValueVecError::Item(error)),
        }
    }
    Ok(meant)
}

/// What the value means, as the only item of a list, or its error.
fn read_single<S, T: FromInputValue<S> + Drop>(
    alloc: Global,
    single: &InputValue<S>,
) -> Result<Vec<T>, FromInputValueVecError<T, S>>
    requires not_null { single.now ≢ value.Null }
    requires not_list { (items : _) → single.now ≢ value.List items }
    ensures { Answers (λ meant. spec.MeansItems T.means single.now meant.items)
        (spec.RefusesItems T.means T.refuses single.now) (spec.IsItemMemory T.is_memory) result }
{
    match single.convert(alloc) {
        Ok(only) => {
            let mut meant = Vec::new(alloc);
            meant.push(only)?;
            Ok(meant)
        }
        Err(error) => Err(FromInputValueVecError::Item(error)),
    }
}

/// Null is refused. A list means its items' meanings, in order, and the first refused item refuses
/// it. Any other value means the list of its one meaning (GraphQL October 2021, 3.11 List, "Input
/// Coercion").
impl<S, T: FromInputValue<S> + Drop> FromInputValue<S> for Vec<T> {
    type Error = FromInputValueVecError<T, S>;

    ghost means = { λ v meant. spec.MeansItems T.means v meant.items };

    ghost refuses = { spec.RefusesItems T.means T.refuses };

    ghost is_memory = { spec.IsItemMemory T.is_memory };

    ghost means_absent = { λ meant. ⊥ };

    ghost refuses_absent = { λ e. e ≡ vec_error.Null };

    ghost apart = { λ v meant. lists_apart T.means T.refuses T.apart v meant.items };

    ghost absent_apart = { λ meant e impossible is. impossible };

    ghost memory = { λ _ e is. list_memory T.is_memory e is };

    fn from_input_value(
        alloc: Global,
        value: &InputValue<S>,
    ) -> Result<Vec<T>, FromInputValueVecError<T, S>> {
        match value {
            InputValue::Null => Err(FromInputValueVecError::Null),
            InputValue::List(items) => read_items(alloc, items.as_slice()),
            single => read_single(alloc, single),
        }
    }

    fn from_implicit_null(_alloc: Global) -> Result<Vec<T>, FromInputValueVecError<T, S>> {
        Err(FromInputValueVecError::Null)
    }
}

/// Writes that null is refused, an item's own text, or `Out of memory`.
impl<S, T: FromInputValue<S>> fmt::Display for FromInputValueVecError<T, S>
where
    T::Error: fmt::Display,
{
    ghost output = { spec.list_error_text T.Error.output };

    fn fmt<W: fmt::Write>(&self, f: &mut fmt::Formatter<W>) -> fmt::Result {
        match self {
            FromInputValueVecError::Null => {
                f.write_str("Failed to convert into `Vec`: Value cannot be `null`")
            }
            FromInputValueVecError::Item(error) => write!(f, "{error}"),
            FromInputValueVecError::Memory => f.write_str("Out of memory"),
        }
    }
}

impl<S: Drop, T: FromInputValue<S> + Drop> Error for FromInputValueVecError<T, S>
where
    T::Error: fmt::Debug + fmt::Display + Drop,
{}
