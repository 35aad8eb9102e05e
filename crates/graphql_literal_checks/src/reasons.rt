//! The reasons why values do not conform, in words.

use crate::misfit::Misfit;
use graphql_names::{BorrowedType, Type};
use graphql_scalars::ScalarValue;
use graphql_text::Text;
use graphql_values::InputValue;
use std::alloc::Global;

/// `null` where the type has none.
pub(crate) fn null_given(alloc: Global, asked: &BorrowedType<'_>) -> Misfit {
    Misfit::told(format!(in alloc; "null given for type \"{asked}\""))
}

/// Another number of items than the list is to have.
pub(crate) fn wrong_size(alloc: Global, expected: usize, found: usize) -> Misfit {
    Misfit::told(format!(in alloc; "expected {expected} items, found {found}"))
}

/// No value of the type of this name.
pub(crate) fn invalid_value<S: ScalarValue>(
    alloc: Global,
    type_name: &str,
    value: &InputValue<S>,
) -> Misfit {
    Misfit::told(format!(in alloc; "invalid value {value} for type \"{type_name}\""))
}

/// No value of the enum of this name.
pub(crate) fn invalid_enum_value<S: ScalarValue>(
    alloc: Global,
    enum_name: &str,
    value: &InputValue<S>,
) -> Misfit {
    Misfit::told(format!(in alloc; "invalid value {value} for enum \"{enum_name}\""))
}

/// A field that the input object does not declare.
pub(crate) fn unknown_field(alloc: Global, name: &str, type_name: &str) -> Misfit {
    Misfit::told(format!(in alloc; "unknown field \"{name}\" on type \"{type_name}\""))
}

/// A field that has to be given, and is not.
pub(crate) fn missing_field(alloc: Global, name: &str, field_type: &Type<Text>) -> Misfit {
    Misfit::told(format!(in alloc; "missing field \"{name}\" of type \"{field_type}\""))
}

/// No field, several fields or `null` where exactly one field is to be given.
pub(crate) fn not_one_given(alloc: Global, type_name: &str) -> Misfit {
    Misfit::told(format!(in alloc; "exactly one field of \"{type_name}\" must be given"))
}
