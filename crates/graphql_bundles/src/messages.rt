//! What is told of two fields that do not merge.

use graphql_merging::{Difference, SelectedField};
use graphql_names::Type;
use graphql_occurrences::{TypeLiteral, field_of, type_of_field};
use graphql_rule_errors::joined;
use graphql_text::{Text, TextRef};
use graphql_written_out::response_key;
use std::alloc::{AllocError, Global};

/// What the texts say of two fields of one response key, in the order in which they are handed in.
pub(crate) fn message_of<S, C>(
    alloc: Global,
    difference: Difference,
    left: &SelectedField<'_, '_, S, C>,
    right: &SelectedField<'_, '_, S, C>,
) -> Result<Text, AllocError> {
    let key = response_key(&left.field.item);
    let one = left.field.item.name.item.as_str();
    let other = right.field.item.name.item.as_str();
    match difference {
        Difference::Names => names_differ(alloc, key, one, other),
        Difference::Arguments => joined(
            alloc,
            &[
                "Fields \"",
                key,
                "\" conflict because they have differing arguments",
            ],
        ),
        Difference::Types => {
            let first = type_text(alloc, type_of_field(field_of(Some(left.parent), one)))?;
            let second = type_text(alloc, type_of_field(field_of(Some(right.parent), other)))?;
            types_differ(alloc, key, first.as_str(), second.as_str())
        }
    }
}

/// What is said of two fields of these names.
fn names_differ<'x>(
    alloc: Global,
    key: &'x str,
    one: &'x str,
    other: &'x str,
) -> Result<Text, AllocError> {
    joined(
        alloc,
        &[
            "Fields \"",
            key,
            "\" conflict because ",
            one,
            " and ",
            other,
            " are different fields",
        ],
    )
}

/// What is said of two fields of these types.
fn types_differ<'x>(
    alloc: Global,
    key: &'x str,
    first: &'x str,
    second: &'x str,
) -> Result<Text, AllocError> {
    joined(
        alloc,
        &[
            "Fields \"",
            key,
            "\" conflict because they return conflicting types ",
            first,
            " and ",
            second,
        ],
    )
}

/// A type as it is written, with its wraps.
fn type_text(alloc: Global, literal: Option<TypeLiteral<'_>>) -> Result<String, AllocError> {
    match literal {
        Some(literal) => {
            let reference = Type {
                name: TextRef::new(literal.name),
                modifiers: literal.modifiers,
            };
            format!(in alloc; "{reference}")
        }
        None => Ok(String::new(alloc)),
    }
}
