//! Equality of the values of arguments, names and places included.

ghost use Rattle.std.specs.Prelude.{◌≡◌};
ghost use Rattle.std.specs.Cmp.{on_equiv, on_per};
ghost use Rattle.std.specs.Cmp.Lexicographic.{pointwise};
ghost use Rattle.std.specs.Ordering.{on};
ghost use Rattle.std.specs.Str.{bytes_eq};
ghost use Rattle.graphql_look_ahead.specs.Equality.{equal, same_field, same_item, same_span};
ghost use Rattle.graphql_look_ahead.specs.EqualityLaws.{equal_equiv, equal_per, fields_equiv};
ghost use Rattle.graphql_look_ahead.specs.EqualityLaws.{fields_per, items_equiv, items_per};
ghost use Rattle.graphql_look_ahead.specs.Values.{fields_left, fields_told, items_ahead};
ghost use Rattle.graphql_look_ahead.specs.Values.{items_told};
ghost use Rattle.graphql_look_ahead.specs.Values.{value_shown};

use crate::list::LookAheadList;
use crate::object::LookAheadObject;
use crate::value::LookAheadValue;
use crate::{look_ahead_list, look_ahead_object};
use graphql_text::Span;

/// Whether these are the same place.
fn are_same_span(mine: Span, theirs: Span) -> bool
    ensures { result ≡ same_span mine theirs }
{
    mine == theirs
}

/// Whether these are one name.
fn are_same_name(mine: &str, theirs: &str) -> bool
    ensures { result ≡ bytes_eq mine.now theirs.now }
{
    mine == theirs
}

/// Whether the values have one form, and are equal in what they hold.
#[cycle(equality)]
fn are_same_value<S: PartialEq>(mine: LookAheadValue<'_, S>, theirs: LookAheadValue<'_, S>) -> bool
    ensures { result ≡ equal S.eq (value_shown mine.entry) (value_shown theirs.entry) }
{
    match mine {
        LookAheadValue::Null => match theirs {
            LookAheadValue::Null => true,
            _ => false,
        },
        LookAheadValue::Scalar(scalar) => match theirs {
            LookAheadValue::Scalar(other) => scalar == other,
            _ => false,
        },
        LookAheadValue::Enum(name) => match theirs {
            LookAheadValue::Enum(other) => are_same_name(name, other),
            _ => false,
        },
        LookAheadValue::List(list) => match theirs {
            LookAheadValue::List(other) => are_same_items(list.iter(), other.iter()),
            _ => false,
        },
        LookAheadValue::Object(object) => match theirs {
            LookAheadValue::Object(other) => are_same_fields(object.iter(), other.iter()),
            _ => false,
        },
    }
}

/// Whether there are as many items, and equal ones in order, at the same places.
#[cycle(equality)]
fn are_same_items<S: PartialEq>(
    mut mine: look_ahead_list::Iter<'_, S>,
    mut theirs: look_ahead_list::Iter<'_, S>,
) -> bool
    ensures { result
        ≡ pointwise (same_item (equal S.eq)) (items_ahead mine.entry) (items_ahead theirs.entry) }
{
    'items: while let Some(item) = mine.next() {
        match theirs.next() {
            Some(other) => {
                if !are_same_span(item.span, other.span) || !are_same_value(item.item, other.item) {
                    return false;
                }
            }
            None => return false,
        }
    }
    match theirs.next() {
        Some(_) => false,
        None => true,
    }
}

/// Whether there are as many fields, and equal ones of the same names in order, at the same places.
#[cycle(equality)]
fn are_same_fields<S: PartialEq>(
    mut mine: look_ahead_object::Iter<'_, S>,
    mut theirs: look_ahead_object::Iter<'_, S>,
) -> bool
    ensures { result
        ≡ pointwise (same_field (equal S.eq)) (fields_left mine.entry) (fields_left theirs.entry) }
{
    'fields: while let Some(field) = mine.next() {
        match theirs.next() {
            Some(other) => {
                if field.0.item != other.0.item || !are_same_span(field.0.span, other.0.span) {
                    return false;
                }
                if !are_same_span(field.1.span, other.1.span)
                    || !are_same_value(field.1.item, other.1.item)
                {
                    return false;
                }
            }
            None => return false,
        }
    }
    match theirs.next() {
        Some(_) => false,
        None => true,
    }
}

// Values of one form that are equal in what they hold: scalars by their own equality, enums by
// name, lists item by item, objects field by field in order, all at the same places. Takes stack
// for each level that both nest.
impl<'a, S: PartialEq> PartialEq for LookAheadValue<'a, S> {
    ghost eq = { on value_shown (equal S.eq) };

    ghost laws = { on_per value_shown (equal_per S.eq S.laws) };

    fn eq(&self, other: &LookAheadValue<'a, S>) -> bool {
        are_same_value(*self, *other)
    }
}

impl<'a, S: Eq> Eq for LookAheadValue<'a, S> {
    ghost laws = { on_equiv value_shown (equal_equiv S.eq S.Eq.laws) };
}

// Equal items in order, at the same places. Takes stack for each level that both nest.
impl<'a, S: PartialEq> PartialEq for LookAheadList<'a, S> {
    ghost eq = { on items_told (pointwise (same_item (equal S.eq))) };

    ghost laws = { on_per items_told (items_per S.eq S.laws) };

    fn eq(&self, other: &LookAheadList<'a, S>) -> bool {
        are_same_items(self.iter(), other.iter())
    }
}

impl<'a, S: Eq> Eq for LookAheadList<'a, S> {
    ghost laws = { on_equiv items_told (items_equiv S.eq S.Eq.laws) };
}

// Equal fields of the same names in order, at the same places. Takes stack for each level that both
// nest.
impl<'a, S: PartialEq> PartialEq for LookAheadObject<'a, S> {
    ghost eq = { on fields_told (pointwise (same_field (equal S.eq))) };

    ghost laws = { on_per fields_told (fields_per S.eq S.laws) };

    fn eq(&self, other: &LookAheadObject<'a, S>) -> bool {
        are_same_fields(self.iter(), other.iter())
    }
}

impl<'a, S: Eq> Eq for LookAheadObject<'a, S> {
    ghost laws = { on_equiv fields_told (fields_equiv S.eq S.Eq.laws) };
}
