//! What an input value is, and what it holds.

ghost use Rattle.std.specs.Prelude.{◌≡◌, ◌≢◌, ◌↔◌, ℕ, List, map, IsTrue, IfOk, MatchOption};
ghost use Rattle.graphql_text.specs.Memory.{GivesBy};
ghost use Rattle.graphql_values.specs.InputValues.{Placed, Pair};
ghost use Rattle.graphql_values.specs.Parts.{by_name};
ghost use Rattle.graphql_values.specs.declared.input_value.InputValue.{InputValue};
ghost use Rattle.graphql_values.specs.declared.input_value.InputValue.TheVariants as value;

use super::InputValue;
use graphql_text::{Items, Spanning, Text, TextRef};
use indexmap::IndexMap;
use std::alloc::{AllocError, Global};

impl<S> InputValue<S> {
    /// Whether this is the value `null` (GraphQL October 2021, 2.9.5 Null Value).
    pub fn is_null(&self) -> bool
        ensures { IsTrue result ↔ (self.now ≡ value.Null) }
    {
        match self {
            InputValue::Null => true,
            _ => false,
        }
    }

    /// The name of an enum value (GraphQL October 2021, 2.9.6 Enum Value); `None` where this is
    /// none.
    pub fn as_enum_value(&self) -> Option<&str>
        ensures { MatchOption result ((name : List ℕ) → self.now ≢ value.Enum name)
            (λ name. self.now ≡ value.Enum name.now) }
    {
        match self {
            InputValue::Enum(name) => Some(name.as_str()),
            _ => None,
        }
    }

    /// The scalar of a scalar value (GraphQL October 2021, 2.9 Input Values); `None` where this is
    /// none.
    pub fn as_scalar(&self) -> Option<&S>
        ensures { MatchOption result ((scalar : S) → self.now ≢ value.Scalar scalar)
            (λ scalar. self.now ≡ value.Scalar scalar.now) }
    {
        match self {
            InputValue::Scalar(scalar) => Some(scalar),
            _ => None,
        }
    }

    /// The values of a list, in order (GraphQL October 2021, 2.9.7 List Value); `None` where this
    /// is no list. An error is want of memory.
    pub fn to_list_value(&self, alloc: Global) -> Result<Option<Vec<&InputValue<S>>>, AllocError>
        ensures { IfOk result (λ found. MatchOption found
            ((items : List (Placed (InputValue S))) → self.now ≢ value.List items)
            (λ parts. (items : List (Placed (InputValue S)))
            × (self.now ≡ value.List items)
            × (map (λ part. part.now) parts.items ≡ map (λ x. x.item) items))) }
    {
        match self {
            InputValue::List(items) => Ok(Some(values_of(items, alloc)?)),
            _ => Ok(None),
        }
    }

    /// The fields of an input object by their names (GraphQL October 2021, 2.9.8 Input Object
    /// Values): a name stands where its first field does, with the value of its last; `None` where
    /// this is no input object. An error is want of memory.
    pub fn to_object_value(
        &self,
        alloc: Global,
    ) -> Result<Option<IndexMap<TextRef<'_>, &InputValue<S>>>, AllocError>
        ensures { IfOk result (λ found. MatchOption found
            ((pairs : List (Pair (InputValue S))) → self.now ≢ value.Object pairs)
            (λ fields. (pairs : List (Pair (InputValue S)))
            × (self.now ≡ value.Object pairs)
            × (map (λ field. (field.0, field.1.now)) fields.entries ≡ by_name pairs))) }
    {
        match self {
            InputValue::Object(pairs) => Ok(Some(fields_of(pairs, alloc)?)),
            _ => Ok(None),
        }
    }
}

/// The values of a list's items, lent.
fn values_of<S>(
    items: &Items<Spanning<InputValue<S>>>,
    alloc: Global,
) -> Result<Vec<&InputValue<S>>, AllocError>
    ensures { GivesBy (λ parts. map (λ part. part.now) parts.items) result
        (map (λ x. x.item) items.now) }
{
    let mut parts = Vec::new(alloc);
    for part in items.as_slice() {
        parts.push(&part.item)?;
    }
    Ok(parts)
}

/// The fields by their names, lent.
fn fields_of<S>(
    pairs: &Items<(Spanning<Text>, Spanning<InputValue<S>>)>,
    alloc: Global,
) -> Result<IndexMap<TextRef<'_>, &InputValue<S>>, AllocError>
    ensures { GivesBy (λ fields. map (λ field. (field.0, field.1.now)) fields.entries) result
        (by_name pairs.now) }
{
    let mut fields = IndexMap::new(alloc);
    for pair in pairs.as_slice() {
        fields.insert(TextRef::new(pair.0.item.as_str()), &pair.1.item)?;
    }
    Ok(fields)
}
