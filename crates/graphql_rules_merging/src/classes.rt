//! Fields that have one response key, one name with arguments and one shape, by numbers, and their
//! parents, so that two of them need not be compared part by part.

ghost use Rattle.std.specs.Prelude.{◌≡◌, ℕ, true, IfOk, IsTrue};
ghost use Rattle.std.specs.List.{Contains};
ghost use Rattle.graphql_merging.specs.declared.table.WrittenField.{WrittenField};
ghost use Rattle.graphql_bundles.specs.Groups as groups;
ghost use Rattle.graphql_rules_merging.specs.Classes.{AgreeAnywhere, AreAllNumbered, HasClass};
ghost use Rattle.graphql_rules_merging.specs.Classes.{HasPlace};
ghost use Rattle.graphql_rules_merging.specs.Classes.{IsNumbered};

use crate::field_numbers::{FieldNumbers, numbers_at};
use graphql_bundles::{is_declared, object_name};
use graphql_merging::{SelectedField, SetTable, WrittenField, first_difference};
use graphql_schema::{SchemaScalar, SchemaType};
use graphql_text::{Items, TextRef};
use graphql_written_out::response_key;
use indexmap::IndexSet;
use std::alloc::{AllocError, Global};

/// How many classes there are of one response key at most; further fields have none.
const CLASSES: usize = 64;

/// Numbers as they are tried.
#[derive(Drop)]
pub(crate) struct Draft<'d, 'a, S, C = <S as SchemaScalar>::Check> {
    /// Those of the fields, by the numbers of their own sets.
    pub(crate) numbers: Vec<FieldNumbers>,

    /// The first field of each class.
    pub(crate) heads: Items<WrittenField<'d, 'a, S, C>>,

    /// The response keys.
    pub(crate) keys: IndexSet<TextRef<'d>>,

    /// The names of the object types among the parents.
    pub(crate) parents: IndexSet<TextRef<'d>>,
}

/// Whether a field agrees with one that the schema has, whatever stands around them: names and
/// arguments are compared as if both had one parent. An error is want of memory.
fn is_like<'d, 'a, S: PartialEq, C>(
    alloc: Global,
    schema: &SchemaType<S, C>,
    head: &WrittenField<'d, 'a, S, C>,
    field: &WrittenField<'d, 'a, S, C>,
) -> Result<bool, AllocError>
    ensures { IfOk result
        (λ alike. IsTrue alike → AgreeAnywhere S.eq schema.now.types head.now field.now
        × (groups.is_declared head.now ≡ true)) }
{
    let declared = is_declared(head);
    if !declared {
        return Ok(false);
    }
    if response_key(&head.selected.field.item) != response_key(&field.selected.field.item) {
        return Ok(false);
    }
    let written = SelectedField {
        parent: field.selected.parent,
        field: head.selected.field,
    };
    let written = first_difference(alloc, schema, false, &written, &field.selected)?;
    if written.is_some() {
        return Ok(false);
    }
    let shapes = first_difference(alloc, schema, true, &head.selected, &field.selected)?;
    if shapes.is_some() {
        return Ok(false);
    }
    Ok(true)
}

/// The place of the head that a field is like, among some. An error is want of memory.
fn head_among<'d, 'a, S: PartialEq, C>(
    alloc: Global,
    schema: &SchemaType<S, C>,
    heads: &[WrittenField<'d, 'a, S, C>],
    places: &[usize],
    field: &WrittenField<'d, 'a, S, C>,
) -> Result<Option<usize>, AllocError> {
    for place in places {
        if let Some(head) = heads.get(*place) {
            if is_like(alloc, schema, head, field)? {
                return Ok(Some(*place));
            }
        }
    }
    Ok(None)
}

/// The class of a field, of which that key has the heads at some places: a new one where it is like
/// none of them and there are not too many. An error is want of memory.
fn class_among<'d, 'a, S: PartialEq, C>(
    alloc: Global,
    schema: &SchemaType<S, C>,
    heads: &mut Items<WrittenField<'d, 'a, S, C>>,
    places: &mut Items<usize>,
    field: &WrittenField<'d, 'a, S, C>,
) -> Result<usize, AllocError> {
    let found = head_among(alloc, schema, heads.as_slice(), places.as_slice(), field)?;
    if let Some(place) = found {
        return Ok(place.saturating_add(1));
    }
    if places.len() >= CLASSES {
        return Ok(0);
    }
    places.push(heads.len())?;
    heads.push(*field)?;
    Ok(heads.len())
}

/// The number of a field's parent, whose name is put among those of object types. An error is want
/// of memory.
fn number_parent<'d, S, C>(
    parents: &mut IndexSet<TextRef<'d>>,
    field: &WrittenField<'d, '_, S, C>,
) -> Result<usize, AllocError> {
    let Some(name) = object_name(field) else {
        return Ok(0);
    };
    let (place, _) = parents.insert_full(name)?;
    Ok(place.saturating_add(1))
}

/// Finds the numbers of each field of a set. `places` holds for each response key where the heads
/// of its classes are. An error is want of memory.
fn number_fields<'d, 'a, S: PartialEq, C>(
    alloc: Global,
    schema: &SchemaType<S, C>,
    fields: &[WrittenField<'d, 'a, S, C>],
    places: &mut Items<Items<usize>>,
    draft: &mut Draft<'d, 'a, S, C>,
) -> Result<(), AllocError> {
    for field in fields {
        let key = TextRef::new(response_key(&field.selected.field.item));
        let (place, added) = draft.keys.insert_full(key)?;
        if added {
            places.push(Items::new(alloc))?;
        }
        let parent = number_parent(&mut draft.parents, field)?;
        if let Some(of_key) = places.get_mut(place) {
            let class = class_among(alloc, schema, &mut draft.heads, of_key, field)?;
            if let Some(numbers) = draft.numbers.get_mut(field.own) {
                *numbers = FieldNumbers {
                    key: place.saturating_add(1),
                    class,
                    parent,
                };
            }
        }
    }
    Ok(())
}

/// The numbers of the fields of a table, as far as they are found: what holds of them is seen when
/// they are gone through once more ([`are_right`]). An error is want of memory.
fn draft_of<'d, 'a, S: PartialEq, C>(
    alloc: Global,
    schema: &SchemaType<S, C>,
    table: &SetTable<'d, 'a, S, C>,
) -> Result<Draft<'d, 'a, S, C>, AllocError> {
    let unnumbered = FieldNumbers {
        key: 0,
        class: 0,
        parent: 0,
    };
    let mut places = Items::new(alloc);
    let mut draft = Draft {
        numbers: Vec::from_elem(alloc, unnumbered, table.sets.len())?,
        heads: Items::new(alloc),
        keys: IndexSet::new(alloc),
        parents: IndexSet::new(alloc),
    };
    for set in table.sets.as_slice() {
        let fields = set.fields.as_slice();
        number_fields(alloc, schema, fields, &mut places, &mut draft)?;
    }
    Ok(draft)
}

/// Whether a number is none, or one more than the place of a text among some.
fn has_place<'d>(texts: &IndexSet<TextRef<'d>>, number: usize, text: Option<TextRef<'d>>) -> bool
    ensures { IsTrue result → HasPlace texts.now.keys number text.entry }
{
    if number == 0 {
        return true;
    }
    let Some(text) = text else {
        return false;
    };
    match texts.get_index_of(&text) {
        Some(place) => place == number - 1,
        None => false,
    }
}

/// Whether a field has no class, or is like the head of its class. An error is want of memory.
fn has_class<'d, 'a, S: PartialEq, C>(
    alloc: Global,
    schema: &SchemaType<S, C>,
    heads: &[WrittenField<'d, 'a, S, C>],
    class: usize,
    field: &WrittenField<'d, 'a, S, C>,
) -> Result<bool, AllocError>
    ensures { IfOk result (λ right. IsTrue right →
        HasClass S.eq schema.now.types class heads.now field.now) }
{
    if class == 0 {
        return Ok(true);
    }
    match heads.get(class - 1) {
        Some(head) => is_like(alloc, schema, head, field),
        None => Ok(false),
    }
}

/// Whether the numbers of a field tell what is so. An error is want of memory.
fn is_right<'d, 'a, S: PartialEq, C>(
    alloc: Global,
    schema: &SchemaType<S, C>,
    draft: &Draft<'d, 'a, S, C>,
    field: &WrittenField<'d, 'a, S, C>,
) -> Result<bool, AllocError>
    ensures { IfOk result (λ right. IsTrue right →
        IsNumbered S.eq schema.now.types draft.now field.now) }
{
    let numbers = numbers_at(draft.numbers.as_slice(), field.own);
    let key = TextRef::new(response_key(&field.selected.field.item));
    if !has_place(&draft.keys, numbers.key, Some(key)) {
        return Ok(false);
    }
    if !has_place(&draft.parents, numbers.parent, object_name(field)) {
        return Ok(false);
    }
    has_class(alloc, schema, draft.heads.as_slice(), numbers.class, field)
}

/// Whether this holds of each field of a set. An error is want of memory.
fn are_fields_right<'d, 'a, S: PartialEq, C>(
    alloc: Global,
    schema: &SchemaType<S, C>,
    draft: &Draft<'d, 'a, S, C>,
    fields: &[WrittenField<'d, 'a, S, C>],
) -> Result<bool, AllocError>
    ensures { IfOk result (λ right. IsTrue right → (f : WrittenField S C) → Contains fields.now f
        → IsNumbered S.eq schema.now.types draft.now f) }
{
    for field in fields {
        let right = is_right(alloc, schema, draft, field)?;
        if !right {
            return Ok(false);
        }
    }
    Ok(true)
}

/// Whether it holds of each field of a table. An error is want of memory.
fn are_right<'d, 'a, S: PartialEq, C>(
    alloc: Global,
    schema: &SchemaType<S, C>,
    table: &SetTable<'d, 'a, S, C>,
    draft: &Draft<'d, 'a, S, C>,
) -> Result<bool, AllocError>
    ensures { IfOk result (λ right. IsTrue right → (p : ℕ) (f : WrittenField S C)
        → Contains (groups.fields_in table.now p) f
        → IsNumbered S.eq schema.now.types draft.now f) }
{
    for set in table.sets.as_slice() {
        let right = are_fields_right(alloc, schema, draft, set.fields.as_slice())?;
        if !right {
            return Ok(false);
        }
    }
    Ok(true)
}

/// The numbers of a table's fields, by those of their own sets. An error is want of memory.
pub(crate) fn numbers_of<S: Eq, C>(
    alloc: Global,
    schema: &SchemaType<S, C>,
    table: &SetTable<'_, '_, S, C>,
) -> Result<Vec<FieldNumbers>, AllocError>
    ensures { IfOk result (λ numbers.
        AreAllNumbered S.eq schema.now.types table.now numbers.items) }
{
    let draft = draft_of(alloc, schema, table)?;
    let right = are_right(alloc, schema, table, &draft)?;
    if !right {
        return Ok(Vec::new(alloc));
    }
    Ok(draft.numbers)
}
