//! Two fields of one response key are compared.

ghost use Rattle.std.specs.Prelude.{◌≡◌, ◌+◌, ◌-◌, ◌<◌, ◌≤◌, [], ◌∷◌, List, Some, length, map};
ghost use Rattle.std.specs.Prelude.{slice_get, OnOk};
ghost use Rattle.graphql_bundles.specs.Conflicts.{AddsConflict, places};
ghost use Rattle.graphql_tree.specs.declared.document.Fragment.{Fragment};
ghost use Rattle.graphql_merging.specs.Merging.{Agree};
ghost use Rattle.graphql_merging.specs.Selected.{member_of};
ghost use Rattle.graphql_merging.specs.Told.{AddsErrors, in_order};
ghost use Rattle.graphql_merging.specs.declared.table.WrittenField.{WrittenField};
ghost use Rattle.graphql_bundles.specs.Counted.{one_more};

use crate::conflict::Conflict;
use crate::messages::message_of;
use graphql_merging::{Difference, SelectedField, WrittenField, first_difference};
use graphql_schema::SchemaType;
use graphql_text::Items;
use std::alloc::{AllocError, Global};

/// Tells that two fields of one response key, the first of them first in the text, do not agree. An
/// error of the call is want of memory.
fn tell_in_order<S, C>(
    alloc: Global,
    difference: Difference,
    first: &SelectedField<'_, '_, S, C>,
    second: &SelectedField<'_, '_, S, C>,
    told: &mut Items<Conflict>,
) -> Result<(), AllocError>
    ensures { let one = first.now.field.now.span.start in
        let other = second.now.field.now.span.start in
        OnOk result (AddsConflict (one ∷ other ∷ []) (λ reason. reason ≡ difference)
        told.old told.new) }
{
    let message = message_of(alloc, difference, first, second)?;
    let places = [first.field.span.start, second.field.span.start];
    let conflict = Conflict::at(alloc, difference, message, &places)?;
    told.push(conflict)?;
    Ok(())
}

/// Tells that two fields of one response key do not agree, for this reason: their places and what
/// the text says of them come in the order of the text. An error of the call is want of memory.
pub fn tell<S, C>(
    alloc: Global,
    difference: Difference,
    left: &SelectedField<'_, '_, S, C>,
    right: &SelectedField<'_, '_, S, C>,
    told: &mut Items<Conflict>,
) -> Result<(), AllocError>
    ensures { let one = left.now.field.now.span.start in
        let other = right.now.field.now.span.start in
        OnOk result (AddsConflict (in_order one other) (λ reason. reason ≡ difference)
        told.old told.new) }
{
    if right.field.span.start.index() < left.field.span.start.index() {
        return tell_in_order(alloc, difference, right, left, told);
    }
    tell_in_order(alloc, difference, left, right, told)
}

/// The same of two fields of which this is the first difference where `around` says whether fields
/// around them have parents that are different objects. Told is the first one where `said` says it,
/// if there is one. An error of the call is want of memory.
fn tell_as<S: PartialEq, C>(
    alloc: Global,
    schema: &SchemaType<S, C>,
    around: bool,
    said: bool,
    difference: Difference,
    left: &SelectedField<'_, '_, S, C>,
    right: &SelectedField<'_, '_, S, C>,
    told: &mut Items<Conflict>,
) -> Result<(), AllocError>
    ensures { let one = left.now.field.now.span.start in
        let other = right.now.field.now.span.start in
        OnOk result (AddsConflict (in_order one other) (λ reason. Unit {0}) told.old told.new) }
{
    if around == said {
        return tell(alloc, difference, left, right, told);
    }
    let first = first_difference(alloc, schema, said, left, right)?;
    tell(alloc, first.unwrap_or(difference), left, right, told)
}

/// Counts that a comparison of two fields begins. The count stays at the greatest number once it is
/// there.
pub fn count_comparison(comparisons: &mut u128)
    ensures { comparisons.new ≡ one_more comparisons.old }
{
    *comparisons = comparisons.saturating_add(1);
}

/// Compares two fields of one response key, and tells it where they do not agree. `around`: whether
/// it is done as if fields around them had parents that are different objects, `said`: whether they
/// do, by which it is told in what they differ first. An error of the call is want of memory.
pub(crate) fn compare<S: PartialEq, C>(
    alloc: Global,
    schema: &SchemaType<S, C>,
    around: bool,
    said: bool,
    left: &WrittenField<'_, '_, S, C>,
    right: &WrittenField<'_, '_, S, C>,
    told: &mut Items<Conflict>,
    comparisons: &mut u128,
) -> Result<(), AllocError>
    ensures counted { comparisons.new ≡ one_more comparisons.old }
    ensures told { OnOk result ((fragments : List (Fragment S))
        → AddsErrors (Agree S.eq schema.now.types around)
        ((member_of fragments left.now.selected, member_of fragments right.now.selected) ∷ [])
        (places told.old) (places told.new)) }
{
    count_comparison(comparisons);
    let one = &left.selected;
    let other = &right.selected;
    let difference = first_difference(alloc, schema, around, one, other)?;
    match difference {
        Some(difference) => tell_as(alloc, schema, around, said, difference, one, other, told),
        None => Ok(()),
    }
}

/// Compares a field of a group with another of them, by the same flags, and no field with itself.
/// An error of the call is want of memory.
fn compare_another<S: Eq, C>(
    alloc: Global,
    schema: &SchemaType<S, C>,
    around: bool,
    said: bool,
    group: &[WrittenField<'_, '_, S, C>],
    place: usize,
    other: usize,
    told: &mut Items<Conflict>,
    comparisons: &mut u128,
) -> Result<(), AllocError>
    requires place { place < length group.now }
    requires other { other < length group.now }
    ensures counted { comparisons.new ≤ comparisons.old + 1 }
    ensures itself { place ≡ other → comparisons.new ≡ comparisons.old }
    ensures told { OnOk result ((fragments : List (Fragment S)) (left right : WrittenField S C)
        → slice_get group.now place ≡ Some left → slice_get group.now other ≡ Some right
        → AddsErrors (Agree S.eq schema.now.types around)
        ((member_of fragments left.selected, member_of fragments right.selected) ∷ [])
        (places told.old) (places told.new)) }
{
    if place == other {
        return Ok(());
    }
    let left = &group[place];
    compare(
        alloc,
        schema,
        around,
        said,
        left,
        &group[other],
        told,
        comparisons,
    )
}

/// Compares the field at a place of a group with the others, in order, by the same flags. An error
/// of the call is want of memory.
pub(crate) fn compare_with<S: Eq, C>(
    alloc: Global,
    schema: &SchemaType<S, C>,
    around: bool,
    said: bool,
    group: &[WrittenField<'_, '_, S, C>],
    place: usize,
    told: &mut Items<Conflict>,
    comparisons: &mut u128,
) -> Result<(), AllocError>
    requires { place < length group.now }
    ensures counted { OnOk result (comparisons.new ≤ comparisons.old + (length group.now - 1)) }
    ensures told { OnOk result ((fragments : List (Fragment S)) (head : WrittenField S C)
        → slice_get group.now place ≡ Some head
        → AddsErrors (Agree S.eq schema.now.types around)
        (map (λ f. (member_of fragments head.selected, member_of fragments f.selected)) group.now)
        (places told.old) (places told.new)) }
{
    for other in 0..group.len() {
        compare_another(
            alloc,
            schema,
            around,
            said,
            group,
            place,
            other,
            told,
            comparisons,
        )?;
    }
    Ok(())
}
