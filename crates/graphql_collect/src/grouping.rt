//! Fields by their response keys.

ghost use Rattle.std.specs.Prelude.{◌≡◌, map, IfOk, OnOk};
ghost use Rattle.std.specs.List.{IsDistinct, position_or_len};
ghost use Rattle.std.specs.Str.{bytes_eq};
ghost use Rattle.graphql_collect.specs.Grouped.{IsGrouped, begun, key_at, put};

use crate::few::Few;
use graphql_collected::CollectedField;
use graphql_names::same_name;
use graphql_text::{Items, TextRef};
use graphql_written_out::response_key;
use indexmap::IndexSet;
use std::alloc::{AllocError, Global};

/// A response key, and its fields, the first of them first.
pub type Group<'d, 'a, S> = (TextRef<'d>, Few<CollectedField<'d, 'a, S>>);

/// The response key of the field.
fn key_of<'d, S>(occurrence: &CollectedField<'d, '_, S>) -> TextRef<'d>
    ensures { result ≡ key_at occurrence.now }
{
    TextRef::new(response_key(&occurrence.field.item))
}

/// So many fields, at most, are grouped without a set of their keys.
const FEW: usize = 8;

/// The place of the group of this key, or that after the last if there is none. A scan.
fn place_of<S>(groups: &[Group<'_, '_, S>], key: &str) -> usize
    ensures { result ≡ position_or_len (bytes_eq key.now) (map (λ g. g.0) groups.now) }
{
    'groups: for (place, group) in groups.iter().enumerate() {
        if same_name(key, group.0.as_str()) {
            return place;
        }
    }
    groups.len()
}

/// Begins a group for the field's key, the last, if its place is after all groups. An error is want
/// of memory.
fn begin_at<'d, 'a, S>(
    occurrence: &CollectedField<'d, 'a, S>,
    place: usize,
    groups: &mut Items<Group<'d, 'a, S>>,
) -> Result<(), AllocError>
    requires { place
        ≡ position_or_len (bytes_eq (key_at occurrence.now)) (map (λ g. g.0) groups.old) }
    ensures { OnOk result (groups.new ≡ begun occurrence.now groups.old) }
{
    if place == groups.len() {
        groups.push((key_of(occurrence), Few::new()))?;
    }
    Ok(())
}

/// Puts the field to the group of its key, which stands at this place, or is a new one, and the
/// last, if the place is after all groups. An error is want of memory.
fn put_at<'d, 'a, S>(
    alloc: Global,
    occurrence: &CollectedField<'d, 'a, S>,
    place: usize,
    groups: &mut Items<Group<'d, 'a, S>>,
) -> Result<(), AllocError>
    requires distinct { IsDistinct bytes_eq (map (λ g. g.0) groups.old) }
    requires place { place
        ≡ position_or_len (bytes_eq (key_at occurrence.now)) (map (λ g. g.0) groups.old) }
    ensures put { OnOk result (groups.new ≡ put occurrence.now groups.old) }
    ensures distinct { OnOk result (IsDistinct bytes_eq (map (λ g. g.0) groups.new)) }
{
    begin_at(occurrence, place, groups)?;
    groups[place].1.push(alloc, *occurrence)?;
    Ok(())
}

/// Puts the field to the group of its key, which the set of the groups' keys finds. An error is
/// want of memory.
fn put<'d, 'a, S>(
    alloc: Global,
    occurrence: &CollectedField<'d, 'a, S>,
    keys: &mut IndexSet<TextRef<'d>>,
    groups: &mut Items<Group<'d, 'a, S>>,
) -> Result<(), AllocError>
    requires distinct { IsDistinct bytes_eq (map (λ g. g.0) groups.old) }
    requires keys { keys.old.keys ≡ map (λ g. g.0) groups.old }
    ensures put { OnOk result (groups.new ≡ put occurrence.now groups.old) }
    ensures distinct { OnOk result (IsDistinct bytes_eq (map (λ g. g.0) groups.new)) }
    ensures keys { OnOk result (keys.new.keys ≡ map (λ g. g.0) groups.new) }
{
    let (place, _) = keys.insert_full(key_of(occurrence))?;
    put_at(alloc, occurrence, place, groups)
}

/// The groups of few fields, where each key is looked for among the groups.
fn grouped_few<'d, 'a, S>(
    alloc: Global,
    found: &[CollectedField<'d, 'a, S>],
) -> Result<Items<Group<'d, 'a, S>>, AllocError>
    ensures { IfOk result (IsGrouped found.now) }
{
    let mut groups = Items::with_capacity(alloc, found.len())?;
    for occurrence in found {
        let place = place_of(groups.as_slice(), key_of(occurrence).as_str());
        put_at(alloc, occurrence, place, &mut groups)?;
    }
    Ok(groups)
}

/// The groups of any number of fields, where each key is looked for in a set.
fn grouped_many<'d, 'a, S>(
    alloc: Global,
    found: &[CollectedField<'d, 'a, S>],
) -> Result<Items<Group<'d, 'a, S>>, AllocError>
    ensures { IfOk result (IsGrouped found.now) }
{
    let mut keys: IndexSet<TextRef<'d>> = IndexSet::new(alloc);
    let mut groups = Items::with_capacity(alloc, found.len())?;
    for occurrence in found {
        put(alloc, occurrence, &mut keys, &mut groups)?;
    }
    Ok(groups)
}

/// The fields by their response keys, in order of first appearance (GraphQL October 2021, 6.3.2
/// Field Collection). Takes time and memory in proportion to the fields. An error is want of
/// memory.
pub fn grouped<'d, 'a, S>(
    alloc: Global,
    found: &[CollectedField<'d, 'a, S>],
) -> Result<Items<Group<'d, 'a, S>>, AllocError>
    ensures { IfOk result (IsGrouped found.now) }
{
    if found.len() <= FEW {
        return grouped_few(alloc, found);
    }
    grouped_many(alloc, found)
}
