//! Fields by their response keys.

ghost use Rattle.std.specs.Prelude.{◌≡◌, ◌+◌, length, map, IfOk, OnOk};
ghost use Rattle.std.specs.List.{IsDistinct, flat_map, position_or_len};
ghost use Rattle.std.specs.Str.{bytes_eq};
ghost use Rattle.graphql_bundles.specs.Counted.{fields_of_groups};
ghost use Rattle.graphql_bundles.specs.Groups.{IsGrouped, begun, fields_in, key_at, put};

use graphql_merging::{SetTable, WrittenField};
use graphql_text::{Items, TextRef};
use graphql_written_out::response_key;
use indexmap::IndexSet;
use std::alloc::{AllocError, Global};

/// A response key, and its fields, the first of them first.
pub(crate) type KeyGroup<'d, 'a, S, C> = (TextRef<'d>, Items<WrittenField<'d, 'a, S, C>>);

/// The fields that stand directly in these sets, in order. An error is want of memory.
pub(crate) fn fields_of_sets<'d, 'a, S, C>(
    alloc: Global,
    table: &SetTable<'d, 'a, S, C>,
    sets: &[usize],
) -> Result<Items<WrittenField<'d, 'a, S, C>>, AllocError>
    ensures { IfOk result (λ fields. fields ≡ flat_map (fields_in table.now) sets.now) }
{
    let mut fields = Items::new(alloc);
    for number in sets {
        if let Some(set) = table.get(*number) {
            fields.extend_from_slice(set.fields.as_slice())?;
        }
    }
    Ok(fields)
}

/// The response key of the field.
fn key_of<'d, S, C>(field: &WrittenField<'d, '_, S, C>) -> TextRef<'d>
    ensures { result ≡ key_at field.now }
{
    TextRef::new(response_key(&field.selected.field.item))
}

/// So many fields, at most, are grouped without a set of their keys.
const FEW: usize = 8;

/// The place of the group of this key, or that after the last if there is none. A scan.
fn place_of<S, C>(groups: &[KeyGroup<'_, '_, S, C>], key: &str) -> usize
    ensures { result ≡ position_or_len (bytes_eq key.now) (map (λ g. g.0) groups.now) }
{
    groups
        .iter()
        .position(|group| key == group.0.as_str())
        .unwrap_or(groups.len())
}

/// Begins a group for the field's key, the last, if its place is after all groups. An error is want
/// of memory.
fn begin_at<'d, 'a, S, C>(
    alloc: Global,
    field: &WrittenField<'d, 'a, S, C>,
    place: usize,
    groups: &mut Items<KeyGroup<'d, 'a, S, C>>,
) -> Result<(), AllocError>
    requires { place ≡ position_or_len (bytes_eq (key_at field.now)) (map (λ g. g.0) groups.old) }
    ensures { OnOk result (groups.new ≡ begun field.now groups.old) }
{
    if place == groups.len() {
        groups.push((key_of(field), Items::new(alloc)))?;
    }
    Ok(())
}

/// Puts the field to the group of its key, which stands at this place, or is a new one, and the
/// last, if the place is after all groups. An error is want of memory.
fn put_at<'d, 'a, S, C>(
    alloc: Global,
    field: &WrittenField<'d, 'a, S, C>,
    place: usize,
    groups: &mut Items<KeyGroup<'d, 'a, S, C>>,
) -> Result<(), AllocError>
    requires distinct { IsDistinct bytes_eq (map (λ g. g.0) groups.old) }
    requires place { place
        ≡ position_or_len (bytes_eq (key_at field.now)) (map (λ g. g.0) groups.old) }
    ensures put { OnOk result (groups.new ≡ put field.now groups.old) }
    ensures distinct { OnOk result (IsDistinct bytes_eq (map (λ g. g.0) groups.new)) }
    ensures one { OnOk result (fields_of_groups groups.new ≡ fields_of_groups groups.old + 1) }
{
    begin_at(alloc, field, place, groups)?;
    groups[place].1.push(*field)?;
    Ok(())
}

/// Puts the field to the group of its key, which the set of the groups' keys finds. An error is
/// want of memory.
fn put<'d, 'a, S, C>(
    alloc: Global,
    field: &WrittenField<'d, 'a, S, C>,
    keys: &mut IndexSet<TextRef<'d>>,
    groups: &mut Items<KeyGroup<'d, 'a, S, C>>,
) -> Result<(), AllocError>
    requires distinct { IsDistinct bytes_eq (map (λ g. g.0) groups.old) }
    requires keys { keys.old.keys ≡ map (λ g. g.0) groups.old }
    ensures put { OnOk result (groups.new ≡ put field.now groups.old) }
    ensures distinct { OnOk result (IsDistinct bytes_eq (map (λ g. g.0) groups.new)) }
    ensures keys { OnOk result (keys.new.keys ≡ map (λ g. g.0) groups.new) }
    ensures one { OnOk result (fields_of_groups groups.new ≡ fields_of_groups groups.old + 1) }
{
    let (place, _) = keys.insert_full(key_of(field))?;
    put_at(alloc, field, place, groups)
}

/// The groups of few fields, where each key is looked for among the groups.
fn grouped_few<'d, 'a, S, C>(
    alloc: Global,
    fields: &[WrittenField<'d, 'a, S, C>],
) -> Result<Items<KeyGroup<'d, 'a, S, C>>, AllocError>
    ensures grouped { IfOk result (IsGrouped fields.now) }
    ensures whole { IfOk result (λ groups. fields_of_groups groups ≡ length fields.now) }
{
    let mut groups = Items::with_capacity(alloc, fields.len())?;
    for field in fields {
        let place = place_of(groups.as_slice(), key_of(field).as_str());
        put_at(alloc, field, place, &mut groups)?;
    }
    Ok(groups)
}

/// The groups of any number of fields, where each key is looked for in a set.
fn grouped_many<'d, 'a, S, C>(
    alloc: Global,
    fields: &[WrittenField<'d, 'a, S, C>],
) -> Result<Items<KeyGroup<'d, 'a, S, C>>, AllocError>
    ensures grouped { IfOk result (IsGrouped fields.now) }
    ensures whole { IfOk result (λ groups. fields_of_groups groups ≡ length fields.now) }
{
    let mut keys: IndexSet<TextRef<'d>> = IndexSet::new(alloc);
    let mut groups = Items::with_capacity(alloc, fields.len())?;
    for field in fields {
        put(alloc, field, &mut keys, &mut groups)?;
    }
    Ok(groups)
}

/// The fields in groups, one for each response key. Takes time and memory in proportion to the
/// fields. An error is want of memory.
pub(crate) fn grouped<'d, 'a, S, C>(
    alloc: Global,
    fields: &[WrittenField<'d, 'a, S, C>],
) -> Result<Items<KeyGroup<'d, 'a, S, C>>, AllocError>
    ensures grouped { IfOk result (IsGrouped fields.now) }
    ensures whole { IfOk result (λ groups. fields_of_groups groups ≡ length fields.now) }
{
    if fields.len() <= FEW {
        return grouped_few(alloc, fields);
    }
    grouped_many(alloc, fields)
}
