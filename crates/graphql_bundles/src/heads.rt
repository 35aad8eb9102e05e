//! Each field of a group is compared with the first of its class.

ghost use Rattle.std.specs.Prelude.{◌≡◌, ℕ, ◌+◌, ◌-◌, ◌≤◌, false, true, List, Some, length, map};
ghost use Rattle.std.specs.Prelude.{filter, IfOk, OnOk, not};
ghost use Rattle.std.specs.List.{Contains};
ghost use Rattle.std.specs.Option.{option_map};
ghost use Rattle.graphql_schema.specs.Lookups.{is_object};
ghost use Rattle.graphql_bundles.specs.Conflicts.{places};
ghost use Rattle.graphql_tree.specs.declared.document.Fragment.{Fragment};
ghost use Rattle.graphql_merging.specs.Tables.{piece_field};
ghost use Rattle.graphql_bundles.specs.Bundles as bundles;
ghost use Rattle.graphql_bundles.specs.Counted.{repeats_in_parts};
ghost use Rattle.graphql_bundles.specs.Steps.{ArePartNamed, AreShaped, Compares, IsFoundOf};
ghost use Rattle.graphql_bundles.specs.Groups as groups;

use crate::conflict::Conflict;
use crate::telling::compare_with;
use graphql_merging::WrittenField;
use graphql_occurrences::field_of;
use graphql_schema::{MetaType, SchemaType};
use graphql_text::{Items, TextRef};
use indexmap::IndexSet;
use std::alloc::{AllocError, Global};

/// The name of the parent of a field, if that is an object type.
pub fn object_name<'d, S, C>(field: &WrittenField<'d, '_, S, C>) -> Option<TextRef<'d>>
    ensures { result ≡ groups.object_name field.now.selected.parent.now }
{
    match field.selected.parent {
        MetaType::Object(object) => Some(TextRef::new(object.name.as_str())),
        _ => None,
    }
}

/// Whether the parent of a field is an object type.
fn is_of_object<S, C>(field: &WrittenField<'_, '_, S, C>) -> bool
    ensures { result ≡ is_object field.now.selected.parent.now }
{
    match field.selected.parent {
        MetaType::Object(_) => true,
        _ => false,
    }
}

/// Whether a field is in the part of this object type: its parent is it, or no object type. Without
/// a name all are.
fn is_in_part<S, C>(field: &WrittenField<'_, '_, S, C>, name: Option<&str>) -> bool
    ensures { result ≡ groups.is_of (option_map (λ n. n.now) name.entry) field.now }
{
    let Some(name) = name else {
        return true;
    };
    match object_name(field) {
        Some(own) => own.as_str() == name,
        None => true,
    }
}

/// The fields of a part, in order. An error is want of memory.
pub(crate) fn fields_in_part<'d, 'a, S, C>(
    alloc: Global,
    group: &[WrittenField<'d, 'a, S, C>],
    name: Option<&str>,
) -> Result<Items<WrittenField<'d, 'a, S, C>>, AllocError>
    ensures { IfOk result (λ fields.
        fields ≡ filter (groups.is_of (option_map (λ n. n.now) name.entry)) group.now) }
{
    let mut fields = Items::new(alloc);
    for field in group {
        if is_in_part(field, name) {
            fields.push(*field)?;
        }
    }
    Ok(fields)
}

/// The names of the object types among the parents of a group, each once. An error is want of
/// memory.
pub(crate) fn names_of<'d, S, C>(
    alloc: Global,
    group: &[WrittenField<'d, '_, S, C>],
) -> Result<IndexSet<TextRef<'d>>, AllocError>
    ensures { IfOk result (λ names. names.keys ≡ groups.names_in group.now) }
{
    let mut names = IndexSet::new(alloc);
    for field in group {
        if let Some(name) = object_name(field) {
            names.insert_full(name)?;
        }
    }
    Ok(names)
}

/// Whether the schema has the field.
pub fn is_declared<S, C>(field: &WrittenField<'_, '_, S, C>) -> bool
    ensures { result ≡ groups.is_declared field.now }
{
    let name = field.selected.field.item.name.item.as_str();
    field_of(Some(field.selected.parent), name).is_some()
}

/// The place of the first field that the schema has.
fn first_declared<S, C>(group: &[WrittenField<'_, '_, S, C>]) -> Option<usize>
    ensures { groups.IsFoundAt groups.is_declared group.now result }
{
    for place in 0..group.len() {
        if is_declared(&group[place]) {
            return Some(place);
        }
    }
    None
}

/// The place of the first field whose parent is no object type.
fn first_abstract<S, C>(group: &[WrittenField<'_, '_, S, C>]) -> Option<usize>
    ensures { groups.IsFoundAt (λ f. not (is_object f.selected.parent.now)) group.now result }
{
    for place in 0..group.len() {
        let of_object = is_of_object(&group[place]);
        if !of_object {
            return Some(place);
        }
    }
    None
}

/// Compares the shapes of all with that of the first that is declared. `around`: whether fields
/// around them have parents that are different objects; where they do not, two fields that differ
/// in name or arguments too are told for that. An error of the call is want of memory.
pub(crate) fn compare_shapes<S: Eq, C>(
    alloc: Global,
    schema: &SchemaType<S, C>,
    around: bool,
    group: &[WrittenField<'_, '_, S, C>],
    told: &mut Items<Conflict>,
    comparisons: &mut u128,
) -> Result<(), AllocError>
    ensures counted { OnOk result (comparisons.new ≤ comparisons.old + (length group.now - 1)) }
    ensures told { OnOk result ((fragments : List (Fragment S)) →
        let fields = map (piece_field fragments) group.now in
        Compares (IsFoundOf S.eq schema.now.types true fields) (AreShaped schema.now.types fields)
        (places told.old) (places told.new)) }
{
    match first_declared(group) {
        Some(place) => {
            compare_with(alloc, schema, true, around, group, place, told, comparisons)
        }
        None => Ok(()),
    }
}

/// Compares the names and arguments of the fields of a part with those of its first. An error of
/// the call is want of memory.
fn compare_part<S: Eq, C>(
    alloc: Global,
    schema: &SchemaType<S, C>,
    group: &[WrittenField<'_, '_, S, C>],
    name: &str,
    told: &mut Items<Conflict>,
    comparisons: &mut u128,
) -> Result<(), AllocError>
    ensures counted { OnOk result (comparisons.new
        ≤ comparisons.old + (length (filter (groups.is_of (Some name.now)) group.now) - 1)) }
    ensures told { OnOk result ((fragments : List (Fragment S)) →
        let fields = map (piece_field fragments) group.now in
        Compares (IsFoundOf S.eq schema.now.types false fields)
        (ArePartNamed S.eq schema.now.types fields (bundles.of_object name.now))
        (places told.old) (places told.new)) }
{
    let fields = fields_in_part(alloc, group, Some(name))?;
    let part = fields.as_slice();
    if part.is_empty() {
        return Ok(());
    }
    compare_with(alloc, schema, false, false, part, 0, told, comparisons)
}

/// Compares the names and arguments of the fields of each part with those of its first. An error of
/// the call is want of memory.
fn compare_parts<S: Eq, C>(
    alloc: Global,
    schema: &SchemaType<S, C>,
    group: &[WrittenField<'_, '_, S, C>],
    names: &[TextRef<'_>],
    told: &mut Items<Conflict>,
    comparisons: &mut u128,
) -> Result<(), AllocError>
    ensures counted { OnOk result (comparisons.new
        ≤ comparisons.old + repeats_in_parts group.now names.now) }
    ensures told { OnOk result ((fragments : List (Fragment S)) →
        let fields = map (piece_field fragments) group.now in
        Compares (IsFoundOf S.eq schema.now.types false fields)
        ((name : List ℕ) → Contains names.now name
        → ArePartNamed S.eq schema.now.types fields (bundles.of_object name))
        (places told.old) (places told.new)) }
{
    for name in names {
        compare_part(alloc, schema, group, name.as_str(), told, comparisons)?;
    }
    Ok(())
}

/// Compares names and arguments: of all fields with one whose parent is no object type, where there
/// is one, or else of those of each object type with the first of them. An error of the call is
/// want of memory.
pub(crate) fn compare_names<S: Eq, C>(
    alloc: Global,
    schema: &SchemaType<S, C>,
    group: &[WrittenField<'_, '_, S, C>],
    names: &[TextRef<'_>],
    told: &mut Items<Conflict>,
    comparisons: &mut u128,
) -> Result<(), AllocError>
    requires { names.now ≡ groups.names_in group.now }
    ensures counted { OnOk result (comparisons.new ≤ comparisons.old + (length group.now - 1)) }
    ensures told { OnOk result ((fragments : List (Fragment S)) →
        let fields = map (piece_field fragments) group.now in
        Compares (IsFoundOf S.eq schema.now.types false fields)
        ((part : bundles.GroupPart) → Contains (bundles.parts false names.now) part
        → part.around ≡ false → ArePartNamed S.eq schema.now.types fields part)
        (places told.old) (places told.new)) }
{
    match first_abstract(group) {
        Some(place) => {
            compare_with(alloc, schema, false, false, group, place, told, comparisons)
        }
        None => compare_parts(alloc, schema, group, names, told, comparisons),
    }
}
