//! The parts of a group, and the bundles of their own sets.

ghost use Rattle.std.specs.Prelude.{◌≡◌, ℕ, ◌+◌, ◌-◌, ◌*◌, ◌≤◌, true, false, List, [], ◌∷◌, IfOk};
ghost use Rattle.std.specs.Prelude.{OnOk, length, map};
ghost use Rattle.std.specs.List.{Contains};
ghost use Rattle.std.specs.Option.{option_map};
ghost use Rattle.graphql_schema.specs.declared.meta.MetaType.{MetaType};
ghost use Rattle.graphql_tree.specs.declared.document.Fragment.{Fragment};
ghost use Rattle.graphql_merging.specs.Tables.{pieces_of, piece_field};
ghost use Rattle.graphql_bundles.specs.Bundles.{IsGathered, IsGroupPassed, OwnOf, GroupPart};
ghost use Rattle.graphql_bundles.specs.Bundles as bundles;
ghost use Rattle.graphql_bundles.specs.Going.{GroupLeadsTo, HoldsPart, stage_of};
ghost use Rattle.graphql_bundles.specs.Steps.{Goes, HoldsSets, IsFoundOf};
ghost use Rattle.graphql_bundles.specs.Groups.{group_of, names_in};

use crate::bundle::Progress;
use crate::closed::closed_sets;
use crate::heads::{compare_names, compare_shapes, fields_in_part, names_of};
use crate::stop::Stop;
use graphql_merging::{SetTable, WrittenField};
use graphql_schema::SchemaType;
use graphql_text::{Items, TextRef};
use std::alloc::{AllocError, Global};

/// Begins the bundle of these sets, unless the bound is met. An error is want of memory.
pub(crate) fn begin_sets<S, C>(
    alloc: Global,
    table: &SetTable<'_, '_, S, C>,
    sets: &[usize],
    around: bool,
    progress: &mut Progress,
) -> Result<(), AllocError>
    ensures { OnOk result ((fragments : List (Fragment S)) →
        let t = pieces_of fragments table.now in
        Goes (λ e. ⊥) (HoldsSets t around sets.now)
        (λ stage. IsGathered t stage.bundles around (Contains sets.now))
        (stage_of progress.old) (stage_of progress.new)) }
{
    match closed_sets(alloc, table, sets, progress.left) {
        Ok((closed, gone)) => {
            progress.spend(gone);
            progress.begin(closed, around)
        }
        Err(Stop::Bound) => {
            progress.is_within = false;
            Ok(())
        }
        Err(Stop::Memory) => Err(AllocError),
    }
}

/// The numbers of the own sets of fields. An error is want of memory.
pub(crate) fn own_numbers<S, C>(
    alloc: Global,
    fields: &[WrittenField<'_, '_, S, C>],
) -> Result<Items<usize>, AllocError>
    ensures { IfOk result (λ numbers. numbers ≡ map (λ f. f.own) fields.now) }
{
    let mut numbers = Items::new(alloc);
    for field in fields {
        numbers.push(field.own)?;
    }
    Ok(numbers)
}

/// Begins the bundle of the own sets of a part of a group. An error is want of memory.
fn begin_part<S, C>(
    alloc: Global,
    table: &SetTable<'_, '_, S, C>,
    group: &[WrittenField<'_, '_, S, C>],
    name: Option<&str>,
    around: bool,
    progress: &mut Progress,
) -> Result<(), AllocError>
    ensures { OnOk result ((fragments : List (Fragment S)) →
        let t = pieces_of fragments table.now in
        let part : GroupPart =
        record { of = option_map (λ n. n.now) name.entry; around = around } in
        Goes (λ e. ⊥) (HoldsPart t (group_of fragments group.now) part)
        (λ stage. IsGathered t stage.bundles around (OwnOf (group_of fragments group.now) part))
        (stage_of progress.old) (stage_of progress.new)) }
{
    let fields = fields_in_part(alloc, group, name)?;
    let numbers = own_numbers(alloc, fields.as_slice())?;
    begin_sets(alloc, table, numbers.as_slice(), around, progress)
}

/// Begins the bundles of the parts of a group that are of an object type. An error is want of
/// memory.
fn begin_each<S, C>(
    alloc: Global,
    table: &SetTable<'_, '_, S, C>,
    group: &[WrittenField<'_, '_, S, C>],
    names: &[TextRef<'_>],
    progress: &mut Progress,
) -> Result<(), AllocError>
    ensures { OnOk result ((fragments : List (Fragment S)) →
        let t = pieces_of fragments table.now in
        let group = group_of fragments group.now in
        Goes (λ e. ⊥)
        (λ c. (name : List ℕ) × Contains names.now name
        × HoldsPart t group (bundles.of_object name) c)
        (λ stage. (name : List ℕ) → Contains names.now name
        → IsGathered t stage.bundles false (OwnOf group (bundles.of_object name)))
        (stage_of progress.old) (stage_of progress.new)) }
{
    for name in names {
        begin_part(alloc, table, group, Some(name.as_str()), false, progress)?;
    }
    Ok(())
}

/// Begins the bundles of the parts of a group around which no fields are apart: of each object
/// type, and where there are two or more of them of all fields. An error is want of memory.
fn begin_parts<S, C>(
    alloc: Global,
    table: &SetTable<'_, '_, S, C>,
    group: &[WrittenField<'_, '_, S, C>],
    names: &[TextRef<'_>],
    progress: &mut Progress,
) -> Result<(), AllocError>
    requires { names.now ≡ names_in group.now }
    ensures { OnOk result ((fragments : List (Fragment S)) →
        let t = pieces_of fragments table.now in
        let group = group_of fragments group.now in
        Goes (λ e. ⊥) (GroupLeadsTo t false group)
        (λ stage. (part : GroupPart) → Contains (bundles.parts false group.names) part
        → IsGathered t stage.bundles part.around (OwnOf group part))
        (stage_of progress.old) (stage_of progress.new)) }
{
    if names.is_empty() {
        return begin_part(alloc, table, group, None, false, progress);
    }
    if names.len() < 2 {
        return begin_each(alloc, table, group, names, progress);
    }
    begin_part(alloc, table, group, None, true, progress)?;
    begin_each(alloc, table, group, names, progress)
}

/// Goes through a group of one field, which is alone in each of its parts: begins the bundle of its
/// own set. An error is want of memory.
fn pass_lone<S: Eq, C>(
    alloc: Global,
    table: &SetTable<'_, '_, S, C>,
    around: bool,
    field: &WrittenField<'_, '_, S, C>,
    progress: &mut Progress,
) -> Result<(), AllocError>
    ensures { OnOk result ((fragments : List (Fragment S)) (types : List (MetaType S C)) →
        let t = pieces_of fragments table.now in
        let group = group_of fragments (field.now ∷ []) in
        Goes (IsFoundOf S.eq types around group.fields) (GroupLeadsTo t around group)
        (λ stage. IsGroupPassed t S.eq types stage.bundles stage.told around group)
        (stage_of progress.old) (stage_of progress.new)) }
{
    begin_sets(alloc, table, &[field.own], around, progress)
}

/// The same of any group: compares its fields, and begins the bundles of its parts. An error of the
/// call is want of memory.
fn pass_many<S: Eq, C>(
    alloc: Global,
    schema: &SchemaType<S, C>,
    table: &SetTable<'_, '_, S, C>,
    around: bool,
    group: &[WrittenField<'_, '_, S, C>],
    progress: &mut Progress,
    comparisons: &mut u128,
) -> Result<(), AllocError>
    ensures counted { OnOk result (comparisons.new ≤ comparisons.old + 2 * (length group.now - 1)) }
    ensures passed { OnOk result ((fragments : List (Fragment S)) →
        let t = pieces_of fragments table.now in
        let types = schema.now.types in
        let group = group_of fragments group.now in
        Goes (IsFoundOf S.eq types around group.fields) (GroupLeadsTo t around group)
        (λ stage. IsGroupPassed t S.eq types stage.bundles stage.told around group)
        (stage_of progress.old) (stage_of progress.new)) }
{
    compare_shapes(
        alloc,
        schema,
        around,
        group,
        &mut progress.told,
        comparisons,
    )?;
    if around {
        return begin_part(alloc, table, group, None, true, progress);
    }
    let names = names_of(alloc, group)?;
    let objects = names.as_slice();
    compare_names(
        alloc,
        schema,
        group,
        objects,
        &mut progress.told,
        comparisons,
    )?;
    begin_parts(alloc, table, group, objects, progress)
}

/// Goes through a group: compares its fields, and begins the bundles of its parts. An error of the
/// call is want of memory.
pub(crate) fn pass_group<S: Eq, C>(
    alloc: Global,
    schema: &SchemaType<S, C>,
    table: &SetTable<'_, '_, S, C>,
    around: bool,
    group: &[WrittenField<'_, '_, S, C>],
    progress: &mut Progress,
    comparisons: &mut u128,
) -> Result<(), AllocError>
    ensures counted { OnOk result (comparisons.new ≤ comparisons.old + 2 * (length group.now - 1)) }
    ensures passed { OnOk result ((fragments : List (Fragment S)) →
        let t = pieces_of fragments table.now in
        let types = schema.now.types in
        let group = group_of fragments group.now in
        Goes (IsFoundOf S.eq types around group.fields) (GroupLeadsTo t around group)
        (λ stage. IsGroupPassed t S.eq types stage.bundles stage.told around group)
        (stage_of progress.old) (stage_of progress.new)) }
{
    match group {
        [field] => pass_lone(alloc, table, around, field, progress),
        _ => pass_many(alloc, schema, table, around, group, progress, comparisons),
    }
}
