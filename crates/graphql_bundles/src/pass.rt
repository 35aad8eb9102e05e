//! Bundles are gone through, from those of the definitions on.

ghost use Rattle.std.specs.Prelude.{◌≡◌, ◌↔◌, ℕ, ◌+◌, ◌-◌, ◌*◌, ◌<◌, ◌≤◌, max, false, [], List};
ghost use Rattle.std.specs.Prelude.{Some, IsTrue, OnOk, length, slice_get};
ghost use Rattle.std.specs.List.{Contains};
ghost use Rattle.graphql_text.specs.declared.position.SourcePosition.{SourcePosition};
ghost use Rattle.graphql_tree.specs.declared.document.Fragment.{Fragment};
ghost use Rattle.graphql_merging.specs.Tables.{pieces_of};
ghost use Rattle.graphql_bundles.specs.Bundles.{Bundle, IsFoundAmong, IsGathered, IsPassed};
ghost use Rattle.graphql_bundles.specs.Counted.{repeats_in_groups};
ghost use Rattle.graphql_bundles.specs.Going.{IsFoundIn, IsGoing, LeadsTo, stage_of};
ghost use Rattle.graphql_bundles.specs.Steps.{FoundInGroups, Goes, GroupsLeadTo, GroupsPassed};
ghost use Rattle.graphql_bundles.specs.Steps.{HoldsSets, KeepsTold, OfDefinitions};

use crate::bundle::Progress;
use crate::definitions::begin_definitions;
use crate::groups::{KeyGroup, fields_of_sets, grouped};
use crate::parts::pass_group;
use graphql_merging::SetTable;
use graphql_schema::SchemaType;
use std::alloc::{AllocError, Global};

/// Goes through the groups of a bundle. An error of the call is want of memory.
fn pass_groups<S: Eq, C>(
    alloc: Global,
    schema: &SchemaType<S, C>,
    table: &SetTable<'_, '_, S, C>,
    around: bool,
    groups: &[KeyGroup<'_, '_, S, C>],
    progress: &mut Progress,
    comparisons: &mut u128,
) -> Result<(), AllocError>
    ensures counted { OnOk result (comparisons.new
        ≤ comparisons.old + 2 * repeats_in_groups groups.now) }
    ensures passed { OnOk result ((fragments : List (Fragment S)) →
        let t = pieces_of fragments table.now in
        let types = schema.now.types in
        Goes (FoundInGroups S.eq types fragments around groups.now)
        (GroupsLeadTo t fragments around groups.now)
        (GroupsPassed t S.eq types fragments around groups.now)
        (stage_of progress.old) (stage_of progress.new)) }
{
    for group in groups {
        let fields = group.1.as_slice();
        pass_group(alloc, schema, table, around, fields, progress, comparisons)?;
    }
    Ok(())
}

/// Whether two comparisons of each field of these groups but the first of each are no more than
/// there may be.
fn has_room<S, C>(comparisons: u128, groups: &[KeyGroup<'_, '_, S, C>], most: u128) -> bool
    ensures { IsTrue result → 2 * repeats_in_groups groups.now ≤ most - comparisons }
{
    let mut room = most.saturating_sub(comparisons);
    for group in groups {
        let wanted = 2 * (group.1.len().saturating_sub(1) as u128);
        if wanted > room {
            return false;
        }
        room -= wanted;
    }
    true
}

/// Goes through a bundle, unless there could be more than `most` comparisons then. An error of the
/// call is want of memory.
fn pass_bundle<S: Eq, C>(
    alloc: Global,
    schema: &SchemaType<S, C>,
    table: &SetTable<'_, '_, S, C>,
    number: usize,
    most: u128,
    progress: &mut Progress,
    comparisons: &mut u128,
) -> Result<(), AllocError>
    ensures counted { OnOk result (comparisons.new ≤ max comparisons.old most) }
    ensures passed { OnOk result ((fragments : List (Fragment S)) (b : Bundle) →
        slice_get (stage_of progress.old).bundles number ≡ Some b →
        let t = pieces_of fragments table.now in
        let types = schema.now.types in
        Goes (IsFoundIn t S.eq types b) (LeadsTo t b)
        (λ stage. IsPassed t S.eq types stage.bundles stage.told b)
        (stage_of progress.old) (stage_of progress.new)) }
{
    let Some(bundle) = progress.bundles.get_index(number) else {
        return Ok(());
    };
    let around = bundle.around;
    let fields = fields_of_sets(alloc, table, bundle.sets.as_slice())?;
    let groups = grouped(alloc, fields.as_slice())?;
    if !has_room(*comparisons, groups.as_slice(), most) {
        progress.is_within = false;
        return Ok(());
    }
    progress.spend(fields.len());
    pass_groups(
        alloc,
        schema,
        table,
        around,
        groups.as_slice(),
        progress,
        comparisons,
    )
}

/// Goes through the bundles of the definitions, and those that are begun on the way, as long as the
/// bound is not met and there can't be more than `most` comparisons. An error of the call is want
/// of memory.
pub(crate) fn pass_all<S: Eq, C>(
    alloc: Global,
    schema: &SchemaType<S, C>,
    table: &SetTable<'_, '_, S, C>,
    definitions: usize,
    most: u128,
    progress: &mut Progress,
    comparisons: &mut u128,
) -> Result<(), AllocError>
    requires { (stage_of progress.old).bundles ≡ [] }
    ensures counted { OnOk result (comparisons.new ≤ max comparisons.old most) }
    ensures kept { OnOk result (KeepsTold (stage_of progress.old) (stage_of progress.new)) }
    ensures going { OnOk result ((fragments : List (Fragment S)) →
        let t = pieces_of fragments table.now in
        let types = schema.now.types in
        ((e : List SourcePosition) → Contains (stage_of progress.old).told e
        → IsFoundAmong t definitions S.eq types e) →
        IsGoing t S.eq types definitions (length (stage_of progress.new).bundles)
        (stage_of progress.new)) }
{
    let limit = progress.left;
    begin_definitions(alloc, table, definitions, progress)?;
    for number in 0..limit {
        if progress.bundles.len() <= number {
            return Ok(());
        }
        if !progress.is_within {
            return Ok(());
        }
        pass_bundle(alloc, schema, table, number, most, progress, comparisons)?;
    }
    if progress.bundles.len() <= limit {
        return Ok(());
    }
    progress.is_within = false;
    Ok(())
}
