//! The sets of a document, each gone to once, and what is told of the fields that stand directly in
//! them.

ghost use Rattle.std.specs.Prelude.{◌↔◌, ◌+◌, ◌*◌, ◌<◌, ◌≤◌, ◌++◌, ℕ, List, length, IfOk, OnOk};
ghost use Rattle.std.specs.Prelude.{map};
ghost use Rattle.std.specs.List.{Contains};
ghost use Rattle.graphql_bundles.specs.Conflicts.{places};
ghost use Rattle.graphql_tree.specs.declared.document.Fragment.{Fragment};
ghost use Rattle.graphql_merging.specs.Tables.{pieces_of};
ghost use Rattle.graphql_bundles.specs.Closed.{AddsNumbers};
ghost use Rattle.graphql_bundles.specs.Counted.{fields_of_groups, fields_of_sets};
ghost use Rattle.graphql_bundles.specs.Direct.{IsWalked, TellsDirect, TellsDirects, all_seen};
ghost use Rattle.graphql_bundles.specs.Groups.{IsGrouped};

use crate::closed::add_numbers;
use crate::conflict::Conflict;
use crate::direct::direct_group;
use crate::groups::{KeyGroup, grouped};
use crate::parts::own_numbers;
use graphql_merging::{SetTable, WrittenField};
use graphql_schema::SchemaType;
use graphql_text::Items;
use indexmap::IndexSet;
use std::alloc::{AllocError, Global};

/// Adds the sets of the fragments in a set and the own sets of its fields. An error is want of
/// memory.
fn add_sets_of<S, C>(
    alloc: Global,
    table: &SetTable<'_, '_, S, C>,
    number: usize,
    sets: &mut IndexSet<usize>,
) -> Result<(), AllocError>
    ensures { OnOk result ((fragments : List (Fragment S)) →
        let t = pieces_of fragments table.now in
        AddsNumbers sets.old.keys (t.inner number ++ map (λ f. f.own) (t.direct number))
        sets.new.keys) }
{
    let Some(set) = table.get(number) else {
        return Ok(());
    };
    add_numbers(sets, set.inner.as_slice())?;
    let own = own_numbers(alloc, set.fields.as_slice())?;
    add_numbers(sets, own.as_slice())
}

/// The numbers of the sets of the definitions. An error is want of memory.
pub(crate) fn definition_numbers(
    alloc: Global,
    definitions: usize,
) -> Result<IndexSet<usize>, AllocError>
    ensures { IfOk result (λ sets. (k : ℕ) → Contains sets.keys k ↔ (k < definitions)) }
{
    let mut sets = IndexSet::new(alloc);
    for definition in 0..definitions {
        add_numbers(&mut sets, &[definition])?;
    }
    Ok(sets)
}

/// The numbers of the sets that are come to from those of the definitions, by the fragments in them
/// and by the own sets of their fields: each once. An error is want of memory.
pub(crate) fn visited_sets<S, C>(
    alloc: Global,
    table: &SetTable<'_, '_, S, C>,
    definitions: usize,
) -> Result<IndexSet<usize>, AllocError>
    ensures { IfOk result (λ sets. (fragments : List (Fragment S)) →
        IsWalked (pieces_of fragments table.now) definitions sets.keys sets.keys) }
{
    let mut sets = definition_numbers(alloc, definitions)?;
    for index in 0..usize::MAX {
        let Some(number) = sets.get_index(index).copied() else {
            return Ok(sets);
        };
        add_sets_of(alloc, table, number, &mut sets)?;
    }
    Err(AllocError)
}

/// Compares the fields of each response key. An error of the call is want of memory.
fn direct_groups<S: PartialEq, C>(
    alloc: Global,
    schema: &SchemaType<S, C>,
    fields: &[WrittenField<'_, '_, S, C>],
    groups: &[KeyGroup<'_, '_, S, C>],
    told: &mut Items<Conflict>,
    comparisons: &mut u128,
) -> Result<(), AllocError>
    requires { IsGrouped fields.now groups.now }
    ensures counted { let all = fields_of_groups groups.now in
        OnOk result (comparisons.new ≤ comparisons.old + all * all) }
    ensures told { OnOk result ((fragments : List (Fragment S)) →
        TellsDirect S.eq schema.now.types (all_seen fragments fields.now)
        (places told.old) (places told.new)) }
{
    for group in groups {
        direct_group(alloc, schema, group.1.as_slice(), told, comparisons)?;
    }
    Ok(())
}

/// Compares the fields that stand directly in one set. An error of the call is want of memory.
fn direct_set<S: PartialEq, C>(
    alloc: Global,
    schema: &SchemaType<S, C>,
    fields: &[WrittenField<'_, '_, S, C>],
    told: &mut Items<Conflict>,
    comparisons: &mut u128,
) -> Result<(), AllocError>
    ensures counted { let all = length fields.now in
        OnOk result (comparisons.new ≤ comparisons.old + all * all) }
    ensures told { OnOk result ((fragments : List (Fragment S)) →
        TellsDirect S.eq schema.now.types (all_seen fragments fields.now)
        (places told.old) (places told.new)) }
{
    let groups = grouped(alloc, fields)?;
    direct_groups(alloc, schema, fields, groups.as_slice(), told, comparisons)
}

/// Compares the fields that stand directly in each of these sets. An error of the call is want of
/// memory.
pub(crate) fn direct_sets<S: PartialEq, C>(
    alloc: Global,
    schema: &SchemaType<S, C>,
    table: &SetTable<'_, '_, S, C>,
    sets: &[usize],
    told: &mut Items<Conflict>,
    comparisons: &mut u128,
) -> Result<(), AllocError>
    ensures counted { let all = fields_of_sets table.now sets.now in
        OnOk result (comparisons.new ≤ comparisons.old + all * all) }
    ensures told { OnOk result ((fragments : List (Fragment S)) →
        TellsDirects S.eq schema.now.types (pieces_of fragments table.now) sets.now
        (places told.old) (places told.new)) }
{
    for number in sets {
        if let Some(set) = table.get(*number) {
            direct_set(alloc, schema, set.fields.as_slice(), told, comparisons)?;
        }
    }
    Ok(())
}
