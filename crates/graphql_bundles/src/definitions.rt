//! The bundles of the sets of definitions: a fragment's only where no other one holds it.

ghost use Rattle.std.specs.Prelude.{◌≡◌, ◌<◌, ℕ, false, [], ◌∷◌, List, OnOk};
ghost use Rattle.graphql_tree.specs.declared.document.Fragment.{Fragment};
ghost use Rattle.graphql_merging.specs.Tables.{pieces_of};
ghost use Rattle.graphql_bundles.specs.Bundles.{IsGathered};
ghost use Rattle.graphql_bundles.specs.Going.{stage_of};
ghost use Rattle.graphql_bundles.specs.Held.{HoldsEach, HoldsMore};
ghost use Rattle.graphql_bundles.specs.Steps.{Goes, HoldsSets, OfDefinitions};

use crate::bundle::Progress;
use crate::closed::{add_numbers, is_without_fragments, with_fields, with_fragments};
use crate::parts::begin_sets;
use crate::stop::Stop;
use crate::visits::definition_numbers;
use graphql_merging::SetTable;
use indexmap::IndexSet;
use std::alloc::{AllocError, Global};

/// The fragments that are spread in the sets of definitions, and not below fields in them alone.
/// Which these are decides in which order bundles are begun, and nothing else. An error is want of
/// memory.
fn spread_in_definitions<S, C>(
    alloc: Global,
    table: &SetTable<'_, '_, S, C>,
    definitions: usize,
) -> Result<IndexSet<usize>, AllocError> {
    let mut spread = IndexSet::new(alloc);
    if definitions < 2 {
        return Ok(spread);
    }
    let mut sets = definition_numbers(alloc, definitions)?;
    for index in 0..usize::MAX {
        let Some(number) = sets.get_index(index).copied() else {
            return Ok(spread);
        };
        if let Some(set) = table.get(number) {
            add_numbers(&mut spread, set.inner.as_slice())?;
            add_numbers(&mut sets, set.inner.as_slice())?;
        }
    }
    Err(AllocError)
}

/// Begins the bundle of a definition's set, unless the bound is met, and adds it to `held`. An
/// error is want of memory.
fn begin_alone<S, C>(
    alloc: Global,
    table: &SetTable<'_, '_, S, C>,
    definition: usize,
    held: &mut IndexSet<usize>,
    progress: &mut Progress,
) -> Result<(), AllocError>
    ensures { OnOk result ((fragments : List (Fragment S)) →
        let t = pieces_of fragments table.now in
        Goes (λ e. ⊥) (HoldsSets t false (definition ∷ []))
        (HoldsMore t definition held.old.keys held.new.keys)
        (stage_of progress.old) (stage_of progress.new)) }
{
    add_numbers(held, &[definition])?;
    begin_sets(alloc, table, &[definition], false, progress)
}

/// The same, and the sets of the fragments that the bundle holds are added too.
fn begin_definition<S, C>(
    alloc: Global,
    table: &SetTable<'_, '_, S, C>,
    definition: usize,
    held: &mut IndexSet<usize>,
    progress: &mut Progress,
) -> Result<(), AllocError>
    ensures { OnOk result ((fragments : List (Fragment S)) →
        let t = pieces_of fragments table.now in
        Goes (λ e. ⊥) (HoldsSets t false (definition ∷ []))
        (HoldsMore t definition held.old.keys held.new.keys)
        (stage_of progress.old) (stage_of progress.new)) }
{
    if is_without_fragments(table, definition) {
        return begin_alone(alloc, table, definition, held, progress);
    }
    match with_fragments(alloc, table, &[definition], progress.left) {
        Ok(all) => {
            let closed = with_fields(alloc, table, all.as_slice())?;
            progress.spend(all.len());
            add_numbers(held, all.as_slice())?;
            progress.begin(closed, false)
        }
        Err(Stop::Bound) => {
            progress.is_within = false;
            Ok(())
        }
        Err(Stop::Memory) => Err(AllocError),
    }
}

/// Begins the bundles of those definitions' sets that are neither spread nor held by a bundle that
/// is begun. An error is want of memory.
fn begin_others<S, C>(
    alloc: Global,
    table: &SetTable<'_, '_, S, C>,
    definitions: usize,
    spread: &IndexSet<usize>,
    held: &mut IndexSet<usize>,
    progress: &mut Progress,
) -> Result<(), AllocError>
    ensures { OnOk result ((fragments : List (Fragment S)) →
        let t = pieces_of fragments table.now in
        Goes (λ e. ⊥) (OfDefinitions t definitions)
        (HoldsEach t definitions spread.now.keys held.old.keys held.new.keys)
        (stage_of progress.old) (stage_of progress.new)) }
{
    for definition in 0..definitions {
        if spread.contains(&definition) {
            continue;
        }
        if held.contains(&definition) {
            continue;
        }
        begin_definition(alloc, table, definition, held, progress)?;
    }
    Ok(())
}

/// Begins bundles that hold the sets of the definitions: those that are not spread in others first,
/// so that few others are left. An error is want of memory.
pub(crate) fn begin_definitions<S, C>(
    alloc: Global,
    table: &SetTable<'_, '_, S, C>,
    definitions: usize,
    progress: &mut Progress,
) -> Result<(), AllocError>
    ensures { OnOk result ((fragments : List (Fragment S)) →
        let t = pieces_of fragments table.now in
        Goes (λ e. ⊥) (OfDefinitions t definitions)
        (λ stage. (k : ℕ) → k < definitions → IsGathered t stage.bundles false (λ p. p ≡ k))
        (stage_of progress.old) (stage_of progress.new)) }
{
    let spread = spread_in_definitions(alloc, table, definitions)?;
    let mut held = IndexSet::new(alloc);
    begin_others(alloc, table, definitions, &spread, &mut held, progress)?;
    if spread.is_empty() {
        return Ok(());
    }
    let none = IndexSet::new(alloc);
    begin_others(alloc, table, definitions, &none, &mut held, progress)
}
