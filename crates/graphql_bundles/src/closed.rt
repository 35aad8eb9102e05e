//! The sets in which the fields of some sets stand.

ghost use Rattle.std.specs.Prelude.{◌≡◌, ◌↔◌, [], ◌∷◌, List, IsTrue, IfOk, OnOk};
ghost use Rattle.graphql_tree.specs.declared.document.Fragment.{Fragment};
ghost use Rattle.graphql_merging.specs.Tables.{pieces_of};
ghost use Rattle.graphql_bundles.specs.Closed.{AddsNumbers, AreThose, IsClosure, IsOpened};

use crate::stop::Stop;
use graphql_merging::SetTable;
use indexmap::IndexSet;
use std::alloc::{AllocError, Global};

/// Adds numbers that are not there.
pub(crate) fn add_numbers(sets: &mut IndexSet<usize>, numbers: &[usize]) -> Result<(), AllocError>
    ensures { OnOk result (AddsNumbers sets.old.keys numbers.now sets.new.keys) }
{
    for number in numbers {
        sets.insert_full(*number)?;
    }
    Ok(())
}

/// These sets and those of the fragments in them, each once; none if there are more than `limit`.
pub(crate) fn with_fragments<S, C>(
    alloc: Global,
    table: &SetTable<'_, '_, S, C>,
    sets: &[usize],
    limit: usize,
) -> Result<IndexSet<usize>, Stop>
    ensures { IfOk result (λ all. (fragments : List (Fragment S)) →
        IsOpened (pieces_of fragments table.now) sets.now all.keys all.keys) }
{
    let mut all = IndexSet::new(alloc);
    add_numbers(&mut all, sets)?;
    for index in 0..limit {
        let Some(number) = all.get_index(index).copied() else {
            return Ok(all);
        };
        if let Some(set) = table.get(number) {
            add_numbers(&mut all, set.inner.as_slice())?;
        }
    }
    Err(Stop::Bound)
}

/// Whether fields stand directly in the set of this number.
fn has_fields<S, C>(table: &SetTable<'_, '_, S, C>, number: usize) -> bool
    ensures { (fragments : List (Fragment S)) →
        IsTrue result ↔ ((pieces_of fragments table.now).direct number ≡ [] → ⊥) }
{
    match table.get(number) {
        Some(set) => !set.fields.is_empty(),
        None => false,
    }
}

/// Those of the sets in which fields stand directly, in order.
pub(crate) fn with_fields<S, C>(
    alloc: Global,
    table: &SetTable<'_, '_, S, C>,
    sets: &[usize],
) -> Result<Vec<usize>, AllocError>
    ensures { IfOk result (λ some. (fragments : List (Fragment S)) →
        AreThose (λ number. (pieces_of fragments table.now).direct number ≡ [] → ⊥)
        sets.now some.items) }
{
    let mut some = Vec::new(alloc);
    for number in sets {
        if has_fields(table, *number) {
            some.push(*number)?;
        }
    }
    some.sort_unstable();
    Ok(some)
}

/// The sets in which what stands in some sets stands directly, in order, by going through the
/// fragments in them; and how many sets were gone through.
fn closed_many<S, C>(
    alloc: Global,
    table: &SetTable<'_, '_, S, C>,
    sets: &[usize],
    limit: usize,
) -> Result<(Vec<usize>, usize), Stop>
    ensures { IfOk result (λ closed. (fragments : List (Fragment S)) →
        IsClosure (pieces_of fragments table.now) sets.now closed.0.items) }
{
    let all = with_fragments(alloc, table, sets, limit)?;
    let closed = with_fields(alloc, table, all.as_slice())?;
    Ok((closed, all.len()))
}

/// Whether no fragment stands directly in the set of this number.
pub(crate) fn is_without_fragments<S, C>(table: &SetTable<'_, '_, S, C>, number: usize) -> bool
    ensures { IsTrue result → (fragments : List (Fragment S)) →
        (pieces_of fragments table.now).inner number ≡ [] }
{
    match table.get(number) {
        Some(set) => set.inner.is_empty(),
        None => true,
    }
}

/// The same of one set, which is all there is where no fragment stands in it.
fn closed_one<S, C>(
    alloc: Global,
    table: &SetTable<'_, '_, S, C>,
    number: usize,
    limit: usize,
) -> Result<(Vec<usize>, usize), Stop>
    ensures { IfOk result (λ closed. (fragments : List (Fragment S)) →
        IsClosure (pieces_of fragments table.now) (number ∷ []) closed.0.items) }
{
    if !is_without_fragments(table, number) {
        return closed_many(alloc, table, &[number], limit);
    }
    let closed = with_fields(alloc, table, &[number])?;
    Ok((closed, 1))
}

/// The sets in which what stands in some sets stands directly, in order; and how many sets were
/// gone through.
pub(crate) fn closed_sets<S, C>(
    alloc: Global,
    table: &SetTable<'_, '_, S, C>,
    sets: &[usize],
    limit: usize,
) -> Result<(Vec<usize>, usize), Stop>
    ensures { IfOk result (λ closed. (fragments : List (Fragment S)) →
        IsClosure (pieces_of fragments table.now) sets.now closed.0.items) }
{
    match sets {
        [number] => closed_one(alloc, table, *number, limit),
        _ => closed_many(alloc, table, sets, limit),
    }
}
