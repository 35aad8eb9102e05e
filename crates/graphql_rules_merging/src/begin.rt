//! Pairs of selection sets are begun.

ghost use Rattle.std.specs.Prelude.{◌≡◌, ◌↔◌, List, IsTrue, OnOk};
ghost use Rattle.graphql_tree.specs.declared.document.Fragment.{Fragment};
ghost use Rattle.graphql_merging.specs.Tables.{pieces_of, piece_field};
ghost use Rattle.graphql_rules_merging.specs.Agenda.{listed_of, pair_of, PairOf, IsEmptyPiece};
ghost use Rattle.graphql_rules_merging.specs.Agenda.{ListsPairs};

use crate::agenda::Agenda;
use graphql_merging::{SetTable, WrittenField};
use std::alloc::AllocError;

/// Whether nothing stands in the set of this number.
fn is_empty_set<S, C>(table: &SetTable<'_, '_, S, C>, number: usize) -> bool
    ensures { (fragments : List (Fragment S))
        → IsTrue result ↔ IsEmptyPiece (pieces_of fragments table.now) number }
{
    match table.get(number) {
        Some(set) => set.fields.is_empty() && set.inner.is_empty(),
        None => true,
    }
}

/// Begins the pair of two sets, unless one of them is empty. An error is want of memory.
pub(crate) fn begin_sets<S, C>(
    table: &SetTable<'_, '_, S, C>,
    agenda: &mut Agenda,
    left: usize,
    right: usize,
    around: bool,
) -> Result<(), AllocError>
    ensures { OnOk result ((fragments : List (Fragment S))
        → ListsPairs (pieces_of fragments table.now) (λ pair. pair ≡ pair_of left right around)
        (λ pair. pair ≡ pair_of left right around) (listed_of agenda.old) (listed_of agenda.new)) }
{
    if is_empty_set(table, left) {
        return Ok(());
    }
    if is_empty_set(table, right) {
        return Ok(());
    }
    agenda.begin(left, right, around)
}

/// Begins the pair of each of some sets with another. An error is want of memory.
pub(crate) fn begin_with<S, C>(
    table: &SetTable<'_, '_, S, C>,
    agenda: &mut Agenda,
    numbers: &[usize],
    other: usize,
    around: bool,
) -> Result<(), AllocError>
    ensures { OnOk result ((fragments : List (Fragment S))
        → ListsPairs (pieces_of fragments table.now)
        (PairOf (λ number. pair_of number other around) (λ number. Unit {0}) numbers.now)
        (PairOf (λ number. pair_of number other around) (λ number. Unit {0}) numbers.now)
        (listed_of agenda.old) (listed_of agenda.new)) }
{
    for number in numbers {
        begin_sets(table, agenda, *number, other, around)?;
    }
    Ok(())
}

/// Begins the own set of each field with itself. An error is want of memory.
pub(crate) fn begin_own_sets<S, C>(
    table: &SetTable<'_, '_, S, C>,
    agenda: &mut Agenda,
    fields: &[WrittenField<'_, '_, S, C>],
    around: bool,
) -> Result<(), AllocError>
    ensures { OnOk result ((fragments : List (Fragment S))
        → ListsPairs (pieces_of fragments table.now)
        (PairOf (λ field. pair_of field.own field.own around) (λ field. Unit {0}) fields.now)
        (PairOf (λ field. pair_of field.own field.own around) (λ field. Unit {0}) fields.now)
        (listed_of agenda.old) (listed_of agenda.new)) }
{
    for field in fields {
        begin_sets(table, agenda, field.own, field.own, around)?;
    }
    Ok(())
}
