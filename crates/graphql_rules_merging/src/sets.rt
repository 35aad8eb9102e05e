//! Selection sets are compared, two by two.

ghost use Rattle.std.specs.Prelude.{◌≡◌, ◌+◌, ◌*◌, ◌≤◌, List, length, map, OnOk};
ghost use Rattle.graphql_tree.specs.declared.document.Fragment.{Fragment};
ghost use Rattle.graphql_merging.specs.Tables.{pieces_of, piece_field};
ghost use Rattle.graphql_merging.specs.Told.{AddsErrors, AgreeIfOneKey};
ghost use Rattle.graphql_rules_merging.specs.Agenda.{ListsPairs};
ghost use Rattle.graphql_rules_merging.specs.Classes.{AreNumbered, AreAllNumbered};
ghost use Rattle.graphql_rules_merging.specs.Counted.{twice_compared};
ghost use Rattle.graphql_rules_merging.specs.Comparing.{ComparesSets, DoAgree, OwnSets, later};
ghost use Rattle.graphql_rules_merging.specs.Comparing.{members_in, stage_of};

use crate::agenda::SetPair;
use crate::begin::{begin_own_sets, begin_with};
use crate::field_numbers::FieldNumbers;
use crate::fields::{compare_between, compare_within};
use crate::progress::Progress;
use graphql_merging::{SetTable, WrittenField};
use graphql_schema::SchemaType;
use std::alloc::{AllocError, Global};

/// Compares the fields of a set with one another, and begins the own set of each with itself. An
/// error of the call is want of memory.
fn compare_itself<S: Eq, C>(
    alloc: Global,
    schema: &SchemaType<S, C>,
    table: &SetTable<'_, '_, S, C>,
    numbers: &[FieldNumbers],
    around: bool,
    fields: &[WrittenField<'_, '_, S, C>],
    progress: &mut Progress,
) -> Result<(), AllocError>
    requires { AreNumbered S.eq schema.now.types numbers.now fields.now fields.now }
    ensures counted { let all = length fields.now in
        OnOk result (2 * progress.new.comparisons ≤ 2 * progress.old.comparisons + all * all) }
    ensures compared { OnOk result ((fragments : List (Fragment S))
        → AddsErrors (AgreeIfOneKey S.eq
        schema.now.types around) (map members_in (later (map (piece_field fragments) fields.now)))
        (stage_of progress.old).told (stage_of progress.new).told
        × ListsPairs
        (pieces_of fragments table.now) (OwnSets around (DoAgree S.eq schema.now.types around)
        (map (piece_field fragments) fields.now) (map (piece_field fragments) fields.now)) (OwnSets
        around (λ p. Unit {0}) (map (piece_field fragments) fields.now) (map (piece_field fragments)
        fields.now)) (stage_of progress.old).listed (stage_of progress.new).listed) }
{
    begin_own_sets(table, &mut progress.agenda, fields, around)?;
    compare_within(alloc, schema, table, numbers, around, fields, progress)
}

/// Compares two sets: tells the errors of their fields, and begins the pairs of sets to which they
/// lead. An error of the call is want of memory.
pub(crate) fn compare_sets<S: Eq, C>(
    alloc: Global,
    schema: &SchemaType<S, C>,
    table: &SetTable<'_, '_, S, C>,
    numbers: &[FieldNumbers],
    pair: SetPair,
    progress: &mut Progress,
) -> Result<(), AllocError>
    requires { AreAllNumbered S.eq schema.now.types table.now numbers.now }
    ensures counted { OnOk result (2 * progress.new.comparisons
        ≤ 2 * progress.old.comparisons + twice_compared table.now pair) }
    ensures compared { OnOk result
        ((fragments : List (Fragment S))
        → ComparesSets S.eq schema.now.types
        (pieces_of fragments table.now) pair (stage_of progress.old) (stage_of progress.new)) }
{
    let Some(one) = table.get(pair.left) else {
        return Ok(());
    };
    let Some(other) = table.get(pair.right) else {
        return Ok(());
    };
    let around = pair.around;
    begin_with(
        table,
        &mut progress.agenda,
        one.inner.as_slice(),
        pair.right,
        around,
    )?;
    begin_with(
        table,
        &mut progress.agenda,
        other.inner.as_slice(),
        pair.left,
        around,
    )?;
    let fields = one.fields.as_slice();
    if pair.left == pair.right {
        compare_itself(alloc, schema, table, numbers, around, fields, progress)
    } else {
        compare_between(
            alloc,
            schema,
            table,
            numbers,
            around,
            fields,
            other.fields.as_slice(),
            progress,
        )
    }
}
