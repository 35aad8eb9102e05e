//! Fields are compared, two by two.

ghost use Rattle.std.specs.Prelude.{◌≡◌, ◌+◌, ◌*◌, ◌<◌, ◌≤◌, [], ◌∷◌, List, map, length, drop};
ghost use Rattle.std.specs.Prelude.{OnOk};
ghost use Rattle.graphql_tree.specs.declared.document.Fragment.{Fragment};
ghost use Rattle.graphql_merging.specs.Tables.{pieces_of, piece_field};
ghost use Rattle.graphql_bundles.specs.Counted.{one_more};
ghost use Rattle.graphql_rules_merging.specs.Classes.{AreNumbered};
ghost use Rattle.graphql_rules_merging.specs.Comparing.{Compares, stage_of, with_each, between};
ghost use Rattle.graphql_rules_merging.specs.Comparing.{later};

use crate::begin::begin_sets;
use crate::field_numbers::{
    FieldNumbers, are_excused, are_of_one_class, have_other_keys, numbers_at,
};
use crate::progress::Progress;
use graphql_bundles::{count_comparison, tell};
use graphql_merging::{SetTable, WrittenField, first_difference};
use graphql_schema::SchemaType;
use std::alloc::{AllocError, Global};

/// Compares two fields: where they have one response key, an error is told of them, or their own
/// sets are begun. `around`: whether fields around them have parents that are different objects. An
/// error of the call is want of memory.
fn compare<S: Eq, C>(
    alloc: Global,
    schema: &SchemaType<S, C>,
    table: &SetTable<'_, '_, S, C>,
    numbers: &[FieldNumbers],
    around: bool,
    left: &WrittenField<'_, '_, S, C>,
    right: &WrittenField<'_, '_, S, C>,
    progress: &mut Progress,
) -> Result<(), AllocError>
    requires { AreNumbered S.eq schema.now.types numbers.now (left.now ∷ []) (right.now ∷ []) }
    ensures counted { progress.new.comparisons ≡ one_more progress.old.comparisons }
    ensures compared { OnOk result ((fragments : List (Fragment S))
        → Compares S.eq schema.now.types
        (pieces_of fragments table.now) around ((
          piece_field fragments left.now,
          piece_field
              fragments right.now,
        ) ∷ []) (stage_of progress.old) (stage_of progress.new)) }
{
    count_comparison(&mut progress.comparisons);
    let one = numbers_at(numbers, left.own);
    let other = numbers_at(numbers, right.own);
    if are_of_one_class(one, other) {
        let excused = are_excused(around, one, other, left, right);
        return begin_sets(table, &mut progress.agenda, left.own, right.own, excused);
    }
    if have_other_keys(one, other, left, right) {
        return Ok(());
    }
    let difference = first_difference(alloc, schema, around, &left.selected, &right.selected)?;
    match difference {
        Some(difference) => tell(
            alloc,
            difference,
            &left.selected,
            &right.selected,
            &mut progress.told,
        ),
        None => {
            let excused = are_excused(around, one, other, left, right);
            begin_sets(table, &mut progress.agenda, left.own, right.own, excused)
        }
    }
}

/// Compares a field with others, in order. An error of the call is want of memory.
fn compare_with<S: Eq, C>(
    alloc: Global,
    schema: &SchemaType<S, C>,
    table: &SetTable<'_, '_, S, C>,
    numbers: &[FieldNumbers],
    around: bool,
    left: &WrittenField<'_, '_, S, C>,
    others: &[WrittenField<'_, '_, S, C>],
    progress: &mut Progress,
) -> Result<(), AllocError>
    requires { AreNumbered S.eq schema.now.types numbers.now (left.now ∷ []) others.now }
    ensures counted { OnOk result (progress.new.comparisons
        ≤ progress.old.comparisons + length others.now) }
    ensures compared { OnOk result ((fragments : List (Fragment S))
        → Compares S.eq schema.now.types
        (pieces_of fragments table.now) around (with_each (piece_field fragments left.now)
        (map (piece_field fragments) others.now)) (stage_of progress.old) (stage_of progress.new)) }
{
    for right in others {
        compare(alloc, schema, table, numbers, around, left, right, progress)?;
    }
    Ok(())
}

/// The fields that follow one of them.
pub(crate) fn after<'n, 'd, 'a, S, C>(
    fields: &'n [WrittenField<'d, 'a, S, C>],
    index: usize,
) -> &'n [WrittenField<'d, 'a, S, C>]
    requires { index < length fields.now }
    ensures { result.now ≡ drop (index + 1) fields.now }
{
    &fields[index + 1..]
}

/// Compares each two fields of one set, each once and in order. An error of the call is want of
/// memory.
pub(crate) fn compare_within<S: Eq, C>(
    alloc: Global,
    schema: &SchemaType<S, C>,
    table: &SetTable<'_, '_, S, C>,
    numbers: &[FieldNumbers],
    around: bool,
    fields: &[WrittenField<'_, '_, S, C>],
    progress: &mut Progress,
) -> Result<(), AllocError>
    requires { AreNumbered S.eq schema.now.types numbers.now fields.now fields.now }
    ensures counted { let all = length fields.now in
        OnOk result (2 * progress.new.comparisons ≤ 2 * progress.old.comparisons + all * all) }
    ensures compared { OnOk result ((fragments : List (Fragment S))
        → Compares S.eq schema.now.types
        (pieces_of fragments table.now) around (later (map (piece_field fragments) fields.now))
        (stage_of progress.old) (stage_of progress.new)) }
{
    for (index, first) in fields.iter().enumerate() {
        compare_with(
            alloc,
            schema,
            table,
            numbers,
            around,
            first,
            after(fields, index),
            progress,
        )?;
    }
    Ok(())
}

/// Compares each field of one set with each of another, each once and in order. An error of the
/// call is want of memory.
pub(crate) fn compare_between<S: Eq, C>(
    alloc: Global,
    schema: &SchemaType<S, C>,
    table: &SetTable<'_, '_, S, C>,
    numbers: &[FieldNumbers],
    around: bool,
    lefts: &[WrittenField<'_, '_, S, C>],
    rights: &[WrittenField<'_, '_, S, C>],
    progress: &mut Progress,
) -> Result<(), AllocError>
    requires { AreNumbered S.eq schema.now.types numbers.now lefts.now rights.now }
    ensures counted { OnOk result (progress.new.comparisons
        ≤ progress.old.comparisons + length lefts.now * length rights.now) }
    ensures compared { OnOk result ((fragments : List (Fragment S))
        → Compares S.eq schema.now.types
        (pieces_of fragments table.now) around (between (map (piece_field fragments) lefts.now)
        (map (piece_field fragments) rights.now)) (stage_of progress.old) (stage_of progress.new)) }
{
    for left in lefts {
        compare_with(
            alloc, schema, table, numbers, around, left, rights, progress,
        )?;
    }
    Ok(())
}
