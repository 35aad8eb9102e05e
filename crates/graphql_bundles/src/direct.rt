//! The fields that stand directly in one set are compared by classes.

ghost use Rattle.std.specs.Prelude.{◌≡◌, ◌+◌, ◌*◌, ◌≤◌, [], ◌∷◌, List, IfOk, OnOk, length};
ghost use Rattle.std.specs.Prelude.{reverse};
ghost use Rattle.graphql_bundles.specs.Conflicts.{places};
ghost use Rattle.graphql_tree.specs.declared.document.Fragment.{Fragment};
ghost use Rattle.graphql_bundles.specs.Direct.{ComparesBefore, DirectParts, SortsOut};

use crate::conflict::Conflict;
use crate::telling::{compare, count_comparison};
use graphql_merging::{WrittenField, first_difference};
use graphql_schema::{SchemaScalar, SchemaType};
use graphql_text::Items;
use std::alloc::{AllocError, Global};

/// Fields of one response key that agree with the first of them, and those that do not.
#[derive(Drop)]
pub(crate) struct Split<'d, 'a, S, C = <S as SchemaScalar>::Check> {
    /// Those that agree with it.
    pub alike: Items<WrittenField<'d, 'a, S, C>>,

    /// Those that do not.
    pub others: Items<WrittenField<'d, 'a, S, C>>,
}

/// Compares a field with some that were taken up before it, and so stand behind it. An error of the
/// call is want of memory.
fn compare_before<S: PartialEq, C>(
    alloc: Global,
    schema: &SchemaType<S, C>,
    earlier: &[WrittenField<'_, '_, S, C>],
    field: &WrittenField<'_, '_, S, C>,
    told: &mut Items<Conflict>,
    comparisons: &mut u128,
) -> Result<(), AllocError>
    ensures counted { OnOk result (comparisons.new ≤ comparisons.old + length earlier.now) }
    ensures told { OnOk result ((fragments : List (Fragment S)) →
        ComparesBefore S.eq schema.now.types fragments earlier.now field.now
        (places told.old) (places told.new)) }
{
    for other in earlier {
        compare(alloc, schema, false, false, field, other, told, comparisons)?;
    }
    Ok(())
}

/// Puts a field to those that agree with the first or to the others, and compares it with those of
/// the other kind. An error of the call is want of memory.
fn sort_out<'d, 'a, S: PartialEq, C>(
    alloc: Global,
    schema: &SchemaType<S, C>,
    head: &WrittenField<'d, 'a, S, C>,
    field: &WrittenField<'d, 'a, S, C>,
    split: &mut Split<'d, 'a, S, C>,
    told: &mut Items<Conflict>,
    comparisons: &mut u128,
) -> Result<(), AllocError>
    ensures counted { OnOk result
        (comparisons.new + length split.old.alike * length split.old.others
        ≤ comparisons.old + 1 + length split.new.alike * length split.new.others) }
    ensures one { OnOk result (length split.new.alike + length split.new.others
        ≡ length split.old.alike + length split.old.others + 1) }
    ensures sorted { OnOk result ((fragments : List (Fragment S)) →
        SortsOut S.eq schema.now.types fragments head.now field.now split.old split.new
        (places told.old) (places told.new)) }
{
    count_comparison(comparisons);
    let difference = first_difference(alloc, schema, false, &head.selected, &field.selected)?;
    match difference {
        None => {
            let others = split.others.as_slice();
            compare_before(alloc, schema, others, field, told, comparisons)?;
            split.alike.push(*field)?;
            Ok(())
        }
        Some(_) => {
            let alike = split.alike.as_slice();
            compare_before(alloc, schema, alike, field, told, comparisons)?;
            split.others.push(*field)?;
            Ok(())
        }
    }
}

/// Compares fields of one response key, as far as they do not differ from the first of them: gives
/// those that do. An error of the call is want of memory.
fn sort_all<'d, 'a, S: PartialEq, C>(
    alloc: Global,
    schema: &SchemaType<S, C>,
    head: &WrittenField<'d, 'a, S, C>,
    fields: &[WrittenField<'d, 'a, S, C>],
    told: &mut Items<Conflict>,
    comparisons: &mut u128,
) -> Result<Items<WrittenField<'d, 'a, S, C>>, AllocError>
    ensures counted { let all = 1 + length fields.now in
        IfOk result (λ rest. comparisons.new + length rest * length rest
        ≤ comparisons.old + all * all) }
    ensures parts { IfOk result (λ rest. (fragments : List (Fragment S)) →
        DirectParts S.eq schema.now.types fragments (head.now ∷ fields.now) rest
        (places told.old) (places told.new)) }
    ensures fewer { IfOk result (λ rest. length rest ≤ length fields.now) }
{
    let mut split = Split {
        alike: Items::new(alloc),
        others: Items::new(alloc),
    };
    split.alike.push(*head)?;
    for field in fields {
        sort_out(alloc, schema, head, field, &mut split, told, comparisons)?;
    }
    Ok(split.others)
}

/// Compares fields of one response key that stand in one set: each two that differ are told. Takes
/// time in proportion to the fields and to what is told. The last field is taken up first, so that
/// what is told of a class comes in falling order, of which a sort makes rising order in one pass.
/// An error of the call is want of memory.
pub(crate) fn direct_group<'d, 'a, S: PartialEq, C>(
    alloc: Global,
    schema: &SchemaType<S, C>,
    fields: &[WrittenField<'d, 'a, S, C>],
    told: &mut Items<Conflict>,
    comparisons: &mut u128,
) -> Result<(), AllocError>
    ensures counted { let all = length fields.now in
        OnOk result (comparisons.new ≤ comparisons.old + all * all) }
    ensures told { OnOk result ((fragments : List (Fragment S)) →
        DirectParts S.eq schema.now.types fragments (reverse fields.now) []
        (places told.old) (places told.new)) }
{
    let mut rest = Items::new(alloc);
    rest.extend_from_slice(fields)?;
    rest.as_mut_slice().reverse();
    'classes: while let Some(head) = rest.first().copied() {
        let behind = &rest.as_slice()[1..];
        let more = sort_all(alloc, schema, &head, behind, told, comparisons)?;
        rest = more;
    }
    Ok(())
}
