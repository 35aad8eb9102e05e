//! How going through bundles ends.

ghost use Rattle.std.specs.Prelude.{List, ◌+◌, ◌*◌, ◌≤◌, max, IfOk, OnOk};
ghost use Rattle.graphql_bundles.specs.Conflicts.{places};
ghost use Rattle.graphql_tree.specs.declared.document.Fragment.{Fragment};
ghost use Rattle.graphql_merging.specs.FieldNodes.{fields_written};
ghost use Rattle.graphql_merging.specs.Tables.{pieces_of};
ghost use Rattle.graphql_bundles.specs.Counted.{direct_of};
ghost use Rattle.graphql_bundles.specs.Ends.{AllGoneThrough, TellsVisited};

use crate::bundle::Progress;
use crate::conflict::Conflict;
use crate::pass::pass_all;
use crate::visits::{direct_sets, visited_sets};
use graphql_merging::SetTable;
use graphql_schema::SchemaType;
use graphql_text::Items;
use indexmap::IndexSet;
use std::alloc::{AllocError, Global};

/// How going through bundles ends.
#[derive(Drop)]
pub enum Outcome {
    /// These are the conflicts, in the order in which they are found; none, where all bundles were
    /// gone through and nothing was told.
    Told(Items<Conflict>),

    /// There were more than the bound allows, and nothing was told until then.
    Undecided,
}

/// Tells, behind what is told, of the fields that stand directly in one set, each two that differ:
/// of the sets that are come to from those below `definitions`. An error of the call is want of
/// memory.
fn tell_direct<S: PartialEq, C>(
    alloc: Global,
    schema: &SchemaType<S, C>,
    table: &SetTable<'_, '_, S, C>,
    definitions: usize,
    told: &mut Items<Conflict>,
    comparisons: &mut u128,
) -> Result<(), AllocError>
    ensures counted { let all = fields_written table.now.sets in
        OnOk result (comparisons.new ≤ comparisons.old + all * all) }
    ensures told { OnOk result ((fragments : List (Fragment S)) →
        TellsVisited (pieces_of fragments table.now) S.eq schema.now.types definitions
        (places told.old) (places told.new)) }
{
    let sets = visited_sets(alloc, table, definitions)?;
    direct_sets(alloc, schema, table, sets.as_slice(), told, comparisons)
}

/// The errors of a document's fields that do not agree with one of their class, in the order in
/// which they are found: of fields that stand together in a bundle, each with the first of its
/// class; and where there is one, of fields that stand directly in one set, each two that differ.
/// The sets below `definitions` are those of the document's definitions. At most `limit` sets and
/// fields are taken up by bundles, and besides those of one bundle, and no bundle is gone through
/// where there could be more than `most` comparisons then. An error of the call is want of memory.
pub fn told_by_bundles<S: Eq, C>(
    alloc: Global,
    schema: &SchemaType<S, C>,
    table: &SetTable<'_, '_, S, C>,
    definitions: usize,
    limit: usize,
    most: u128,
    comparisons: &mut u128,
) -> Result<Outcome, AllocError>
    ensures counted { let all = fields_written table.now.sets in
        IfOk result (λ outcome. comparisons.new
        ≤ max comparisons.old most + direct_of outcome (all * all)) }
    ensures ends { IfOk result (λ outcome. (fragments : List (Fragment S)) →
        AllGoneThrough (pieces_of fragments table.now) S.eq schema.now.types definitions outcome) }
{
    let mut progress = Progress {
        told: Items::new(alloc),
        bundles: IndexSet::new(alloc),
        left: limit,
        is_within: true,
    };
    pass_all(
        alloc,
        schema,
        table,
        definitions,
        most,
        &mut progress,
        comparisons,
    )?;
    if progress.told.is_empty() {
        return match progress.is_within {
            true => Ok(Outcome::Told(progress.told)),
            false => Ok(Outcome::Undecided),
        };
    }
    let mut told = progress.told;
    tell_direct(alloc, schema, table, definitions, &mut told, comparisons)?;
    Ok(Outcome::Told(told))
}
