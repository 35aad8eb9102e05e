//! All pairs of selection sets are compared.

ghost use Rattle.std.specs.Prelude.{◌≡◌, ℕ, ◌+◌, ◌*◌, ◌<◌, ◌≤◌, List, IfOk, OnOk, false};
ghost use Rattle.graphql_tree.specs.declared.document.Fragment.{Fragment};
ghost use Rattle.graphql_merging.specs.FieldNodes.{fields_written};
ghost use Rattle.graphql_merging.specs.Tables.{pieces_of};
ghost use Rattle.graphql_bundles.specs.Conflicts.{places};
ghost use Rattle.graphql_rules_merging.specs.Agenda.{listed_of, pair_of, ListsPairs};
ghost use Rattle.graphql_rules_merging.specs.Comparing.{Stage};
ghost use Rattle.graphql_rules_merging.specs.Finished.{IsFinished};

use crate::agenda::Agenda;
use crate::begin::begin_sets;
use crate::classes::numbers_of;
use crate::progress::Progress;
use crate::sets::compare_sets;
use graphql_bundles::Conflict;
use graphql_merging::SetTable;
use graphql_schema::SchemaType;
use graphql_text::Items;
use std::alloc::{AllocError, Global};

/// Begins the set of each definition with itself. An error is want of memory.
fn begin_definitions<S, C>(
    table: &SetTable<'_, '_, S, C>,
    agenda: &mut Agenda,
    definitions: usize,
) -> Result<(), AllocError>
    ensures { OnOk result
        ((fragments : List (Fragment S)) → ListsPairs (pieces_of fragments table.now)
        (λ pair. (k : ℕ) × (k < definitions) × (pair ≡ pair_of k k false))
        (λ pair. (k : ℕ) × (k < definitions) × (pair ≡ pair_of k k false))
        (listed_of agenda.old) (listed_of agenda.new)) }
{
    for definition in 0..definitions {
        begin_sets(table, agenda, definition, definition, false)?;
    }
    Ok(())
}

/// The conflicts of the fields that do not merge, in the order in which they are found. The sets
/// below `definitions` are those of the document's definitions. An error of the call is want of
/// memory.
pub(crate) fn merge_errors<S: Eq, C>(
    alloc: Global,
    schema: &SchemaType<S, C>,
    table: &SetTable<'_, '_, S, C>,
    definitions: usize,
    comparisons: &mut u128,
) -> Result<Items<Conflict>, AllocError>
    ensures counted { let all = fields_written table.now.sets in
        OnOk result (comparisons.new ≤ comparisons.old + all * all) }
    ensures finished { IfOk result (λ found. (fragments : List (Fragment S)) → (stage : Stage)
        × (stage.told ≡ places found)
        × IsFinished S.eq schema.now.types (pieces_of fragments table.now) definitions stage) }
{
    let mut progress = Progress {
        told: Items::new(alloc),
        agenda: Agenda::new(alloc),
        comparisons: *comparisons,
    };
    let numbers = numbers_of(alloc, schema, table)?;
    let numbers = numbers.as_slice();
    begin_definitions(table, &mut progress.agenda, definitions)?;
    'pairs: while let Some(pair) = progress.agenda.next()? {
        compare_sets(alloc, schema, table, numbers, pair, &mut progress)?;
    }
    *comparisons = progress.comparisons;
    Ok(progress.told)
}
