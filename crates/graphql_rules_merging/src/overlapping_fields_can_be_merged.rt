//! The rule OverlappingFieldsCanBeMerged (GraphQL October 2021, 5.3.2 Field Selection Merging).

ghost use Rattle.std.specs.Prelude.{List, ◌+◌, ◌*◌, ◌≤◌, IfOk, OnOk, IsSorted, ◌≡◌, false};
ghost use Rattle.std.specs.List.Sorted.{IsStrictlySortedBy};
ghost use Rattle.graphql_merging.specs.Contract.{IsSound, IsDirect, IsComplete};
ghost use Rattle.graphql_merging.specs.Sets.{document_sets};
ghost use Rattle.graphql_tree.specs.Definitions.{fragments_listed};
ghost use Rattle.graphql_written_out.specs.Written.{Settled};
ghost use Rattle.graphql_rule_errors.specs.Places.{places};
ghost use Rattle.graphql_schema.specs.Declarations.{declarations_of};
ghost use Rattle.graphql_tree.specs.declared.document.Fragment.{Fragment};
ghost use Rattle.graphql_merging.specs.FieldNodes.{document_nodes, fields_written};
ghost use Rattle.graphql_merging.specs.Tables.{pieces_of};
ghost use Rattle.graphql_bundles.specs.Conflicts as conflicts;
ghost use Rattle.graphql_rules_merging.specs.Finished.{AreFound, AreOfPairs};
ghost use Rattle.graphql_rules_merging.specs.OverlappingFieldsCanBeMerged.{IsCounted, RuleTold};
ghost use Rattle.graphql_visitors.specs.Reports.{ReportsBy};
ghost use Rattle.graphql_visitors.specs.Subjects.{subject_of};

use crate::alone::all_stand_alone;
use crate::finish::merge_errors;
use crate::order::put_in_order;
use graphql_bundles::{Conflict, Outcome, told_by_bundles};
use graphql_merging::SetTable;
use graphql_occurrences::Event;
use graphql_rule_errors::RuleError;
use graphql_schema::{SchemaScalar, SchemaType};
use graphql_set_table::{let_go, numbered_sets};
use graphql_text::{Items, SourcePosition};
use graphql_tree::Definition;
use graphql_visitors::{ValidatorContext, Visitor};
use std::alloc::{AllocError, Global};

/// Each two fields of one response key that stand together in a selection set merge (GraphQL
/// October 2021, 5.3.2 Field Selection Merging).
///
/// An error names the starts of two fields that do not, in the order of the text. The rule is asked
/// of the whole document at the first event, and not again: a visitor is for one pass.
#[derive(Drop)]
pub struct OverlappingFieldsCanBeMerged {
    /// Whether the rule has been asked.
    is_asked: bool,

    /// How many times two fields were compared.
    comparisons: u128,
}

/// The rule, as a visitor.
pub fn factory() -> OverlappingFieldsCanBeMerged
    ensures fresh { result.is_asked ≡ false }
    ensures none { result.comparisons ≡ 0 }
{
    OverlappingFieldsCanBeMerged {
        is_asked: false,
        comparisons: 0,
    }
}

impl OverlappingFieldsCanBeMerged {
    /// How many times two fields were compared, where bundles are gone through and where pairs are:
    /// over a document at most twice the square of its field nodes, as the law
    /// `visitor_counts_comparisons` says, the one half for bundles and the other for pairs. Not
    /// counted is how fields are put into classes before pairs are compared, each by at most 64
    /// comparisons with heads of its response key and one more with that of its class. The count
    /// stays at the greatest number once it is there. After want of memory it says nothing.
    pub fn comparisons(&self) -> u128
        ensures { result ≡ self.now.comparisons }
    {
        self.comparisons
    }
}

/// Reports the errors of the fields of the context's document that do not merge, behind the errors
/// that are there, and adds to `comparisons` how many times two fields were compared. Where memory
/// runs out the context has failed.
fn report_counted<'a, 't, S: SchemaScalar>(
    context: &mut ValidatorContext<'a, 't, S>,
    comparisons: &mut u128,
)
    ensures { let subject = subject_of context.old in
        ReportsBy (λ told. RuleTold S.eq subject told
        × IsCounted subject comparisons.old comparisons.new) context.old context.new }
{
    match overlapping_fields_counted(
        context.alloc(),
        context.schema(),
        context.document(),
        comparisons,
    ) {
        Ok(errors) => context.append_errors(errors),
        Err(_) => context.fail(),
    }
}

/// Reports the errors of the fields of the context's document that do not merge, behind the errors
/// that are there. Where memory runs out the context has failed.
pub fn report_overlapping_fields<'a, 't, S: SchemaScalar>(context: &mut ValidatorContext<'a, 't, S>)
    ensures { ReportsBy (RuleTold S.eq (subject_of context.old)) context.old context.new }
{
    let mut comparisons = 0;
    report_counted(context, &mut comparisons);
}

impl<S: SchemaScalar> Visitor<S> for OverlappingFieldsCanBeMerged {
    ghost use Rattle.graphql_rules_merging.specs.OverlappingFieldsCanBeMerged.{asks_once};
    ghost use Rattle.graphql_visitors.specs.Runs.{Did};

    ghost step = { asks_once S.eq };

    fn on<'a, 't>(&mut self, context: &mut ValidatorContext<'a, 't, S>, event: &Event<'a, 't, S>)
        ensures { Did (asks_once S.eq) event.now self.old self.new context.old context.new }
    {
        if self.is_asked {
            return;
        }
        self.is_asked = true;
        report_counted(context, &mut self.comparisons);
    }
}

/// How many sets and fields bundles may take up before pairs decide: 64 for each set and each field
/// of the document, and 128.
fn bound_of<S, C>(table: &SetTable<'_, '_, S, C>) -> usize {
    let mut written = table.sets.len();
    for set in table.sets.as_slice() {
        written = written.saturating_add(set.fields.len());
    }
    written.saturating_mul(64).saturating_add(128)
}

/// How many fields stand directly in the sets of a table.
fn count_fields<S, C>(table: &SetTable<'_, '_, S, C>) -> usize
    ensures { result ≤ fields_written table.now.sets }
{
    let mut fields: usize = 0;
    for set in table.sets.as_slice() {
        fields = fields.saturating_add(set.fields.len());
    }
    fields
}

/// How many comparisons of two fields there may be with those of bundles: as many more as there are
/// pairs of two of these fields.
fn most_of<S, C>(table: &SetTable<'_, '_, S, C>, comparisons: u128) -> u128
    ensures { let all = fields_written table.now.sets in result ≤ comparisons + all * all }
{
    let fields = count_fields(table) as u128;
    comparisons.saturating_add(fields.saturating_mul(fields))
}

/// The conflicts of the fields of these sets that do not merge, in the order in which they are
/// found: none where no two fields of one response key stand together, else those that going
/// through bundles tells. Where it met its bound and told nothing, each two
/// fields of one response key that stand together are compared. The sets below `definitions` are
/// those of the document's definitions. An error of the call is want of memory.
fn found_errors<S: Eq, C>(
    alloc: Global,
    schema: &SchemaType<S, C>,
    table: &SetTable<'_, '_, S, C>,
    definitions: usize,
    comparisons: &mut u128,
) -> Result<Items<Conflict>, AllocError>
    ensures counted { let all = fields_written table.now.sets in
        OnOk result (comparisons.new ≤ comparisons.old + 2 * (all * all)) }
    ensures found { IfOk result (λ found. (fragments : List (Fragment S)) →
        AreFound S.eq schema.now.types (pieces_of fragments table.now) definitions
        (conflicts.places found)) }
{
    if all_stand_alone(table) {
        return Ok(Items::new(alloc));
    }
    let limit = bound_of(table);
    let most = most_of(table, *comparisons);
    let told = told_by_bundles(alloc, schema, table, definitions, limit, most, comparisons)?;
    match told {
        Outcome::Told(found) => Ok(found),
        Outcome::Undecided => merge_errors(alloc, schema, table, definitions, comparisons),
    }
}

/// The same, and these sets are let go. An error of the call is want of memory.
fn errors_of_table<'d, 'a, S: Eq, C>(
    alloc: Global,
    schema: &SchemaType<S, C>,
    table: SetTable<'d, 'a, S, C>,
    definitions: usize,
    comparisons: &mut u128,
) -> Result<Items<Conflict>, AllocError>
    ensures counted { let all = fields_written table.entry.sets in
        OnOk result (comparisons.new ≤ comparisons.old + 2 * (all * all)) }
    ensures found { IfOk result (λ found. (fragments : List (Fragment S)) →
        AreFound S.eq schema.now.types (pieces_of fragments table.entry) definitions
        (conflicts.places found)) }
{
    let outcome = found_errors(alloc, schema, &table, definitions, comparisons);
    let_go(table);
    outcome
}

/// The same as [`overlapping_fields_can_be_merged`], and how many times two fields were compared is
/// added to `comparisons`: at most twice the square of the document's field nodes, also where
/// fragments lead to themselves. The count stays at the greatest number once it is there. An error
/// of the call is want of memory.
pub fn overlapping_fields_counted<S: Eq, C>(
    alloc: Global,
    schema: &SchemaType<S, C>,
    document: &[Definition<'_, S>],
    comparisons: &mut u128,
) -> Result<Items<RuleError>, AllocError>
    ensures counted { let nodes = document_nodes document.now in
        OnOk result (comparisons.new ≤ comparisons.old + 2 * nodes * nodes) }
    ensures merging { let types = schema.now.types in
        let sets = document_sets (declarations_of schema.now) document.now in
        IfOk result
        (λ errors. Settled (fragments_listed document.now) → IsSound S.eq types sets (places errors)
        × IsDirect S.eq types sets (places errors) × IsComplete S.eq types sets (places errors)) }
    ensures sorted { IfOk result (IsSorted ⟦<RuleError as Ord>⟧.cmp) }
    ensures once { IfOk result (λ errors.
        IsStrictlySortedBy ⟦<Items<SourcePosition> as Ord>⟧.cmp (places errors)) }
{
    let table = numbered_sets(alloc, schema, document)?;
    let found = errors_of_table(alloc, schema, table, document.len(), comparisons)?;
    put_in_order(alloc, found)
}

/// The errors of the fields of a document that do not merge, in the order of their places, no two
/// of the same places: each two fields are told once, with the first reason that is found of names,
/// arguments and types. Where no fragment leads to itself (5.5.2.2 Fragment Spreads Must Not Form
/// Cycles) each names where two fields begin that stand together in a selection set and do not
/// merge there, each two that stand directly in one set and differ in name or arguments are named,
/// and without errors each set merges. On other documents it ends too, and of the errors nothing is
/// promised but their order. An error of the call is want of memory.
pub fn overlapping_fields_can_be_merged<S: Eq, C>(
    alloc: Global,
    schema: &SchemaType<S, C>,
    document: &[Definition<'_, S>],
) -> Result<Items<RuleError>, AllocError>
    ensures merging { let types = schema.now.types in
        let sets = document_sets (declarations_of schema.now) document.now in
        IfOk result
        (λ errors. Settled (fragments_listed document.now) → IsSound S.eq types sets (places errors)
        × IsDirect S.eq types sets (places errors) × IsComplete S.eq types sets (places errors)) }
    ensures sorted { IfOk result (IsSorted ⟦<RuleError as Ord>⟧.cmp) }
    ensures once { IfOk result (λ errors.
        IsStrictlySortedBy ⟦<Items<SourcePosition> as Ord>⟧.cmp (places errors)) }
{
    let mut comparisons = 0;
    overlapping_fields_counted(alloc, schema, document, &mut comparisons)
}

/// The conflicts of the fields of these sets that do not merge, in the order in which they are
/// found by comparing each two fields of one response key that stand together; and these sets are
/// let go. An error of the call is want of memory.
fn errors_by_pairs<'d, 'a, S: Eq, C>(
    alloc: Global,
    schema: &SchemaType<S, C>,
    table: SetTable<'d, 'a, S, C>,
    definitions: usize,
) -> Result<Items<Conflict>, AllocError>
    ensures { IfOk result (λ found. (fragments : List (Fragment S)) →
        AreOfPairs S.eq schema.now.types (pieces_of fragments table.entry) definitions
        (conflicts.places found)) }
{
    let mut comparisons = 0;
    let outcome = merge_errors(alloc, schema, &table, definitions, &mut comparisons);
    let_go(table);
    outcome
}

/// The same by comparing each two fields of one response key that stand together, without bundles:
/// what decides where bundles are too many. In time that is quadratic in a document. On a document
/// whose fields do not merge it may tell of other fields that do not.
pub fn overlapping_fields_by_pairs<S: Eq, C>(
    alloc: Global,
    schema: &SchemaType<S, C>,
    document: &[Definition<'_, S>],
) -> Result<Items<RuleError>, AllocError>
    ensures merging { let types = schema.now.types in
        let sets = document_sets (declarations_of schema.now) document.now in
        IfOk result
        (λ errors. Settled (fragments_listed document.now) → IsSound S.eq types sets (places errors)
        × IsDirect S.eq types sets (places errors) × IsComplete S.eq types sets (places errors)) }
    ensures sorted { IfOk result (IsSorted ⟦<RuleError as Ord>⟧.cmp) }
    ensures once { IfOk result (λ errors.
        IsStrictlySortedBy ⟦<Items<SourcePosition> as Ord>⟧.cmp (places errors)) }
{
    let table = numbered_sets(alloc, schema, document)?;
    let found = errors_by_pairs(alloc, schema, table, document.len())?;
    put_in_order(alloc, found)
}
