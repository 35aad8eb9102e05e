//! What visitors tell over a document, each in a walk of its own, and what holds of a document
//! without a fault.

ghost use Rattle.std.specs.Prelude.{◌≡◌, ◌++◌, IfOk, IsPermutation, false, true};
ghost use Rattle.graphql_rules_document.specs.NoUnusedFragments.{no_unused_fragments_faults};
ghost use Rattle.graphql_rules_document.specs.Once.{said_of};
ghost use Rattle.graphql_rules.specs.FieldsOnCorrectType.{fields_on_correct_type_faults};
ghost use Rattle.graphql_rules.specs.KnownFragmentNames.{known_fragment_names_faults};
ghost use Rattle.graphql_rules.specs.PossibleFragmentSpreads.{possible_fragment_spreads_faults};
ghost use Rattle.graphql_rules_merging.specs.OverlappingFieldsCanBeMerged.{IsCounted, RuleTold};
ghost use Rattle.graphql_schema.specs.Declarations.{declarations_of};
ghost use Rattle.graphql_validation.specs.FirstStage.{ArgumentsTold, DefaultsTold, places_of};
ghost use Rattle.graphql_validation.specs.WellFormed.{IsWellFormed};
ghost use Rattle.graphql_visitors.specs.Reports.{Reports, ReportsBy};
ghost use Rattle.graphql_visitors.specs.Subjects.{Subject, subject_of};
ghost use Rattle.graphql_law_rows.specs.OnlyTold.{IsOnlyTold};

use graphql_document_walk::visit;
use graphql_rules::laws::{
    possible_spreads_tell_of_occurrences, told_of_arguments_is_determined,
    told_of_defaults_is_determined,
};
use graphql_rules::{
    ArgumentsOfCorrectType, DefaultValuesOfCorrectType, FieldsOnCorrectType, KnownFragmentNames,
    arguments_of_correct_type, default_values_of_correct_type, fields_on_correct_type,
    known_fragment_names, possible_fragment_spreads,
};
use graphql_rules_document::laws::document_rules_tell_of_documents;
use graphql_rules_document::{NoUnusedFragments, no_unused_fragments};
use graphql_rules_merging::laws::{visitor_counts_comparisons, visitor_tells_of_document};
use graphql_rules_merging::overlapping_fields_can_be_merged as merging;
use graphql_schema::{Meaning, SchemaScalar, SchemaType};
use graphql_tree::Definition;
use graphql_validation::first_stage_errors;
use graphql_validation::laws::documents_without_a_fault_are_well_formed;
use graphql_visitors::laws::{
    local_rules_tell_of_occurrences, no_visitor_tells_nothing, one_pass_is_separate_passes,
    relational_rules_tell_of_occurrences,
};
use graphql_visitors::{Local, MultiVisitorCons, MultiVisitorNil, ValidatorContext};
use std::alloc::{AllocError, Global};

/// Reports the spreads of fragments that the document has not: what the rule says of its parts.
pub fn report_unknown_fragments<'a, 't, S: SchemaScalar>(context: &mut ValidatorContext<'a, 't, S>)
    ensures { Reports (places_of (subject_of context.old) known_fragment_names_faults) context.old
        context.new }
{
    local_rules_tell_of_occurrences::<S, KnownFragmentNames>();
    let mut rule = known_fragment_names::factory();
    visit(&mut rule, context);
}

/// Reports the arguments whose values do not conform. Whatever the checks answer, nothing else may
/// be told of them.
pub fn report_arguments<'a, 't, S: SchemaScalar>(context: &mut ValidatorContext<'a, 't, S>)
    ensures { let may_tell = ArgumentsTold ⟦<S as Meaning>⟧.meaning (subject_of context.old) in
        ReportsBy (IsOnlyTold may_tell) context.old context.new }
{
    relational_rules_tell_of_occurrences::<S, ArgumentsOfCorrectType>();
    told_of_arguments_is_determined::<S>();
    let mut rule = arguments_of_correct_type::factory();
    visit(&mut rule, context);
}

/// The same of the defaults of variables.
pub fn report_defaults<'a, 't, S: SchemaScalar>(context: &mut ValidatorContext<'a, 't, S>)
    ensures { let may_tell = DefaultsTold ⟦<S as Meaning>⟧.meaning (subject_of context.old) in
        ReportsBy (IsOnlyTold may_tell) context.old context.new }
{
    relational_rules_tell_of_occurrences::<S, DefaultValuesOfCorrectType>();
    told_of_defaults_is_determined::<S>();
    let mut rule = default_values_of_correct_type::factory();
    visit(&mut rule, context);
}

/// Reports unknown fields and unknown fragments in one walk: what both rules say of the document's
/// parts, in some order.
pub fn report_unknown_names<'a, 't, S: SchemaScalar>(context: &mut ValidatorContext<'a, 't, S>)
    ensures { let told = places_of (subject_of context.old) in
        let both = told fields_on_correct_type_faults ++ told known_fragment_names_faults in
        ReportsBy (IsPermutation both) context.old context.new }
{
    local_rules_tell_of_occurrences::<S, FieldsOnCorrectType>();
    local_rules_tell_of_occurrences::<S, KnownFragmentNames>();
    no_visitor_tells_nothing::<S>();
    one_pass_is_separate_passes::<S, Local<KnownFragmentNames>, MultiVisitorNil>();
    one_pass_is_separate_passes::<
        S,
        Local<FieldsOnCorrectType>,
        MultiVisitorCons<Local<KnownFragmentNames>, MultiVisitorNil>,
    >();
    let mut rules = MultiVisitorNil
        .with(known_fragment_names::factory())
        .with(fields_on_correct_type::factory());
    visit(&mut rules, context);
}

/// Reports the spreads and inline fragments that can apply to nothing where they stand: what the
/// rule says of the document's parts.
pub fn report_impossible_spreads<'a, 't, S: SchemaScalar>(context: &mut ValidatorContext<'a, 't, S>)
    ensures { Reports (places_of (subject_of context.old) possible_fragment_spreads_faults)
        context.old context.new }
{
    possible_spreads_tell_of_occurrences::<S>();
    let mut rule = possible_fragment_spreads::factory(context.alloc(), context.schema());
    visit(&mut rule, context);
}

/// Reports the fragments that no operation reaches: what the rule says of the document.
pub fn report_unused_fragments<'a, 't, S: SchemaScalar>(context: &mut ValidatorContext<'a, 't, S>)
    ensures { let said =
        said_of (λ types operations fragments. no_unused_fragments_faults operations fragments) in
        Reports (said (subject_of context.old)) context.old context.new }
{
    document_rules_tell_of_documents::<S, NoUnusedFragments>();
    let mut rule = no_unused_fragments::factory();
    visit(&mut rule, context);
}

/// Reports the fields that do not merge: what the rule tells of the document.
pub fn report_overlapping_fields<'a, 't, S: SchemaScalar>(context: &mut ValidatorContext<'a, 't, S>)
    ensures { ReportsBy (RuleTold S.eq (subject_of context.old)) context.old context.new }
{
    visitor_tells_of_document::<S>();
    let mut rule = merging::factory();
    visit(&mut rule, context);
}

/// How many times the rule that fields merge compares two fields of a document: at most twice the
/// square of its field nodes, unless memory runs out. What the rule tells is reported.
pub fn count_comparisons<'a, 't, S: SchemaScalar>(context: &mut ValidatorContext<'a, 't, S>) -> u128
    ensures { context.new.failed ≡ false → IsCounted (subject_of context.old) 0 result }
{
    visitor_counts_comparisons::<S>();
    let mut rule = merging::factory();
    visit(&mut rule, context);
    rule.comparisons()
}

/// Whether the rules of the first stage find no fault in a document: then it is well-formed. An
/// error is want of memory.
pub fn is_without_fault<'t, S: SchemaScalar>(
    alloc: Global,
    schema: &SchemaType<S>,
    document: &[Definition<'t, S>],
) -> Result<bool, AllocError>
    ensures { let subject : Subject S S.Check =
        record { schema = declarations_of schema.now; document = document.now } in
        IfOk result (λ is. is ≡ true → IsWellFormed subject) }
{
    documents_without_a_fault_are_well_formed::<S>();
    let errors = first_stage_errors(alloc, schema, document)?;
    Ok(errors.is_empty())
}
