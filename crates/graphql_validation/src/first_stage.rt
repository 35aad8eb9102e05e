//! The rules of the first stage: all rules for documents but the one that fields merge.

ghost use Rattle.std.specs.Prelude.{◌≡◌, ◌↔◌, [], IfOk, false};
ghost use Rattle.std.specs.List.Sorted.{IsSorted};
ghost use Rattle.graphql_rule_errors.specs.Places.{places};
ghost use Rattle.graphql_rule_errors.specs.declared.rule_error.RuleError.{RuleError};
ghost use Rattle.graphql_rules_document.specs.AllRules.{document_places};
ghost use Rattle.graphql_schema.specs.Declarations.{declarations_of};
ghost use Rattle.graphql_rules_document.specs.Lent.{scopes_told};
ghost use Rattle.graphql_validation.specs.Apart.{asked_places};
ghost use Rattle.graphql_validation.specs.FirstStage.{FirstStage, PartsTold, introspection_places};
ghost use Rattle.graphql_validation.specs.FirstStage.{scopes as scopes_held};
ghost use Rattle.graphql_validation.specs.Valid.{HasNoFault};
ghost use Rattle.graphql_visitors.specs.Reports.{Reports, ReportsBy};
ghost use Rattle.graphql_visitors.specs.Subjects.{subject_of};

use crate::introspection::Introspection;
use crate::one_walk::visit_and_gather;
use graphql_document_walk::visit;
use graphql_rule_errors::RuleError;
use graphql_rules::{
    arguments_of_correct_type, default_values_of_correct_type, disable_introspection,
    fields_on_correct_type, fragments_on_composite_types, known_argument_names, known_directives,
    known_fragment_names, known_type_names, possible_fragment_spreads, provided_non_null_arguments,
    scalar_leafs, unique_argument_names, unique_input_field_names, variables_are_input_types,
};
use graphql_rules_document::{Scopes, scope_errors};
use graphql_schema::{Meaning, SchemaScalar, SchemaType};
use graphql_text::Items;
use graphql_tree::Definition;
use graphql_visitors::{MultiVisitorNil, ValidatorContext};
use std::alloc::{AllocError, Global};

/// Asks the rules of the first stage over the context's document: each but the one that fields
/// merge (GraphQL October 2021, 5 Validation). What they report comes behind the errors that are
/// there. Walks over the document once. Where memory runs out the context has failed.
pub fn visit_first_stage<'a, 't, S: SchemaScalar>(context: &mut ValidatorContext<'a, 't, S>)
    ensures { ReportsBy (FirstStage ⟦<S as Meaning>⟧.meaning (subject_of context.old)) context.old
        context.new }
{
    let _introspection = visit_stage(context, false);
}

/// The same. In that walk the rule against introspection is asked too, where
/// `introspection_disabled`: its errors stand apart from those of the context, in the order of the
/// text.
fn visit_stage<'a, 't, S: SchemaScalar>(
    context: &mut ValidatorContext<'a, 't, S>,
    introspection_disabled: bool,
) -> Items<RuleError>
    ensures reports { ReportsBy (FirstStage ⟦<S as Meaning>⟧.meaning (subject_of context.old))
        context.old context.new }
    ensures introspection { context.new.failed ≡ false
        → places result ≡ asked_places introspection_disabled (subject_of context.old) }
{
    let walked = visit_parts(context, introspection_disabled);
    report_scopes(context, &walked.scopes);
    walked.introspection
}

/// What a walk over a document brings beside what is reported.
#[derive(Drop)]
struct Walked<'a, 't, S> {
    scopes: Scopes<'a, 't, S>,
    introspection: Items<RuleError>,
}

/// Asks the rules that look at one part at a time, and gathers what operations and fragments hold,
/// and what the rule against introspection tells where it is asked.
fn visit_parts<'a, 't, S: SchemaScalar>(
    context: &mut ValidatorContext<'a, 't, S>,
    introspection_disabled: bool,
) -> Walked<'a, 't, S>
    ensures reports { ReportsBy (PartsTold ⟦<S as Meaning>⟧.meaning (subject_of context.old))
        context.old context.new }
    ensures gathered { context.new.failed ≡ false
        → scopes_told result.scopes ≡ scopes_held (subject_of context.old) }
    ensures introspection { context.new.failed ≡ false
        → places result.introspection
        ≡ asked_places introspection_disabled (subject_of context.old) }
{
    let spreads = possible_fragment_spreads::factory(context.alloc(), context.schema());
    let introspection = Introspection::new(context.alloc(), introspection_disabled);
    let mut rules = MultiVisitorNil
        .with(unique_input_field_names::factory())
        .with(unique_argument_names::factory())
        .with(provided_non_null_arguments::factory())
        .with(known_argument_names::factory())
        .with(known_directives::factory())
        .with(spreads)
        .with(known_fragment_names::factory())
        .with(variables_are_input_types::factory())
        .with(known_type_names::factory())
        .with(fragments_on_composite_types::factory())
        .with(scalar_leafs::factory())
        .with(fields_on_correct_type::factory())
        .with(default_values_of_correct_type::factory())
        .with(arguments_of_correct_type::factory())
        .with(introspection);
    let scopes = visit_and_gather(&mut rules, context);
    let introspection = rules.into_first().into_errors();
    Walked {
        scopes,
        introspection,
    }
}

/// Reports what the rules for operations and fragments have against these.
fn report_scopes<'a, 't, S: SchemaScalar>(
    context: &mut ValidatorContext<'a, 't, S>,
    scopes: &Scopes<'a, 't, S>,
)
    ensures { Reports (document_places context.old.schema.now.types (scopes_told scopes.now))
        context.old context.new }
{
    match scope_errors(context.alloc(), context.schema(), scopes) {
        Ok(errors) => context.append_errors(errors),
        Err(_) => context.fail(),
    }
}

/// Asks the rule against introspection over the context's document: no field is `__schema` or
/// `__type` (GraphQL October 2021, 4 Introspection). What it reports comes behind the errors that
/// are there. Where memory runs out the context has failed.
pub fn visit_introspection_rule<'a, 't, S: SchemaScalar>(context: &mut ValidatorContext<'a, 't, S>)
    ensures { Reports (introspection_places (subject_of context.old)) context.old context.new }
{
    let mut rule = disable_introspection::factory();
    visit(&mut rule, context);
}

/// The errors of all rules of the first stage for a document, in order: by their places, then by
/// their messages. There are none exactly where no rule finds a fault. An error of the call is want
/// of memory.
pub fn first_stage_errors<'a, 't, S: SchemaScalar>(
    alloc: Global,
    schema: &'a SchemaType<S>,
    document: &'a [Definition<'t, S>],
) -> Result<Items<RuleError>, AllocError>
    ensures told { IfOk result (λ errors. FirstStage ⟦<S as Meaning>⟧.meaning
        (record { schema = declarations_of schema.now; document = document.now }) (places errors)) }
    ensures none { IfOk result (λ errors. (errors ≡ [])
        ↔ HasNoFault ⟦<S as Meaning>⟧.meaning
        (record { schema = declarations_of schema.now; document = document.now })) }
    ensures sorted { IfOk result (IsSorted ⟦<RuleError as Ord>⟧.cmp) }
{
    let found = stage_errors(alloc, schema, document, false)?;
    Ok(found.stage)
}

/// The errors of all rules of the first stage, and those of the rule against introspection.
#[derive(Drop)]
pub(crate) struct StageErrors {
    /// Those of the first stage, in order.
    pub(crate) stage: Items<RuleError>,

    /// Those of the rule against introspection, in the order of the text.
    pub(crate) introspection: Items<RuleError>,
}

/// The errors of all rules of the first stage for a document, in order, and from the same walk,
/// where `introspection_disabled`, those of the rule against introspection. An error of the call is
/// want of memory.
pub(crate) fn stage_errors<'a, 't, S: SchemaScalar>(
    alloc: Global,
    schema: &'a SchemaType<S>,
    document: &'a [Definition<'t, S>],
    introspection_disabled: bool,
) -> Result<StageErrors, AllocError>
    ensures told { IfOk result
        (λ found. FirstStage ⟦<S as Meaning>⟧.meaning (record {
          schema = declarations_of schema.now;
          document = document.now;
        }) (places found.stage)) }
    ensures none { IfOk result (λ found. (found.stage ≡ [])
        ↔ HasNoFault ⟦<S as Meaning>⟧.meaning
        (record { schema = declarations_of schema.now; document = document.now })) }
    ensures sorted { IfOk result (λ found. IsSorted ⟦<RuleError as Ord>⟧.cmp found.stage) }
    ensures introspection { IfOk result
        (λ found. places found.introspection
        ≡ asked_places introspection_disabled
        (record { schema = declarations_of schema.now; document = document.now })) }
{
    let mut context = ValidatorContext::new(alloc, schema, document)?;
    let introspection = visit_stage(&mut context, introspection_disabled);
    let stage = context.into_errors()?;
    Ok(StageErrors {
        stage,
        introspection,
    })
}
