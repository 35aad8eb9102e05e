//! All rules for documents, in two stages.

ghost use Rattle.std.specs.Prelude.{◌≡◌, ◌↔◌, ◌++◌, [], IfOk, IsPermutation};
ghost use Rattle.std.specs.List.Sorted.{IsSorted};
ghost use Rattle.graphql_rule_errors.specs.Places.{places};
ghost use Rattle.graphql_schema.specs.Declarations.{declarations_of};
ghost use Rattle.graphql_validation.specs.AllRules.{AllRules, IsValid, IsValidAt, RequestTold};
ghost use Rattle.graphql_validation.specs.FirstStage.{FirstStage};
ghost use Rattle.graphql_validation.specs.Valid.{HasNoFault};
ghost use Rattle.graphql_visitors.specs.Reports.{ReportsBy};
ghost use Rattle.graphql_visitors.specs.Subjects.{subject_of};

use crate::first_stage::{first_stage_errors, stage_errors};
use graphql_rule_errors::RuleError;
use graphql_rules_merging::overlapping_fields_can_be_merged::overlapping_fields_can_be_merged;
use graphql_schema::{Meaning, RootNode, SchemaScalar, SchemaType};
use graphql_text::Items;
use graphql_tree::Definition;
use graphql_visitors::ValidatorContext;
use std::alloc::{AllocError, Global};

/// The errors of all rules for a document (GraphQL October 2021, 5 Validation), in order: by their
/// places, then by their messages. They are those of the first stage; where it finds no fault,
/// those of the rule that fields merge (5.3.2 Field Selection Merging). There are none exactly
/// where the document is valid. An error of the call is want of memory.
pub fn validation_errors<'t, S: SchemaScalar>(
    alloc: Global,
    schema: &SchemaType<S>,
    document: &[Definition<'t, S>],
) -> Result<Items<RuleError>, AllocError>
    ensures told { IfOk result (λ errors. AllRules ⟦<S as Meaning>⟧.meaning
        (record { schema = declarations_of schema.now; document = document.now }) (places errors)) }
    ensures none { IfOk result (λ errors. (errors ≡ [])
        ↔ IsValid ⟦<S as Meaning>⟧.meaning
        (record { schema = declarations_of schema.now; document = document.now })) }
    ensures sorted { IfOk result (IsSorted ⟦<RuleError as Ord>⟧.cmp) }
{
    let stage = first_stage_errors(alloc, schema, document)?;
    or_merging(alloc, schema, document, stage)
}

/// These errors, which are those of the first stage; where there is none, those of the rule that
/// fields merge. An error of the call is want of memory.
fn or_merging<'t, S: SchemaScalar>(
    alloc: Global,
    schema: &SchemaType<S>,
    document: &[Definition<'t, S>],
    stage: Items<RuleError>,
) -> Result<Items<RuleError>, AllocError>
    requires told { FirstStage ⟦<S as Meaning>⟧.meaning
        (record { schema = declarations_of schema.now; document = document.now }) (places stage) }
    requires none { (stage ≡ [])
        ↔ HasNoFault ⟦<S as Meaning>⟧.meaning
        (record { schema = declarations_of schema.now; document = document.now }) }
    requires sorted { IsSorted ⟦<RuleError as Ord>⟧.cmp stage }
    ensures told { IfOk result (λ errors. AllRules ⟦<S as Meaning>⟧.meaning
        (record { schema = declarations_of schema.now; document = document.now }) (places errors)) }
    ensures none { IfOk result (λ errors. (errors ≡ [])
        ↔ IsValid ⟦<S as Meaning>⟧.meaning
        (record { schema = declarations_of schema.now; document = document.now })) }
    ensures sorted { IfOk result (IsSorted ⟦<RuleError as Ord>⟧.cmp) }
{
    if stage.is_empty() {
        return overlapping_fields_can_be_merged(alloc, schema, document);
    }
    Ok(stage)
}

/// These errors and those, in order. An error of the call is want of memory.
fn in_order(
    mut errors: Items<RuleError>,
    mut more: Items<RuleError>,
) -> Result<Items<RuleError>, AllocError>
    ensures permutation { IfOk result (IsPermutation (errors ++ more)) }
    ensures sorted { IfOk result (IsSorted ⟦<RuleError as Ord>⟧.cmp) }
{
    errors.append(&mut more)?;
    let mut all = errors.into_vec();
    all.sort_unstable();
    Ok(Items::from_vec(all))
}

/// Asks all rules over the context's document, as `validation_errors` does. What they report comes
/// behind the errors that are there, which do not count: the rule that fields merge is asked where
/// those of the first stage find no fault. Where memory runs out the context has failed.
pub fn visit_all_rules<'a, 't, S: SchemaScalar>(context: &mut ValidatorContext<'a, 't, S>)
    ensures { ReportsBy (AllRules ⟦<S as Meaning>⟧.meaning (subject_of context.old))
        context.old context.new }
{
    match validation_errors(context.alloc(), context.schema(), context.document()) {
        Ok(errors) => context.append_errors(errors),
        Err(_) => context.fail(),
    }
}

/// The errors of all rules for a document of a request, in order. Where introspection is disabled,
/// the errors of the rule against it stand among them, whatever the others tell. There are none
/// exactly where the document is valid and, where introspection is disabled, asks for no `__schema`
/// and no `__type` (GraphQL October 2021, 4.2 Schema Introspection). Walks over the document once
/// before fields are merged. An error of the call is want of memory.
pub fn request_errors<'a, 't, S: SchemaScalar>(
    alloc: Global,
    schema: &'a SchemaType<S>,
    document: &'a [Definition<'t, S>],
    introspection_disabled: bool,
) -> Result<Items<RuleError>, AllocError>
    ensures told { IfOk result (λ errors.
        RequestTold ⟦<S as Meaning>⟧.meaning (record {
          schema = declarations_of schema.now;
          document = document.now;
        }) introspection_disabled (places errors)) }
    ensures none { IfOk result (λ errors. (errors ≡ [])
        ↔ IsValidAt ⟦<S as Meaning>⟧.meaning (record {
          schema = declarations_of schema.now;
          document = document.now;
        }) introspection_disabled) }
    ensures sorted { IfOk result (IsSorted ⟦<RuleError as Ord>⟧.cmp) }
{
    let found = stage_errors(alloc, schema, document, introspection_disabled)?;
    let rules = or_merging(alloc, schema, document, found.stage)?;
    in_order(rules, found.introspection)
}

/// The same of a request to a root node, which may have introspection disabled.
pub fn root_node_errors<'a, 't, S: SchemaScalar>(
    alloc: Global,
    root: &'a RootNode<S>,
    document: &'a [Definition<'t, S>],
) -> Result<Items<RuleError>, AllocError>
    ensures told { IfOk result (λ errors. RequestTold ⟦<S as Meaning>⟧.meaning
        (record { schema = declarations_of root.now.schema; document = document.now })
        root.now.introspection_disabled (places errors)) }
    ensures none { IfOk result (λ errors. (errors ≡ [])
        ↔ IsValidAt ⟦<S as Meaning>⟧.meaning
        (record { schema = declarations_of root.now.schema; document = document.now })
        root.now.introspection_disabled) }
    ensures sorted { IfOk result (IsSorted ⟦<RuleError as Ord>⟧.cmp) }
{
    request_errors(alloc, root.schema(), document, root.introspection_disabled)
}
