//! All rules for the definitions of a document.

ghost use Rattle.std.specs.Prelude.{◌≡◌, OnOk, map};
ghost use Rattle.graphql_text.specs.Memory.{GivesBy};
ghost use Rattle.graphql_schema.specs.Declarations.{declarations_of};
ghost use Rattle.graphql_rules_document.specs.Lent.{fragment_of, operation_of, scopes_told};
ghost use Rattle.graphql_rules_document.specs.Scopes.{scopes_in};
ghost use Rattle.graphql_rules_document.specs.AllRules as spec;
ghost use Rattle.graphql_rule_errors.specs.Places.{Reports, places};

use crate::lone_anonymous_operation::lone_anonymous_operation;
use crate::no_fragment_cycles::no_fragment_cycles;
use crate::no_undefined_variables::no_undefined_variables;
use crate::no_unused_fragments::no_unused_fragments;
use crate::no_unused_variables::no_unused_variables;
use crate::unique_fragment_names::unique_fragment_names;
use crate::unique_operation_names::unique_operation_names;
use crate::unique_variable_names::unique_variable_names;
use crate::variables_in_allowed_position::variables_in_allowed_position;
use crate::{FragmentIndex, OperationScope, Scopes, scopes_of};
use graphql_rule_errors::RuleError;
use graphql_schema::SchemaType;
use graphql_text::Items;
use graphql_tree::Definition;
use std::alloc::{AllocError, Global};

/// The errors of all rules of this crate for a document, with the types of `schema`: those for
/// operations, then those for fragments, then those for variables (GraphQL October 2021, 5.2
/// Operations, 5.5 Fragments, 5.8 Variables), of each rule in the order of the document. Walks over
/// the document once. An error of the call is want of memory.
pub fn document_errors<'a, 't, S, C>(
    alloc: Global,
    schema: &'a SchemaType<S, C>,
    document: &'a [Definition<'t, S>],
) -> Result<Items<RuleError>, AllocError>
    ensures { GivesBy places result (spec.document_places schema.now.types
        (scopes_in (declarations_of schema.now) document.now)) }
{
    let scopes = scopes_of(alloc, schema, document)?;
    scope_errors(alloc, schema, &scopes)
}

/// The errors of all rules of this crate for what the operations and the fragments of a document
/// hold, in the same order. An error of the call is want of memory.
pub fn scope_errors<'a, 't, S, C>(
    alloc: Global,
    schema: &SchemaType<S, C>,
    scopes: &Scopes<'a, 't, S>,
) -> Result<Items<RuleError>, AllocError>
    ensures { GivesBy places result
        (spec.document_places schema.now.types (scopes_told scopes.now)) }
{
    let operations = scopes.operations.as_slice();
    let index = FragmentIndex::new(alloc, scopes.fragments.as_slice())?;
    let mut errors = Items::new(alloc);
    operation_rules(alloc, operations, &mut errors)?;
    fragment_rules(alloc, operations, &index, &mut errors)?;
    variable_rules(alloc, schema, operations, &index, &mut errors)?;
    Ok(errors)
}

/// The rules for operations.
#[tactic(auto, using(graphql_rule_errors::proofs::ReportLemmas::reports_more))]
fn operation_rules<S>(
    alloc: Global,
    operations: &[OperationScope<'_, '_, S>],
    errors: &mut Items<RuleError>,
) -> Result<(), AllocError>
    ensures { OnOk result
        (Reports (spec.operation_places (map operation_of operations.now)) errors.old errors.new) }
{
    unique_operation_names(alloc, operations, errors)?;
    lone_anonymous_operation(alloc, operations, errors)
}

/// The rules for fragments.
#[tactic(auto, using(graphql_rule_errors::proofs::ReportLemmas::reports_more))]
fn fragment_rules<'a, 't, S>(
    alloc: Global,
    operations: &[OperationScope<'a, 't, S>],
    index: &FragmentIndex<'_, 'a>,
    errors: &mut Items<RuleError>,
) -> Result<(), AllocError>
    ensures { OnOk result (Reports (spec.fragment_places (map operation_of operations.now)
        (map fragment_of index.now.fragments.now)) errors.old errors.new) }
{
    unique_fragment_names(alloc, index.fragments(), errors)?;
    no_unused_fragments(alloc, operations, index, errors)?;
    no_fragment_cycles(alloc, index, errors)
}

/// The rules for variables.
#[tactic(auto, using(graphql_rule_errors::proofs::ReportLemmas::reports_more))]
fn variable_rules<'a, 't, S, C>(
    alloc: Global,
    schema: &SchemaType<S, C>,
    operations: &[OperationScope<'a, 't, S>],
    index: &FragmentIndex<'_, 'a>,
    errors: &mut Items<RuleError>,
) -> Result<(), AllocError>
    ensures { OnOk result (Reports (spec.variable_places schema.now.types (map operation_of
        operations.now) (map fragment_of index.now.fragments.now)) errors.old errors.new) }
{
    unique_variable_names(alloc, operations, errors)?;
    no_undefined_variables(alloc, operations, index, errors)?;
    no_unused_variables(alloc, operations, index, errors)?;
    variables_in_allowed_position(alloc, schema, operations, index, errors)
}
