//! Names that stand more than once among the variables of an operation (GraphQL October 2021, 5.8.1
//! Variable Uniqueness).

ghost use Rattle.std.specs.Prelude.{◌≡◌, OnOk, false, map};
ghost use Rattle.graphql_occurrences.specs.Occurrences.{variable_part};
ghost use Rattle.graphql_rule_errors.specs.Places.{Reports};
ghost use Rattle.graphql_rule_errors.specs.Repeats.{repeats};
ghost use Rattle.graphql_rules_document.specs.UniqueVariableNames.{unique_variable_names_faults};
ghost use Rattle.graphql_rules_document.specs.UniqueVariableNames.{variable_mention};
ghost use Rattle.graphql_rules_document.specs.Lent.{operation_of};

use crate::document_rule::DocumentRule;
use crate::once::Once;
use crate::{FragmentIndex, OperationScope};
use graphql_rule_errors::{RuleError, report_repeats};
use graphql_schema::{SchemaScalar, SchemaType};
use graphql_text::{Items, Spanning, TextRef};
use graphql_tree::VariableDefinition;
use std::alloc::{AllocError, Global};

/// No two variables of an operation have one name (GraphQL October 2021, 5.8.1 Variable
/// Uniqueness).
///
/// An error names where the first variable of the name is defined, and where a later one is.
#[derive(Drop)]
pub struct UniqueVariableNames;

/// The rule, as a visitor.
pub fn factory() -> Once<UniqueVariableNames>
    ensures { result.is_asked ≡ false }
{
    Once::new(UniqueVariableNames)
}

/// Adds an error for each variable of an operation whose name an earlier one of the operation has:
/// where the first of that name begins, and where it does. An error of the call is want of memory.
pub fn unique_variable_names<S>(
    alloc: Global,
    operations: &[OperationScope<'_, '_, S>],
    errors: &mut Items<RuleError>,
) -> Result<(), AllocError>
    ensures { OnOk result (Reports (unique_variable_names_faults (map operation_of operations.now))
        errors.old errors.new) }
{
    'operations: for operation in operations {
        report_variables(alloc, operation.defined, errors)?;
    }
    Ok(())
}

/// The errors of one operation's variables.
#[tactic(auto, using(crate::proofs::NameLemmas::variables_mentioned))]
fn report_variables<'t, S>(
    alloc: Global,
    defined: &[(Spanning<TextRef<'t>>, VariableDefinition<'t, S>)],
    errors: &mut Items<RuleError>,
) -> Result<(), AllocError>
    ensures { OnOk result (Reports (repeats (map variable_mention (map variable_part defined.now)))
        errors.old errors.new) }
{
    report_repeats(alloc, errors, "variable", defined)
}

impl<S: SchemaScalar> DocumentRule<S> for UniqueVariableNames {
    ghost use Rattle.std.specs.Prelude.{OnOk, map};
    ghost use Rattle.graphql_rule_errors.specs.Places.{Reports};
    ghost use Rattle.graphql_rules_document.specs.UniqueVariableNames.{unique_variable_names_faults};
    ghost use Rattle.graphql_rules_document.specs.Lent.{operation_of};

    ghost says = { λ types operations fragments. unique_variable_names_faults operations };

    fn add_errors<'a, 't>(
        &self,
        alloc: Global,
        schema: &SchemaType<S>,
        operations: &[OperationScope<'a, 't, S>],
        index: &FragmentIndex<'_, 'a>,
        errors: &mut Items<RuleError>,
    ) -> Result<(), AllocError>
        ensures { OnOk result (Reports (unique_variable_names_faults
            (map operation_of operations.now)) errors.old errors.new) }
    {
        unique_variable_names(alloc, operations, errors)
    }
}
