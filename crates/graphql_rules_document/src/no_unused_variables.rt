//! Variables that are not used (GraphQL October 2021, 5.8.4 All Variables Used).

ghost use Rattle.std.specs.Prelude.{◌≡◌, ◌∷◌, [], List, OnOk, map, not, false};
ghost use Rattle.std.specs.List.{flat_map};
ghost use Rattle.graphql_names.specs.Names.{Bytes, is_one_of};
ghost use Rattle.graphql_occurrences.specs.Occurrences.{variable_part};
ghost use Rattle.graphql_rules_document.specs.Lent.{fragment_of, operation_of};
ghost use Rattle.graphql_names.specs.NameSets.{has_name};
ghost use Rattle.graphql_rules_document.specs.NoUnusedVariables as spec;
ghost use Rattle.graphql_rule_errors.specs.Places.{Reports, error_if};

use crate::document_rule::DocumentRule;
use crate::names::used_names;
use crate::once::Once;
use crate::{FragmentIndex, OperationScope, ReachedFragments};
use graphql_rule_errors::{RuleError, report};
use graphql_schema::{SchemaScalar, SchemaType};
use graphql_text::{Items, Spanning, TextRef};
use graphql_tree::VariableDefinition;
use std::alloc::{AllocError, Global};
use std::collections::HashSet;

/// Each variable of an operation is used by it, or by a fragment that it reaches (GraphQL October
/// 2021, 5.8.4 All Variables Used).
///
/// An error names where the variable is defined.
#[derive(Drop)]
pub struct NoUnusedVariables;

/// The rule, as a visitor.
pub fn factory() -> Once<NoUnusedVariables>
    ensures { result.is_asked ≡ false }
{
    Once::new(NoUnusedVariables)
}

/// Adds an error for each variable of an operation that neither the operation nor a fragment that
/// it reaches uses, where the variable is defined. Takes time in proportion to the operations times
/// the fragments, and to what each operation reaches. An error of the call is want of memory.
pub fn no_unused_variables<'a, 't, S>(
    alloc: Global,
    operations: &[OperationScope<'a, 't, S>],
    index: &FragmentIndex<'_, 'a>,
    errors: &mut Items<RuleError>,
) -> Result<(), AllocError>
    ensures { OnOk result (Reports (spec.no_unused_variables_faults (map operation_of
        operations.now) (map fragment_of index.now.fragments.now)) errors.old errors.new) }
{
    let mut reached = ReachedFragments::new(alloc);
    'operations: for operation in operations {
        report_operation(alloc, &mut reached, index, operation, errors)?;
    }
    Ok(())
}

/// The errors of one operation.
fn report_operation<'a, 't, S>(
    alloc: Global,
    reached: &mut ReachedFragments,
    index: &FragmentIndex<'_, 'a>,
    operation: &OperationScope<'a, 't, S>,
    errors: &mut Items<RuleError>,
) -> Result<(), AllocError>
    ensures { OnOk result (Reports (spec.unused_in (map fragment_of index.now.fragments.now)
        (operation_of operation.now)) errors.old errors.new) }
{
    let uses = reached.uses(alloc, index, operation)?;
    let used = used_names(alloc, uses.as_slice())?;
    report_variables(alloc, &used, operation.defined, errors)
}

/// The errors for these variables, by the names that are used.
fn report_variables<'t, S>(
    alloc: Global,
    used: &HashSet<&str>,
    defined: &[(Spanning<TextRef<'t>>, VariableDefinition<'t, S>)],
    errors: &mut Items<RuleError>,
) -> Result<(), AllocError>
    ensures { OnOk result ((names : List Bytes)
        → ((q : Bytes) → has_name used.now q ≡ is_one_of names q) → Reports (flat_map
        (spec.unused_variable names) (map variable_part defined.now)) errors.old errors.new) }
{
    'defined: for variable in defined {
        let name = variable.0.item.as_str();
        report_variable(alloc, used.contains(name), &variable.0, errors)?;
    }
    Ok(())
}

/// The error for a variable, if it is not used.
fn report_variable(
    alloc: Global,
    is_used: bool,
    variable: &Spanning<TextRef<'_>>,
    errors: &mut Items<RuleError>,
) -> Result<(), AllocError>
    ensures { OnOk result
        (Reports (error_if (not is_used) (variable.now.span.start ∷ [])) errors.old errors.new) }
{
    if is_used {
        return Ok(());
    }
    let name = variable.item.as_str();
    let message = format!(in alloc; "Variable \"${name}\" is never used")?;
    report(alloc, errors, message, &[variable.span.start])
}

impl<S: SchemaScalar> DocumentRule<S> for NoUnusedVariables {
    ghost use Rattle.std.specs.Prelude.{OnOk, map};
    ghost use Rattle.graphql_rule_errors.specs.Places.{Reports};
    ghost use Rattle.graphql_rules_document.specs.NoUnusedVariables.{no_unused_variables_faults};
    ghost use Rattle.graphql_rules_document.specs.Lent.{fragment_of, operation_of};

    ghost says = { λ types operations fragments. no_unused_variables_faults operations fragments };

    fn add_errors<'a, 't>(
        &self,
        alloc: Global,
        schema: &SchemaType<S>,
        operations: &[OperationScope<'a, 't, S>],
        index: &FragmentIndex<'_, 'a>,
        errors: &mut Items<RuleError>,
    ) -> Result<(), AllocError>
        ensures { let held = map operation_of operations.now in
            let fragments = map fragment_of index.now.fragments.now in
            OnOk result
            (Reports (no_unused_variables_faults held fragments) errors.old errors.new) }
    {
        no_unused_variables(alloc, operations, index, errors)
    }
}
