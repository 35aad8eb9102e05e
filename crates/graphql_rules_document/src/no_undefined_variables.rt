//! Uses of variables that an operation does not define (GraphQL October 2021, 5.8.3 All Variable
//! Uses Defined).

ghost use Rattle.std.specs.Prelude.{◌≡◌, ◌∷◌, [], OnOk, map, not, false};
ghost use Rattle.std.specs.List.{flat_map};
ghost use Rattle.graphql_names.specs.Names.{Bytes, is_one_of};
ghost use Rattle.graphql_occurrences.specs.Occurrences.{variable_part};
ghost use Rattle.graphql_rules_document.specs.Lent.{fragment_of, operation_of, use_of};
ghost use Rattle.graphql_names.specs.NameSets.{has_name};
ghost use Rattle.graphql_rules_document.specs.NoUndefinedVariables as spec;
ghost use Rattle.graphql_rule_errors.specs.Places.{Reports, error_if};

use crate::document_rule::DocumentRule;
use crate::names::defined_names;
use crate::once::Once;
use crate::{FragmentIndex, OperationScope, ReachedFragments, Use};
use graphql_rule_errors::{RuleError, report};
use graphql_schema::{SchemaScalar, SchemaType};
use graphql_text::Items;
use std::alloc::{AllocError, Global};
use std::collections::HashSet;

/// Each variable that an operation reaches is one that it defines (GraphQL October 2021, 5.8.3 All
/// Variable Uses Defined).
///
/// An error names where the variable is used, and where the operation begins.
#[derive(Drop)]
pub struct NoUndefinedVariables;

/// The rule, as a visitor.
pub fn factory() -> Once<NoUndefinedVariables>
    ensures { result.is_asked ≡ false }
{
    Once::new(NoUndefinedVariables)
}

/// Adds an error for each operation and each use of a variable that it reaches and does not define:
/// where the variable is used, and where the operation begins. Takes time in proportion to the
/// operations times the fragments, and to what each operation reaches. An error of the call is want
/// of memory.
pub fn no_undefined_variables<'a, 't, S>(
    alloc: Global,
    operations: &[OperationScope<'a, 't, S>],
    index: &FragmentIndex<'_, 'a>,
    errors: &mut Items<RuleError>,
) -> Result<(), AllocError>
    ensures { OnOk result (Reports (spec.no_undefined_variables_faults (map operation_of
        operations.now) (map fragment_of index.now.fragments.now)) errors.old errors.new) }
{
    let mut reached = ReachedFragments::new(alloc);
    'operations: for operation in operations {
        report_operation(alloc, &mut reached, index, operation, errors)?;
    }
    Ok(())
}

/// The errors of one operation.
fn report_operation<'a, 't, S>(
    alloc: Global,
    reached: &mut ReachedFragments,
    index: &FragmentIndex<'_, 'a>,
    operation: &OperationScope<'a, 't, S>,
    errors: &mut Items<RuleError>,
) -> Result<(), AllocError>
    ensures { OnOk result (Reports (spec.undefined_in (map fragment_of index.now.fragments.now)
        (operation_of operation.now)) errors.old errors.new) }
{
    let uses = reached.uses(alloc, index, operation)?;
    let defined = defined_names(alloc, operation.defined)?;
    report_uses(alloc, operation, &defined, uses.as_slice(), errors)
}

/// The errors for these uses, by the names that the operation defines.
fn report_uses<S>(
    alloc: Global,
    operation: &OperationScope<'_, '_, S>,
    defined: &HashSet<&str>,
    uses: &[Use<'_>],
    errors: &mut Items<RuleError>,
) -> Result<(), AllocError>
    ensures { OnOk result (((q : Bytes)
        → has_name defined.now q
        ≡ is_one_of (map (λ v. v.name.item) (map variable_part operation.now.defined.now)) q)
        → Reports (flat_map (spec.undefined_use (operation_of operation.now)) (map use_of uses.now))
        errors.old errors.new) }
{
    'uses: for used in uses {
        report_use(alloc, operation, defined.contains(used.name), used, errors)?;
    }
    Ok(())
}

/// The error for a use, if the variable is not defined.
fn report_use<S>(
    alloc: Global,
    operation: &OperationScope<'_, '_, S>,
    is_defined: bool,
    used: &Use<'_>,
    errors: &mut Items<RuleError>,
) -> Result<(), AllocError>
    ensures { OnOk result (Reports (error_if (not is_defined)
        (used.now.place ∷ operation.now.place ∷ [])) errors.old errors.new) }
{
    if is_defined {
        return Ok(());
    }
    let message = message_of(alloc, used.name, operation.name)?;
    report(alloc, errors, message, &[used.place, operation.place])
}

/// What is said of a variable, and of the operation where it has a name.
fn message_of(alloc: Global, name: &str, operation: Option<&str>) -> Result<String, AllocError> {
    match operation {
        Some(operation) => {
            format!(in alloc; "Variable \"${name}\" is not defined by operation \"{operation}\"")
        }
        None => format!(in alloc; "Variable \"${name}\" is not defined"),
    }
}

impl<S: SchemaScalar> DocumentRule<S> for NoUndefinedVariables {
    ghost use Rattle.std.specs.Prelude.{OnOk, map};
    ghost use Rattle.graphql_rule_errors.specs.Places.{Reports};
    ghost use Rattle.graphql_rules_document.specs.NoUndefinedVariables.{no_undefined_variables_faults};
    ghost use Rattle.graphql_rules_document.specs.Lent.{fragment_of, operation_of};

    ghost says = { λ types operations fragments.
        no_undefined_variables_faults operations fragments };

    fn add_errors<'a, 't>(
        &self,
        alloc: Global,
        schema: &SchemaType<S>,
        operations: &[OperationScope<'a, 't, S>],
        index: &FragmentIndex<'_, 'a>,
        errors: &mut Items<RuleError>,
    ) -> Result<(), AllocError>
        ensures { let held = map operation_of operations.now in
            let fragments = map fragment_of index.now.fragments.now in
            OnOk result
            (Reports (no_undefined_variables_faults held fragments) errors.old errors.new) }
    {
        no_undefined_variables(alloc, operations, index, errors)
    }
}
