//! Anonymous operations (GraphQL October 2021, 5.2.2.1 Lone Anonymous Operation).

ghost use Rattle.std.specs.Prelude.{◌≡◌, OnOk, map, false};
ghost use Rattle.graphql_rules_document.specs.Lent.{operation_of};
ghost use Rattle.graphql_rules_document.specs.LoneAnonymousOperation.{anonymous_among};
ghost use Rattle.graphql_rules_document.specs.LoneAnonymousOperation.{lone_anonymous_operation_faults};
ghost use Rattle.graphql_rule_errors.specs.Places.{Reports};

use crate::document_rule::DocumentRule;
use crate::once::Once;
use crate::{FragmentIndex, OperationScope};
use graphql_rule_errors::{RuleError, report};
use graphql_schema::{SchemaScalar, SchemaType};
use graphql_text::Items;
use std::alloc::{AllocError, Global};

/// An anonymous operation is the only one of its document (GraphQL October 2021, 5.2.2.1 Lone
/// Anonymous Operation).
///
/// An error names the start of the operation.
#[derive(Drop)]
pub struct LoneAnonymousOperation;

/// The rule, as a visitor.
pub fn factory() -> Once<LoneAnonymousOperation>
    ensures { result.is_asked ≡ false }
{
    Once::new(LoneAnonymousOperation)
}

/// Adds an error for each anonymous operation of a document that has others, where it begins. An
/// error of the call is want of memory.
pub fn lone_anonymous_operation<S>(
    alloc: Global,
    operations: &[OperationScope<'_, '_, S>],
    errors: &mut Items<RuleError>,
) -> Result<(), AllocError>
    ensures { OnOk result (Reports
        (lone_anonymous_operation_faults (map operation_of operations.now)) errors.old errors.new) }
{
    let count = operations.len();
    'operations: for operation in operations {
        report_anonymous(alloc, count, operation, errors)?;
    }
    Ok(())
}

/// The error, if the operation is anonymous among so many.
fn report_anonymous<S>(
    alloc: Global,
    count: usize,
    operation: &OperationScope<'_, '_, S>,
    errors: &mut Items<RuleError>,
) -> Result<(), AllocError>
    ensures { OnOk result
        (Reports (anonymous_among count (operation_of operation.now)) errors.old errors.new) }
{
    if operation.name.is_some() || count <= 1 {
        return Ok(());
    }
    let message = String::from_str(
        alloc,
        "This anonymous operation must be the only defined operation",
    )?;
    report(alloc, errors, message, &[operation.place])
}

impl<S: SchemaScalar> DocumentRule<S> for LoneAnonymousOperation {
    ghost use Rattle.std.specs.Prelude.{OnOk, map};
    ghost use Rattle.graphql_rule_errors.specs.Places.{Reports};
    ghost use Rattle.graphql_rules_document.specs.LoneAnonymousOperation.{lone_anonymous_operation_faults};
    ghost use Rattle.graphql_rules_document.specs.Lent.{operation_of};

    ghost says = { λ types operations fragments. lone_anonymous_operation_faults operations };

    fn add_errors<'a, 't>(
        &self,
        alloc: Global,
        schema: &SchemaType<S>,
        operations: &[OperationScope<'a, 't, S>],
        index: &FragmentIndex<'_, 'a>,
        errors: &mut Items<RuleError>,
    ) -> Result<(), AllocError>
        ensures { OnOk result (Reports (lone_anonymous_operation_faults
            (map operation_of operations.now)) errors.old errors.new) }
    {
        lone_anonymous_operation(alloc, operations, errors)
    }
}
