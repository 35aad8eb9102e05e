//! Names that stand more than once among operations (GraphQL October 2021, 5.2.1.1 Operation Name
//! Uniqueness).

ghost use Rattle.std.specs.Prelude.{◌≡◌, ◌++◌, OnOk, false, map};
ghost use Rattle.std.specs.List.{flat_map};
ghost use Rattle.graphql_text.specs.Memory.{GivesBy};
ghost use Rattle.graphql_rule_errors.specs.Places.{Reports};
ghost use Rattle.graphql_rule_errors.specs.Repeats.{mention_lent};
ghost use Rattle.graphql_rules_document.specs.UniqueOperationNames.{operation_mention};
ghost use Rattle.graphql_rules_document.specs.UniqueOperationNames.{unique_operation_names_faults};
ghost use Rattle.graphql_rules_document.specs.Lent.{operation_of};

use crate::document_rule::DocumentRule;
use crate::once::Once;
use crate::{FragmentIndex, OperationScope};
use graphql_rule_errors::{LentMention, RuleError, report_repeats};
use graphql_schema::{SchemaScalar, SchemaType};
use graphql_text::Items;
use std::alloc::{AllocError, Global};

/// No two operations have one name (GraphQL October 2021, 5.2.1.1 Operation Name Uniqueness).
///
/// An error names where the first operation of the name begins, and where a later one does.
#[derive(Drop)]
pub struct UniqueOperationNames;

/// The rule, as a visitor.
pub fn factory() -> Once<UniqueOperationNames>
    ensures { result.is_asked ≡ false }
{
    Once::new(UniqueOperationNames)
}

/// Adds an error for each operation whose name an earlier one has: where the first of that name
/// begins, and where it does. An error of the call is want of memory.
pub fn unique_operation_names<S>(
    alloc: Global,
    operations: &[OperationScope<'_, '_, S>],
    errors: &mut Items<RuleError>,
) -> Result<(), AllocError>
    ensures { OnOk result (Reports (unique_operation_names_faults (map operation_of operations.now))
        errors.old errors.new) }
{
    let mentions = operation_names(alloc, operations)?;
    report_repeats(alloc, errors, "operation", mentions.as_slice())
}

/// The names of operations that have one, where they begin.
fn operation_names<'a, 't, S>(
    alloc: Global,
    operations: &[OperationScope<'a, 't, S>],
) -> Result<Items<LentMention<'a>>, AllocError>
    ensures { GivesBy (map mention_lent) result
        (flat_map operation_mention (map operation_of operations.now)) }
{
    let mut mentions = Items::new(alloc);
    'operations: for operation in operations {
        add_name(&mut mentions, operation)?;
    }
    Ok(mentions)
}

/// Adds the name of an operation, if it has one.
fn add_name<'a, 't, S>(
    mentions: &mut Items<LentMention<'a>>,
    operation: &OperationScope<'a, 't, S>,
) -> Result<(), AllocError>
    ensures { OnOk result (map mention_lent mentions.new
        ≡ map mention_lent mentions.old
        ++ operation_mention (operation_of operation.now)) }
{
    match operation.name {
        Some(name) => {
            let place = operation.place;
            mentions.push(LentMention { name, place })?;
            Ok(())
        }
        None => Ok(()),
    }
}

impl<S: SchemaScalar> DocumentRule<S> for UniqueOperationNames {
    ghost use Rattle.std.specs.Prelude.{OnOk, map};
    ghost use Rattle.graphql_rule_errors.specs.Places.{Reports};
    ghost use Rattle.graphql_rules_document.specs.UniqueOperationNames.{unique_operation_names_faults};
    ghost use Rattle.graphql_rules_document.specs.Lent.{operation_of};

    ghost says = { λ types operations fragments. unique_operation_names_faults operations };

    fn add_errors<'a, 't>(
        &self,
        alloc: Global,
        schema: &SchemaType<S>,
        operations: &[OperationScope<'a, 't, S>],
        index: &FragmentIndex<'_, 'a>,
        errors: &mut Items<RuleError>,
    ) -> Result<(), AllocError>
        ensures { OnOk result (Reports (unique_operation_names_faults
            (map operation_of operations.now)) errors.old errors.new) }
    {
        unique_operation_names(alloc, operations, errors)
    }
}
