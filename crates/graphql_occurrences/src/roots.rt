//! The roots of operations.

ghost use Rattle.std.specs.Prelude.{◌≡◌};
ghost use Rattle.std.specs.Option.{option_copied};
ghost use Rattle.graphql_schema.specs.Declarations.{declarations_of};
ghost use Rattle.graphql_occurrences.specs.DeclaredLookups as spec;

use graphql_schema::{MetaType, SchemaType};
use graphql_tree::OperationType;

/// The root of an operation, if the schema has it (GraphQL October 2021, 3.3.1 Root Operation
/// Types).
pub fn root_of<S, C>(
    schema: &SchemaType<S, C>,
    operation_type: OperationType,
) -> Option<&MetaType<S, C>>
    ensures { option_copied result ≡ spec.root_of (declarations_of schema.now) operation_type }
{
    match operation_type {
        OperationType::Query => Some(schema.concrete_query_type()),
        OperationType::Mutation => schema.concrete_mutation_type(),
        OperationType::Subscription => schema.concrete_subscription_type(),
    }
}
