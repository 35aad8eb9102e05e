//! What requests are answered, as a call has answered.

ghost use Rattle.std.specs.Prelude.{IfErr, IfOk};
ghost use Rattle.std.specs.HashMap.{get_by_text};
ghost use Rattle.std.specs.Option.{option_map};
ghost use Rattle.std.specs.Str.{chars};
ghost use Rattle.graphql_executor.specs.Answered.{asking};
ghost use Rattle.graphql_service_tests.specs.OnlyResponses.{NeverExecuted, OnlyRefusedForMemory};
ghost use Rattle.graphql_service_tests.specs.OnlyResponses.{OnlyResponse};

use graphql_executor::laws::{answers_are_one, executable_requests_are_not_refused};
use graphql_executor::{GraphQLError, Meaning, Resolving, Response, execute_sync};
use graphql_field_results::ExecutionError;
use graphql_mutation::GraphQLMutationValue;
use graphql_rule_errors::RuleError;
use graphql_schema::{RootNode, SchemaScalar};
use graphql_values::Variables;
use std::alloc::Global;

/// What `execute_sync` answers a request is all that may be answered: other data, or another
/// context, would be no answer to it, and it is refused by nothing but want of memory; and where it
/// is refused, but by want of memory, no operation of it may be executed. Errors are those of
/// `execute_sync`.
pub fn answered_alone<S: SchemaScalar + Drop, R: GraphQLMutationValue<S>>(
    alloc: Global,
    source: &str,
    operation_name: Option<&str>,
    root_node: &RootNode<S>,
    resolver: &R,
    variables: &Variables<S>,
    context: &mut R::Context,
) -> Result<Response<S>, GraphQLError>
    ensures answered { let name = option_map (λ name. name.now) operation_name.entry in
        let given = get_by_text variables.now in
        let root = root_node.now in
        let asked = asking root.schema root.introspection_disabled (chars source.now) name given in
        IfOk result (λ r.
        OnlyResponse ⟦<S as Meaning>⟧.meaning asked (⟦<R as Resolving<S>>⟧.resolving resolver.now)
        ⟦<ExecutionError<S> as Ord>⟧.cmp context.old r.0 context.new) }
    ensures not_refused { let name = option_map (λ name. name.now) operation_name.entry in
        let given = get_by_text variables.now in
        let root = root_node.now in
        let asked = asking root.schema root.introspection_disabled (chars source.now) name given in
        IfOk result
        (λ r. OnlyRefusedForMemory ⟦<S as Meaning>⟧.meaning asked ⟦<RuleError as Ord>⟧.cmp) }
    ensures refused { let name = option_map (λ name. name.now) operation_name.entry in
        let given = get_by_text variables.now in
        let root = root_node.now in
        let asked = asking root.schema root.introspection_disabled (chars source.now) name given in
        IfErr result (NeverExecuted ⟦<S as Meaning>⟧.meaning asked) }
{
    answers_are_one::<S, R>();
    executable_requests_are_not_refused::<S>();
    execute_sync(
        alloc,
        source,
        operation_name,
        root_node,
        resolver,
        variables,
        context,
    )
}
