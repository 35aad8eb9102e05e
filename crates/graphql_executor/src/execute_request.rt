//! Requests.

ghost use Rattle.std.specs.Prelude.{IfErr, IfOk};
ghost use Rattle.std.specs.HashMap.{get_by_text};
ghost use Rattle.std.specs.Option.{option_map};
ghost use Rattle.std.specs.Str.{chars};
ghost use Rattle.graphql_requests.specs.KeptTexts.{AreValid};
ghost use Rattle.graphql_executor.specs.Answered.{IsAnswered, IsRefused, LeftUnanswered, asking};

use crate::operation::Response;
use crate::resolving::Resolving;
use crate::validated::execute_validated_query;
use graphql_field_results::ExecutionError;
use graphql_mutation::GraphQLMutationValue;
use graphql_requests::{
    GraphQLError, ValidTexts, chosen_operation, documents_without_a_fault_are_settled,
    read_request_with,
};
use graphql_rule_errors::RuleError;
use graphql_schema::{Meaning, RootNode, SchemaScalar};
use graphql_values::Variables;
use std::alloc::Global;

/// What a request is answered (GraphQL October 2021, 6.1 Executing Requests): the data and the
/// errors of the operation that it chooses. A query leaves the context as it was; a mutation
/// changes it, response key after response key (6.2.2 Mutation).
///
/// The request is worked on in this order, and the first step that fails decides the error, with
/// which nothing is executed, so that the context stays as it was: the text is parsed; all rules
/// for documents are asked, among them, where the root node has introspection disabled, the rule
/// against it; the operation is chosen; the values of its variables are checked; a subscription is
/// refused; a mutation is refused where the schema has no type for mutations.
/// `GraphQLError::Memory` comes only where memory ran out, which may be at any step; a mutation has
/// then changed the context by a beginning of its response keys, by none in part.
pub fn execute_sync<S: SchemaScalar + Drop, R: GraphQLMutationValue<S>>(
    alloc: Global,
    source: &str,
    operation_name: Option<&str>,
    root_node: &RootNode<S>,
    resolver: &R,
    variables: &Variables<S>,
    context: &mut R::Context,
) -> Result<Response<S>, GraphQLError>
    ensures answered { let name = option_map (λ name. name.now) operation_name.entry in
        let given = get_by_text variables.now in
        let root = root_node.now in
        let asked = asking root.schema root.introspection_disabled (chars source.now) name given in
        IfOk result (λ r.
        IsAnswered ⟦<S as Meaning>⟧.meaning asked (⟦<R as Resolving<S>>⟧.resolving resolver.now)
        ⟦<ExecutionError<S> as Ord>⟧.cmp context.old r.0 r.1 context.new) }
    ensures refused { let name = option_map (λ name. name.now) operation_name.entry in
        let given = get_by_text variables.now in
        let root = root_node.now in
        let asked = asking root.schema root.introspection_disabled (chars source.now) name given in
        IfErr result (IsRefused ⟦<S as Meaning>⟧.meaning asked ⟦<RuleError as Ord>⟧.cmp) }
    ensures unanswered { let name = option_map (λ name. name.now) operation_name.entry in
        let given = get_by_text variables.now in
        let root = root_node.now in
        let asked = asking root.schema root.introspection_disabled (chars source.now) name given in
        let resolving = ⟦<R as Resolving<S>>⟧.resolving resolver.now in
        IfErr result (λ error.
        LeftUnanswered ⟦<S as Meaning>⟧.meaning asked resolving error context.old context.new) }
{
    let mut valid = ValidTexts::new(0, 0);
    execute_with(
        alloc,
        source,
        operation_name,
        root_node,
        resolver,
        variables,
        context,
        &mut valid,
    )
}

/// What a request is answered, and errors, as [`execute_sync`] gives them, where texts are kept
/// that were found valid for the root node: of these no rule is asked again, and a text that is
/// found valid is kept with them, if there is room and memory for it.
pub fn execute_with<S: SchemaScalar + Drop, R: GraphQLMutationValue<S>>(
    alloc: Global,
    source: &str,
    operation_name: Option<&str>,
    root_node: &RootNode<S>,
    resolver: &R,
    variables: &Variables<S>,
    context: &mut R::Context,
    valid: &mut ValidTexts,
) -> Result<Response<S>, GraphQLError>
    requires { AreValid ⟦<S as Meaning>⟧.meaning root_node.now valid.old }
    ensures answered { let name = option_map (λ name. name.now) operation_name.entry in
        let given = get_by_text variables.now in
        let root = root_node.now in
        let asked = asking root.schema root.introspection_disabled (chars source.now) name given in
        IfOk result (λ r.
        IsAnswered ⟦<S as Meaning>⟧.meaning asked (⟦<R as Resolving<S>>⟧.resolving resolver.now)
        ⟦<ExecutionError<S> as Ord>⟧.cmp context.old r.0 r.1 context.new) }
    ensures refused { let name = option_map (λ name. name.now) operation_name.entry in
        let given = get_by_text variables.now in
        let root = root_node.now in
        let asked = asking root.schema root.introspection_disabled (chars source.now) name given in
        IfErr result (IsRefused ⟦<S as Meaning>⟧.meaning asked ⟦<RuleError as Ord>⟧.cmp) }
    ensures unanswered { let name = option_map (λ name. name.now) operation_name.entry in
        let given = get_by_text variables.now in
        let root = root_node.now in
        let asked = asking root.schema root.introspection_disabled (chars source.now) name given in
        let resolving = ⟦<R as Resolving<S>>⟧.resolving resolver.now in
        IfErr result (λ error.
        LeftUnanswered ⟦<S as Meaning>⟧.meaning asked resolving error context.old context.new) }
    ensures valid { AreValid ⟦<S as Meaning>⟧.meaning root_node.now valid.new }
{
    let document = read_request_with(alloc, source, root_node, valid)?;
    let definitions = document.as_slice();
    let operation = chosen_operation(alloc, definitions, operation_name, root_node, variables)?;
    documents_without_a_fault_are_settled(root_node.schema());
    let response = execute_validated_query(
        alloc,
        definitions,
        operation,
        root_node,
        resolver,
        variables,
        context,
    )?;
    Ok(response)
}
