//! The introspection query.

ghost use Rattle.std.specs.Prelude.{◌≡◌, None, IfErr, IfOk};
ghost use Rattle.std.specs.Str.{chars};
ghost use Rattle.graphql_executor.specs.Answered.{IsAnswered, IsRefused, LeftUnanswered, asking};
ghost use Rattle.graphql_executor.specs.IntrospectionQuery as spec;

use crate::execute_request::execute_sync;
use crate::operation::Response;
use crate::resolving::Resolving;
use graphql_field_results::ExecutionError;
use graphql_mutation::GraphQLMutationValue;
use graphql_requests::GraphQLError;
use graphql_rule_errors::RuleError;
use graphql_schema::{Meaning, RootNode, SchemaScalar};
use graphql_values::Variables;
use std::alloc::Global;

/// What the introspection query asks for.
#[derive(Clone, Copy, Debug, PartialEq, Eq)]
pub enum IntrospectionFormat {
    /// All that a client needs to build the schema, with the descriptions.
    All,

    /// The same without the descriptions.
    WithoutDescriptions,
}

const ALL: &str =
    "query IntrospectionQuery { __schema { description queryType { name } mutationType { name } subscriptionType { name } types { ...FullType } directives { name description locations args { ...Input } } } } fragment FullType on __Type { kind name description fields(includeDeprecated: true) { name description args { ...Input } type { ...Ref } isDeprecated deprecationReason } inputFields { ...Input } interfaces { ...Ref } enumValues(includeDeprecated: true) { name description isDeprecated deprecationReason } possibleTypes { ...Ref } } fragment Input on __InputValue { name description type { ...Ref } defaultValue } fragment Ref on __Type { kind name ofType { kind name ofType { kind name ofType { kind name } } } }";

const WITHOUT_DESCRIPTIONS: &str =
    "query IntrospectionQuery { __schema { queryType { name } mutationType { name } subscriptionType { name } types { ...FullType } directives { name locations args { ...Input } } } } fragment FullType on __Type { kind name fields(includeDeprecated: true) { name args { ...Input } type { ...Ref } isDeprecated deprecationReason } inputFields { ...Input } interfaces { ...Ref } enumValues(includeDeprecated: true) { name isDeprecated deprecationReason } possibleTypes { ...Ref } } fragment Input on __InputValue { name type { ...Ref } defaultValue } fragment Ref on __Type { kind name ofType { kind name ofType { kind name ofType { kind name } } } }";

/// The text of the introspection query.
fn query_text(format: IntrospectionFormat) -> &'static str
    ensures { result.now ≡ spec.introspection_query format }
{
    match format {
        IntrospectionFormat::All => ALL,
        IntrospectionFormat::WithoutDescriptions => WITHOUT_DESCRIPTIONS,
    }
}

/// What the introspection query is answered (GraphQL October 2021, 4.2 Schema Introspection): the
/// types and the directives of the schema, as the request of a tool that asks for them gets them.
/// No operation is named, and no value is given for variables. All is as `execute_sync` has it:
/// where the root node has introspection disabled, the query is refused by the rule against it, and
/// `GraphQLError::Memory` comes only where memory ran out.
pub fn introspect<S: SchemaScalar + Drop, R: GraphQLMutationValue<S>>(
    alloc: Global,
    root_node: &RootNode<S>,
    resolver: &R,
    context: &mut R::Context,
    format: IntrospectionFormat,
) -> Result<Response<S>, GraphQLError>
    ensures answered { let root = root_node.now in
        let text = chars (spec.introspection_query format) in
        let asked = asking root.schema root.introspection_disabled text None (λ _. None) in
        IfOk result (λ r.
        IsAnswered ⟦<S as Meaning>⟧.meaning asked (⟦<R as Resolving<S>>⟧.resolving resolver.now)
        ⟦<ExecutionError<S> as Ord>⟧.cmp context.old r.0 r.1 context.new) }
    ensures refused { let root = root_node.now in
        let text = chars (spec.introspection_query format) in
        let asked = asking root.schema root.introspection_disabled text None (λ _. None) in
        IfErr result (IsRefused ⟦<S as Meaning>⟧.meaning asked ⟦<RuleError as Ord>⟧.cmp) }
    ensures unanswered { let root = root_node.now in
        let text = chars (spec.introspection_query format) in
        let asked = asking root.schema root.introspection_disabled text None (λ _. None) in
        let resolving = ⟦<R as Resolving<S>>⟧.resolving resolver.now in
        IfErr result (λ error.
        LeftUnanswered ⟦<S as Meaning>⟧.meaning asked resolving error context.old context.new) }
{
    let query = query_text(format);
    let variables = Variables::new(alloc);
    execute_sync(alloc, query, None, root_node, resolver, &variables, context)
}
