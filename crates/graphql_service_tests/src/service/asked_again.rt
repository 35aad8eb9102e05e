//! Requests and their plain texts, asked one behind the other.

ghost use Rattle.std.specs.Prelude.{◌≡◌, IfOk, IfSome, string_bytes};
ghost use Rattle.graphql_service.specs.PlainRequests.{TakesStandIn};
ghost use Rattle.graphql_service_tests.specs.Responses.{AreResponsesAlike, IsTheSameText};

use graphql_executor::{GraphQLMutationValue, Meaning, Resolving, Response, execute_sync};
use graphql_lines::GraphQLRequest;
use graphql_schema::{RootNode, SchemaScalar};
use graphql_service::laws::{
    plain_again_is_the_same, plain_requests_are_not_refused, plain_texts_are_one,
};
use graphql_service::meaning::plain_means_the_same;
use graphql_service::{PlainError, operation_name_of, plain_request};
use graphql_values::Variables;
use std::alloc::Global;

/// What a request is answered on one context, and its plain text on another, with the same
/// operation name and the same values for variables: on contexts that are the same the data are the
/// same, there are errors in both answers or in neither, and the contexts are the same afterwards.
///
/// `None` where the request or its plain text is refused, where the plain text has more fields and
/// inline fragments than `limit`, or where memory ran out.
pub fn answered_both_ways<S: SchemaScalar + Drop, R: GraphQLMutationValue<S>>(
    alloc: Global,
    request: &GraphQLRequest<S>,
    root_node: &RootNode<S>,
    resolver: &R,
    limit: usize,
    context: &mut R::Context,
    other: &mut R::Context,
) -> Option<(Response<S>, Response<S>)>
    ensures { context.old ≡ other.old
        → IfSome result (λ both. AreResponsesAlike both.0 context.new both.1 other.new) }
{
    plain_means_the_same(root_node, resolver);
    let name = operation_name_of(request);
    let query = request.query.as_str();
    let values = &request.variables;
    let Ok(plain) = plain_request(alloc, request, root_node, limit) else {
        return None;
    };
    let Ok(first) = execute_sync(alloc, query, name, root_node, resolver, values, context) else {
        return None;
    };
    let text = plain.as_str();
    let Ok(second) = execute_sync(alloc, text, name, root_node, resolver, values, other) else {
        return None;
    };
    Some((first, second))
}

/// The plain text of a request, and what it gets when it is asked for its plain text a second time:
/// the same text, or want of memory.
///
/// An error is that of the first time, as [`plain_request`] tells it.
pub fn plain_twice<S: SchemaScalar + Drop>(
    alloc: Global,
    request: &GraphQLRequest<S>,
    root_node: &RootNode<S>,
    limit: usize,
) -> Result<(String, Result<String, PlainError>), PlainError>
    ensures { IfOk result
        (λ texts. IsTheSameText (λ text. string_bytes text) (string_bytes texts.0) texts.1) }
{
    plain_texts_are_one::<S>();
    plain_requests_are_not_refused::<S>();
    let text = plain_request(alloc, request, root_node, limit)?;
    let again = plain_request(alloc, request, root_node, limit);
    Ok((text, again))
}

/// The plain text of a text, asked with an operation name and values for variables, and what that
/// text gets when it is asked in its place: where the schema takes the stand-in `@skip(if: true)`
/// it is its own plain text, or memory ran out.
///
/// An error is that of the first time, as [`plain_request`] tells it.
pub fn plain_again<S: SchemaScalar + Drop>(
    alloc: Global,
    source: &str,
    operation_name: Option<String>,
    variables: Variables<S>,
    root_node: &RootNode<S>,
    limit: usize,
) -> Result<(String, Result<String, PlainError>), PlainError>
    ensures { TakesStandIn ⟦<S as Meaning>⟧.meaning root_node.now.schema
        → IfOk result
        (λ texts. IsTheSameText (λ text. string_bytes text) (string_bytes texts.0) texts.1) }
{
    plain_again_is_the_same(root_node);
    let query = String::from_str(alloc, source)?;
    let mut request = GraphQLRequest {
        query,
        operation_name,
        variables,
    };
    let text = plain_request(alloc, &request, root_node, limit)?;
    request.query = text;
    let again = plain_request(alloc, &request, root_node, limit);
    Ok((request.query, again))
}
