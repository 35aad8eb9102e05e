//! Requests whose plain text is in a store, and that text in their place.

ghost use Rattle.std.specs.Prelude.{◌↔◌, IfSome, IfOk, IsSome, string_bytes};
ghost use Rattle.graphql_plain_requests.specs.PlainRequests.{IsPlainTextWithin, asked_of};
ghost use Rattle.graphql_service.specs.PlainRequests.{TakesStandIn};
ghost use Rattle.graphql_stores.specs.Allowed.{IsAllowed};
ghost use Rattle.graphql_stores_tests.specs.Stored.{StoredIsAnsweredSo, asked_for};

use graphql_executor::{GraphQLMutationValue, Meaning, Resolving, Response, execute_sync};
use graphql_field_results::ExecutionError;
use graphql_lines::GraphQLRequest;
use graphql_plain_requests::laws::plain_texts_are_one;
use graphql_plain_requests::{PlainError, operation_name_of, plain_request};
use graphql_schema::{RootNode, SchemaScalar};
use graphql_service::{Service, ServiceFault};
use graphql_stores::AllowedQueries;
use graphql_stores::laws::{stored_texts_are_allowed, stored_texts_stand_for_requests};
use std::alloc::Global;

/// The plain text of a request, exactly where a store allows the request: asked in the request's
/// place the text is allowed too. Errors are those of [`plain_request`].
pub fn stored_text<S: SchemaScalar + Drop>(
    alloc: Global,
    request: &GraphQLRequest<S>,
    root_node: &RootNode<S>,
    limit: usize,
    store: &AllowedQueries,
) -> Result<Option<String>, PlainError>
    ensures exactly { IfOk result (λ found. IsSome found
        ↔ IsAllowed ⟦<S as Meaning>⟧.meaning store.now limit
        (asked_of root_node.now request.now)) }
    ensures plain { IfOk result (λ found. IfSome found
        (λ text. IsPlainTextWithin ⟦<S as Meaning>⟧.meaning (asked_of root_node.now request.now)
        limit (string_bytes text))) }
    ensures allowed { TakesStandIn ⟦<S as Meaning>⟧.meaning root_node.now.schema
        → IfOk result (λ found. IfSome found
        (λ text. IsAllowed ⟦<S as Meaning>⟧.meaning store.now limit
        (asked_for root_node.now request.now (string_bytes text)))) }
{
    plain_texts_are_one::<S>();
    stored_texts_are_allowed(root_node);
    // A `&str` is known to be UTF-8, as the law asks of the request's text.
    let _query = request.query.as_str();
    let text = plain_request(alloc, request, root_node, limit)?;
    if store.allows(text.as_str()) {
        Ok(Some(text))
    } else {
        Ok(None)
    }
}

/// What a request is answered, exactly where a store allows it: a text of the store is then allowed
/// in the request's place, and answered so.
///
/// Errors are those of [`plain_request`], and want of memory while it is executed.
pub fn answered_as_stored<S: SchemaScalar + Drop, R: GraphQLMutationValue<S>>(
    alloc: Global,
    request: &GraphQLRequest<S>,
    root_node: &RootNode<S>,
    resolver: &R,
    limit: usize,
    store: &AllowedQueries,
    context: &mut R::Context,
) -> Result<Option<Response<S>>, PlainError>
    ensures exactly { IfOk result (λ found. IsSome found
        ↔ IsAllowed ⟦<S as Meaning>⟧.meaning store.now limit
        (asked_of root_node.now request.now)) }
    ensures alike { TakesStandIn ⟦<S as Meaning>⟧.meaning root_node.now.schema
        → IfOk result (λ found. IfSome found
        (λ answer. StoredIsAnsweredSo ⟦<S as Meaning>⟧.meaning root_node.now
        (⟦<R as Resolving<S>>⟧.resolving resolver.now) store.now limit request.now
        ⟦<ExecutionError<S> as Ord>⟧.cmp context.old answer.0 answer.1 context.new)) }
{
    plain_texts_are_one::<S>();
    stored_texts_stand_for_requests(root_node, resolver);
    let name = operation_name_of(request);
    let query = request.query.as_str();
    let values = &request.variables;
    let plain = plain_request(alloc, request, root_node, limit)?;
    if !store.allows(plain.as_str()) {
        return Ok(None);
    }
    let answer = execute_sync(alloc, query, name, root_node, resolver, values, context)?;
    Ok(Some(answer))
}

/// How long the lines of a service may be, in bytes.
pub const LINE_LIMIT: usize = 65_536;

/// How many fields and inline fragments a plain text may have.
pub const SELECTION_LIMIT: usize = 10_000;

/// The plain text of a request over a service, exactly where a store allows the request: asked in
/// the request's place the text is allowed too. An error is that of `Service::new`, or within it
/// that of [`stored_text`].
pub fn stored_text_of_service<S: SchemaScalar + Drop, R: GraphQLMutationValue<S>>(
    alloc: Global,
    request: &GraphQLRequest<S>,
    root_node: RootNode<S>,
    resolver: R,
    context: R::Context,
    store: &AllowedQueries,
) -> Result<Result<Option<String>, PlainError>, ServiceFault>
where
    R: Drop,
    R::Context: Drop,
    ensures exactly { IfOk result (λ asked. IfOk asked (λ found. IsSome found
        ↔ IsAllowed ⟦<S as Meaning>⟧.meaning store.now SELECTION_LIMIT
        (asked_of root_node request.now))) }
    ensures plain { IfOk result (λ asked. IfOk asked (λ found. IfSome found
        (λ text. IsPlainTextWithin ⟦<S as Meaning>⟧.meaning (asked_of root_node request.now)
        SELECTION_LIMIT (string_bytes text)))) }
    ensures allowed { IfOk result (λ asked. IfOk asked (λ found. IfSome found
        (λ text. IsAllowed ⟦<S as Meaning>⟧.meaning store.now SELECTION_LIMIT
        (asked_for root_node request.now (string_bytes text))))) }
{
    let service = Service::new(root_node, resolver, context, LINE_LIMIT, SELECTION_LIMIT)?;
    let root = service.root_node();
    Ok(stored_text(alloc, request, root, SELECTION_LIMIT, store))
}

/// What a request is answered by the parts of a service on a context, exactly where a store allows
/// it: a text of the store is then allowed in the request's place, and answered so. The service is
/// made over a context of its own. An error is that of `Service::new`, or within it that of
/// [`answered_as_stored`].
pub fn answered_as_stored_by_service<S: SchemaScalar + Drop, R: GraphQLMutationValue<S>>(
    alloc: Global,
    request: &GraphQLRequest<S>,
    root_node: RootNode<S>,
    resolver: R,
    own: R::Context,
    store: &AllowedQueries,
    context: &mut R::Context,
) -> Result<Result<Option<Response<S>>, PlainError>, ServiceFault>
where
    R: Drop,
    R::Context: Drop,
    ensures exactly { IfOk result (λ asked. IfOk asked (λ found. IsSome found
        ↔ IsAllowed ⟦<S as Meaning>⟧.meaning store.now SELECTION_LIMIT
        (asked_of root_node request.now))) }
    ensures alike { IfOk result (λ asked. IfOk asked (λ found. IfSome found
        (λ answer. StoredIsAnsweredSo ⟦<S as Meaning>⟧.meaning root_node
        (⟦<R as Resolving<S>>⟧.resolving resolver) store.now SELECTION_LIMIT request.now
        ⟦<ExecutionError<S> as Ord>⟧.cmp context.old answer.0 answer.1 context.new))) }
{
    let service = Service::new(root_node, resolver, own, LINE_LIMIT, SELECTION_LIMIT)?;
    let root = service.root_node();
    let by = service.resolver();
    Ok(answered_as_stored(alloc, request, root, by, SELECTION_LIMIT, store, context))
}
