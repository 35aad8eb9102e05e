//! Laws of what a store allows, and of answers that are kept: each function's contract is a law,
//! and its body asks for the laws below it.

ghost use Rattle.graphql_stores.specs.declared.allowed_queries.AllowedQueries.{AllowedQueries};
ghost use Rattle.graphql_names.specs.Names.{Bytes};
ghost use Rattle.graphql_service.specs.Answers.{answerer_of};
ghost use Rattle.graphql_service.specs.declared.service.Service.{Service};
ghost use Rattle.graphql_stores.specs.AllowedLaws.{
  AreToldApart,
  SameTokensAreAllowedAlike,
  StoredTextsAreAllowed,
  StoredTextsStandForRequests,
};
ghost use Rattle.graphql_stores.specs.AnswerEnds.{LinesShowErrors};
ghost use Rattle.graphql_stores.specs.Laws.{AnswersAreShared, AnswersShowErrors};
ghost use Rattle.graphql_stores.specs.Laws.{QueriesLeaveTheContext};

use graphql_executor::{Meaning, Resolving};
use graphql_plain_requests::laws::same_tokens_are_asked_alike;
use graphql_scalars::ScalarValue;
use graphql_schema::{RootNode, SchemaScalar};
use graphql_service::laws::{
    executable_requests_are_not_refused, one_operation_is_executed, plain_again_is_the_same,
    plain_requests_are_not_refused, plain_texts_are_one,
};
use graphql_service::meaning::{plain_is_answered_too, plain_means_the_same};
use graphql_service::{Answering, GraphQLMutationValue, Service};

/// A plain text that is in a store, asked as a request with the same operation name and the same
/// values for variables, is allowed. For this the schema takes the stand-in of a plain text, of
/// which `Service::new` tells (GraphQL October 2021, 2.1.7 Ignored Tokens).
pub fn stored_texts_are_allowed<S: SchemaScalar>(root_node: &RootNode<S>)
    ensures { StoredTextsAreAllowed ⟦<S as Meaning>⟧.meaning root_node.now }
{
    plain_again_is_the_same(root_node);
}

/// Requests of the same tokens, with one operation name and the same values for variables, are
/// allowed alike, whatever their blanks, commas and comments (GraphQL October 2021, 2.1.7 Ignored
/// Tokens).
pub fn same_tokens_are_allowed_alike<S: SchemaScalar>(root_node: &RootNode<S>)
    ensures { SameTokensAreAllowedAlike ⟦<S as Meaning>⟧.meaning root_node.now }
{
    same_tokens_are_asked_alike(root_node);
}

/// For each request that a store allows a text of it stands: asked in the request's place, with the
/// same operation name and the same values for variables, it is allowed, and answered on the same
/// context it has the same data, errors in both answers or in neither, and leaves the same context.
/// So it suffices to review the texts that are stored. For this the schema takes the stand-in of a
/// plain text, of which `Service::new` tells (GraphQL October 2021, 7.1 Response Format).
pub fn stored_texts_stand_for_requests<S: SchemaScalar, R: GraphQLMutationValue<S>>(
    root_node: &RootNode<S>,
    resolver: &R,
)
    ensures { StoredTextsStandForRequests ⟦<S as Meaning>⟧.meaning root_node.now
        (⟦<R as Resolving<S>>⟧.resolving resolver.now) }
{
    plain_again_is_the_same(root_node);
    plain_means_the_same(root_node, resolver);
    plain_is_answered_too(root_node, resolver);
}

/// A line asks for what a store allows, or for what it does not allow, or is refused first: never
/// two of these, so a service that answers what is allowed answers as its own service does exactly
/// there.
pub fn lines_are_told_apart<S: SchemaScalar, R: GraphQLMutationValue<S>>()
    ensures { (service : Service S R R.Context S.Check) (store : AllowedQueries) (line : Bytes)
        → let a = answerer_of ⟦<R as Answering<S>>⟧.answering service in
        AreToldApart a service.selection_limit store line }
{
    executable_requests_are_not_refused::<S>();
    plain_requests_are_not_refused::<S>();
    plain_texts_are_one::<S>();
}

/// What a service answers on a context to the line of a plain text, without errors, is its answer
/// to each line that has this plain text, with the same operation name and the same values for the
/// variables that the plain text uses; and what it answers to such a line, without errors, is its
/// answer to the line of the plain text. For this the schema takes the stand-in of a plain text, of
/// which `Service::new` tells (GraphQL October 2021, 7.1 Response Format).
pub fn answers_are_shared<S: SchemaScalar, R: GraphQLMutationValue<S>>(
    service: &Service<S, R, R::Context>,
)
    ensures { AnswersAreShared ⟦<R as Answering<S>>⟧.answering service.now }
{
    graphql_service::laws::plain_is_answered_alike(service);
}

/// The line of an answer with data begins with their key, and that of a refusal does not; where
/// there are errors beside the data, the line ends with their list (GraphQL October 2021, 7.1
/// Response Format).
pub fn lines_show_errors<S: ScalarValue>()
    ensures { LinesShowErrors S.answer }
{}

/// An answer line that does not begin with data is that of a refusal, which leaves the context; one
/// that begins with data and does not end with a list of errors is that of data without errors
/// (GraphQL October 2021, 7.1 Response Format).
pub fn answers_show_errors<S: SchemaScalar, R: GraphQLMutationValue<S>>(
    service: &Service<S, R, R::Context>,
)
    ensures { AnswersShowErrors (answerer_of ⟦<R as Answering<S>>⟧.answering service.now) }
{
    lines_show_errors::<S>();
}

/// A line whose plain text begins with the word `query` leaves the context (GraphQL October 2021,
/// 6.2.1 Query).
pub fn queries_leave_the_context<S: SchemaScalar, R: GraphQLMutationValue<S>>(
    service: &Service<S, R, R::Context>,
)
    ensures { QueriesLeaveTheContext (answerer_of ⟦<R as Answering<S>>⟧.answering service.now) }
{
    one_operation_is_executed::<S>();
}
