//! Laws of what plain texts of requests mean, and texts of the same tokens: each function's
//! contract is a law, and its body asks for the laws below it.

ghost use Rattle.graphql_service.specs.MeaningLaws.{PlainIsAnsweredAlike, PlainIsAnsweredToo};
ghost use Rattle.graphql_service.specs.MeaningLaws.{PlainMeansTheSame};
ghost use Rattle.graphql_service.specs.TokenLaws.{SameTokensSameAnswer};
ghost use Rattle.graphql_service.specs.Yields.{PlainOperationsYieldAlike, PlainRunsAreAlike};

use graphql_executor::Resolving;
use graphql_mutation::GraphQLMutationValue;
use graphql_plain_answers::laws::{
    plain_document_is_plain, plain_documents_answer_alike, resolvers_are_lawful,
    same_documents_answer_alike,
};
use graphql_plain_requests::laws::{
    plain_texts_are_accepted, plain_texts_are_documents, same_tokens_are_asked_alike,
    unused_values_are_not_asked, valid_alike,
};
use graphql_requests::laws::one_operation_is_executed;
use graphql_schema::{Meaning, RootNode, SchemaScalar};

/// An operation and the operation of its plain document give the same value, and the same failures
/// but for their places, and leave the same context, at the root of queries and at that of
/// mutations, over each schema and each resolver that keeps its laws. The plain document is one
/// that is the plain operation's but for places. This holds where no inline fragment of the first
/// operation has an empty set, and a field a set exactly where one was written.
pub fn plain_runs_are_alike<S: SchemaScalar, N, X>()
    ensures { PlainRunsAreAlike ⟦<S as Meaning>⟧.meaning N X }
{
    plain_documents_answer_alike::<S, S::Check, N, X>();
}

/// Where both are executed on one context, the same data are answered, there are errors in both
/// answers or in neither, and the same context is left.
pub fn plain_operations_yield_alike<S: SchemaScalar, N, X>()
    ensures { PlainOperationsYieldAlike ⟦<S as Meaning>⟧.meaning N X }
{
    plain_runs_are_alike::<S, N, X>();
    plain_document_is_plain::<S>();
}

/// Where a request is answered, and its plain text is answered on the same context, with the same
/// operation name and the same values for variables, the data are the same, there are errors in
/// both answers or in neither, and the same context is left. That it can be answered is the law
/// `plain_texts_are_accepted` of `graphql_plain_requests`.
pub fn plain_means_the_same<S: SchemaScalar, R: GraphQLMutationValue<S>>(
    root_node: &RootNode<S>,
    resolver: &R,
)
    ensures { PlainMeansTheSame ⟦<S as Meaning>⟧.meaning root_node.now
        (⟦<R as Resolving<S>>⟧.resolving resolver.now) }
{
    plain_texts_are_documents(root_node);
    one_operation_is_executed::<S>();
    resolvers_are_lawful::<S, R>(resolver);
    plain_operations_yield_alike::<S, R::Node, R::Context>();
}

/// What is answered without errors to a request is answered to its plain text too, asked on the
/// same context with the same operation name and the same values for the variables that the plain
/// text uses, whatever other values there are, and the other way round: evaluation is a function,
/// so an answer is there (GraphQL October 2021, 6.1.2 Coercing Variable Values).
pub fn plain_is_answered_alike<S: SchemaScalar, R: GraphQLMutationValue<S>>(
    root_node: &RootNode<S>,
    resolver: &R,
)
    ensures { PlainIsAnsweredAlike ⟦<S as Meaning>⟧.meaning root_node.now
        (⟦<R as Resolving<S>>⟧.resolving resolver.now) }
{
    plain_texts_are_accepted(root_node);
    unused_values_are_not_asked::<S>();
    one_operation_is_executed::<S>();
    resolvers_are_lawful::<S, R>(resolver);
    plain_runs_are_alike::<S, R::Node, R::Context>();
    plain_document_is_plain::<S>();
}

/// What is answered without errors to a request is answered to its plain text too, asked on the
/// same context with the same operation name and the same values for variables, and the other way
/// round.
pub fn plain_is_answered_too<S: SchemaScalar, R: GraphQLMutationValue<S>>(
    root_node: &RootNode<S>,
    resolver: &R,
)
    ensures { PlainIsAnsweredToo ⟦<S as Meaning>⟧.meaning root_node.now
        (⟦<R as Resolving<S>>⟧.resolving resolver.now) }
{
    plain_is_answered_alike(root_node, resolver);
}

/// Requests with one operation name and the same values for variables, whose texts have the same
/// tokens, are refused at the same step; or else both are executed: answered on one context they
/// have the same data, errors in both or in neither, and leave the same context, and they have the
/// same plain text within each limit (GraphQL October 2021, 2.1.7 Ignored Tokens, 7.1 Response
/// Format).
pub fn same_tokens_same_answer<S: SchemaScalar, R: GraphQLMutationValue<S>>(
    root_node: &RootNode<S>,
    resolver: &R,
)
    ensures { SameTokensSameAnswer ⟦<S as Meaning>⟧.meaning root_node.now
        (⟦<R as Resolving<S>>⟧.resolving resolver.now) }
{
    valid_alike::<S>();
    same_tokens_are_asked_alike(root_node);
    one_operation_is_executed::<S>();
    resolvers_are_lawful::<S, R>(resolver);
    same_documents_answer_alike::<S, S::Check, R::Node, R::Context>();
}
