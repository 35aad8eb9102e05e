//! Laws of answers and of plain texts: each function's contract is a law, and its body asks for the
//! laws below it. Those that it gives on say of each rule that it finds no fault in a plain text
//! where it finds none in the request (`.._stay_..`), of the fields of plain sets that they are
//! those of the sets (`fields_of_plain`), and of requests at which step they are refused
//! (`refusals_have_steps`).

ghost use Rattle.std.specs.Prelude.{◌⊎◌};
ghost use Rattle.graphql_names.specs.Names.{Bytes};
ghost use Rattle.graphql_plain_requests.specs.Laws.{PlainRequestsStay};
ghost use Rattle.graphql_service.specs.TokenLaws.{SameTokensSameAnswer};
ghost use Rattle.graphql_service.specs.JoinLaws.{JoinOfTwoSets, PartsOfQueriesJoin};
ghost use Rattle.graphql_service.specs.MeaningLaws.{PlainIsAnsweredAlike, PlainMeansTheSame};
ghost use Rattle.graphql_service.specs.Answers.{IsAnswer, answerer_of};
ghost use Rattle.graphql_service.specs.ApartLaws.{LinesAreAnsweredApart, QueriesLeaveTheContext};
ghost use Rattle.graphql_service.specs.FittingLines.{IsFittingLine, IsRefusalLine};
ghost use Rattle.graphql_service.specs.Laws.{DataHaveDistinctKeys, IsLineOfDistinctKeys};
ghost use Rattle.graphql_service.specs.declared.service.Service.{Service};

use crate::answered_by::Answering;
use crate::service::Service;
use graphql_answers::laws::answers_have_distinct_keys;
use graphql_execution_walk::Asked;
use graphql_executor::laws::answers_fit;
pub use graphql_executor::laws::{
    answers_are_one, executable_requests_are_not_refused, one_operation_is_executed,
    refusals_have_steps,
};
use graphql_executor::{GraphQLMutationValue, Meaning, Resolving};
pub use graphql_joins::laws::default_scalars_answer_alike;
use graphql_joins::laws::{parts_join, queries_stand};
use graphql_mutation::laws::runs_have_distinct_keys;
use graphql_plain_answers::laws::resolvers_are_lawful;
pub use graphql_plain_answers::laws::{fields_of_plain, plain_gives_the_same};
use graphql_plain_requests::laws::plain_requests_stay;
pub use graphql_plain_requests::laws::{
    arguments_stay_conforming, arguments_stay_declared, arguments_stay_distinct,
    arguments_stay_provided, conditions_stay_composite, defaults_stay_conforming,
    directives_are_placed, fields_stay_declared, fields_stay_merging, input_fields_stay_distinct,
    leaves_stay_without_sets, named_types_stay_known, no_spread_is_left,
    nothing_is_introspected_still, one_operation_is_left, plain_requests_are_not_refused,
    plain_texts_are_accepted, plain_texts_are_documents, plain_texts_are_one,
    spreads_stay_possible, uses_stay_allowed, uses_stay_defined, variable_names_stay_distinct,
    variables_stay_of_input_types, variables_stay_used,
};
use graphql_schema::{RootNode, SchemaScalar};
use graphql_semantics::laws::{data_have_distinct_keys, failures_tell_distinct_keys};

/// Each object in an answer line has distinct keys, however deep (GraphQL October 2021, 7.2.2
/// Serialized Map Ordering).
pub fn answer_lines_have_distinct_keys<'d, S: SchemaScalar + 'd, R: GraphQLMutationValue<S>>()
where
    R::Node: 'd,
    ensures { (service : Service S R R.Context S.Check) (line answered : Bytes)
        (old new : R.Context)
        → let a = answerer_of ⟦<R as Answering<S>>⟧.answering service in
        IsAnswer a line old answered new → IsLineOfDistinctKeys answered }
{
    answers_have_distinct_keys::<S>();
    data_have_distinct_keys::<S, Asked<'d, S, R::Node>>();
    failures_tell_distinct_keys::<S, Asked<'d, S, R::Node>>();
    runs_have_distinct_keys::<S, Asked<'d, S, R::Node>, R::Context>();
}

/// Each object in the data that a request is answered has distinct keys, however deep, as calls ask
/// it that join data (GraphQL October 2021, 7.2.2 Serialized Map Ordering).
pub fn answered_data_have_distinct_keys<'d, S: SchemaScalar + 'd, R: GraphQLMutationValue<S>>(
    resolver: &R,
)
where
    R::Node: 'd,
    ensures { DataHaveDistinctKeys ⟦<S as Meaning>⟧.meaning
        (⟦<R as Resolving<S>>⟧.resolving resolver.now) }
{
    data_have_distinct_keys::<S, Asked<'d, S, R::Node>>();
    failures_tell_distinct_keys::<S, Asked<'d, S, R::Node>>();
    runs_have_distinct_keys::<S, Asked<'d, S, R::Node>, R::Context>();
}

/// An answer line is that of a refusal; or its data fit what the request's operation selects, so
/// that no null stands at a place that is declared without null, and there is an error exactly
/// where something fails (GraphQL October 2021, 6.4.4 Handling Field Errors).
pub fn answer_lines_fit<'d, S: SchemaScalar + 'd, R: GraphQLMutationValue<S>>()
where
    R::Node: 'd,
    ensures { (service : Service S R R.Context S.Check) (line answered : Bytes)
        (old new : R.Context)
        → let a = answerer_of ⟦<R as Answering<S>>⟧.answering service in
        IsAnswer a line old answered new
        → IsRefusalLine a line old answered
        ⊎ IsFittingLine a line old answered }
{
    answers_fit::<'d, S, R>();
}

/// Where a request is answered by a service's parts on a context, and so is its plain text with the
/// same operation name and the same values for variables, the data are the same, there are errors
/// in both answers or in neither, and the same context is left (GraphQL October 2021, 7.1 Response
/// Format). That the plain text is executed in the request's place is a clause of
/// [`Service::plain`].
pub fn plain_means_the_same<S: SchemaScalar, R: GraphQLMutationValue<S>>(
    service: &Service<S, R, R::Context>,
)
    ensures { PlainMeansTheSame ⟦<S as Meaning>⟧.meaning service.now.root_node
        (⟦<R as Resolving<S>>⟧.resolving service.now.resolver) }
{
    crate::meaning::plain_means_the_same(&service.root_node, &service.resolver);
}

/// What a service's parts answer to a request without errors they answer to its plain text too,
/// asked on the same context with the same operation name and the same values for the variables
/// that the plain text uses, whatever other values there are, and the other way round. So an answer
/// may be kept for all requests of one plain text. For this the schema takes the stand-in, of which
/// [`Service::new`] tells (GraphQL October 2021, 6.1.2 Coercing Variable Values, 7.1 Response
/// Format).
pub fn plain_is_answered_alike<S: SchemaScalar, R: GraphQLMutationValue<S>>(
    service: &Service<S, R, R::Context>,
)
    ensures { PlainIsAnsweredAlike ⟦<S as Meaning>⟧.meaning service.now.root_node
        (⟦<R as Resolving<S>>⟧.resolving service.now.resolver) }
{
    crate::meaning::plain_is_answered_alike(&service.root_node, &service.resolver);
}

/// The lines of two texts with a line feed between them are answered as those of the one, and then,
/// on the context that they left, those of the other; and lines none of which asks for a mutation
/// leave the context. So lines of queries may be given to several services of the same parts, each
/// of which answers its lines on the context of the beginning (GraphQL October 2021, 6.2.1 Query,
/// 6.2.2 Mutation).
pub fn queries_leave_the_context<S: SchemaScalar, R: GraphQLMutationValue<S>>(
    service: &Service<S, R, R::Context>,
)
    ensures apart { LinesAreAnsweredApart
        (answerer_of ⟦<R as Answering<S>>⟧.answering service.now) }
    ensures leave { QueriesLeaveTheContext
        (answerer_of ⟦<R as Answering<S>>⟧.answering service.now) }
{}

/// A plain text within a limit, asked again with the same operation name, the same values for
/// variables and the same limit, has itself as its plain text, byte for byte, and no other, and is
/// refused by nothing but want of memory. For this the schema takes the stand-in, of which
/// [`Service::new`] tells (GraphQL October 2021, 2.1.7 Ignored Tokens).
pub fn plain_again_is_the_same<S: SchemaScalar>(root_node: &RootNode<S>)
    ensures { PlainRequestsStay ⟦<S as Meaning>⟧.meaning root_node.now }
{
    plain_requests_stay(root_node);
}

/// Requests with one operation name and the same values for variables, whose texts have the same
/// tokens, are refused at the same step; or else both are executed: answered on one context by a
/// service's parts they have the same data, errors in both or in neither, and leave the same
/// context, and they have the same plain text within each limit (GraphQL October 2021, 2.1.7
/// Ignored Tokens, 7.1 Response Format).
pub fn same_tokens_same_answer<S: SchemaScalar, R: GraphQLMutationValue<S>>(
    service: &Service<S, R, R::Context>,
)
    ensures { SameTokensSameAnswer ⟦<S as Meaning>⟧.meaning service.now.root_node
        (⟦<R as Resolving<S>>⟧.resolving service.now.resolver) }
{
    crate::meaning::same_tokens_same_answer(&service.root_node, &service.resolver);
}

/// Where selections stand one behind the other in a selection set of a valid document, the data
/// that both give on a node, for an object type that is possible there, are the join of the data
/// that each part gives there, by the same final values of variables: null with anything is null,
/// objects are joined key by key with new keys last, lists item by item, and a scalar with the same
/// scalar is it (GraphQL October 2021, 5.3.2 Field Selection Merging, 6.3 Executing Selection
/// Sets). Nothing is said of errors.
///
/// Scalars that are the same are to answer the same, as those of the default type do
/// ([`default_scalars_answer_alike`]): fields merge by the equality of scalars, and what
/// introspection tells goes by what they answer.
pub fn join_of_two_sets<S: SchemaScalar, R: GraphQLMutationValue<S>>(
    service: &Service<S, R, R::Context>,
)
    ensures { JoinOfTwoSets ⟦<S as Meaning>⟧.meaning service.now.root_node
        (⟦<R as Resolving<S>>⟧.resolving service.now.resolver) }
{
    resolvers_are_lawful::<S, R>(&service.resolver);
    parts_join::<S, R::Node>();
}

/// A query of a valid document is answered the join of what it is answered with a beginning of its
/// selections alone and with the rest alone, by the same values for variables and on the same
/// context, where scalars that are the same answer the same (GraphQL October 2021, 6.2.1 Query).
pub fn parts_of_queries_join<S: SchemaScalar, R: GraphQLMutationValue<S>>(
    service: &Service<S, R, R::Context>,
)
    ensures { PartsOfQueriesJoin ⟦<S as Meaning>⟧.meaning service.now.root_node
        (⟦<R as Resolving<S>>⟧.resolving service.now.resolver) }
{
    queries_stand::<S, S::Check>();
    join_of_two_sets(service);
}
