//! Laws of requests: each function's contract is a law, and its body asks for the laws below it.

ghost use Rattle.graphql_executor.specs.Laws.{AnswersAreOne, AnswersFit};

use graphql_execution_walk::Asked;
use graphql_mutation::GraphQLMutationValue;
use graphql_mutation::laws::{run_failures_are_exact, runs_fit, runs_without_data_fail};
pub use graphql_requests::laws::{
    executable_requests_are_not_refused, one_operation_is_executed, refusals_have_steps,
};
use graphql_schema::{Meaning, SchemaScalar};
use graphql_semantics::laws::{data_fit, failures_are_exact, no_data_fails};

/// Two answers to one request, over one resolver and one context, have the same data, and leave the
/// same context.
pub fn answers_are_one<S: SchemaScalar, R: GraphQLMutationValue<S>>()
    ensures { AnswersAreOne ⟦<S as Meaning>⟧.meaning R.Node R.Context }
{}

/// The data that a request is answered fit what it selects, of a query and of a mutation: an object
/// has a member for each response key, in order, and at each place stands a value of the type that
/// is declared there. So no null stands at a place that is declared without null. There is an error
/// exactly where something fails, and where there are no data there is one (GraphQL October 2021,
/// 6.4.3 Value Completion, 6.4.4 Handling Field Errors).
pub fn answers_fit<'d, S: SchemaScalar + 'd, R: GraphQLMutationValue<S>>()
where
    R::Node: 'd,
    ensures { AnswersFit ⟦<S as Meaning>⟧.meaning R.Node R.Context }
{
    data_fit::<S, Asked<'d, S, R::Node>>();
    failures_are_exact::<S, Asked<'d, S, R::Node>>();
    no_data_fails::<S, Asked<'d, S, R::Node>>();
    runs_fit::<S, Asked<'d, S, R::Node>, R::Context>();
    run_failures_are_exact::<S, Asked<'d, S, R::Node>, R::Context>();
    runs_without_data_fail::<S, Asked<'d, S, R::Node>, R::Context>();
}
