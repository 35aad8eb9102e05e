//! What evaluation asks where an executor stands, by one word for contracts.

use crate::graphql_value::GraphQLValue;
use graphql_schema::SchemaScalar;

/// What evaluation asks where an executor stands (GraphQL October 2021, 6.4 Executing Fields). Each
/// resolver has it.
pub trait Evaluating<S: SchemaScalar>: GraphQLValue<S> {
    ghost use Rattle.graphql_execution_walk.specs.Evaluations.{Evaluation};
    ghost use Rattle.graphql_execution_walk.specs.declared.asked.Asked.{Asked};
    ghost use Rattle.graphql_execution_walk.specs.declared.executor.Executor.{Executor};

    /// What it asks there.
    ghost here: { Self → Executor Self.Context S S.Check
        → Evaluation S (Asked S Self.Node S.Check) };
}

impl<S: SchemaScalar, R: GraphQLValue<S>> Evaluating<S> for R {
    ghost use Rattle.graphql_execution_walk.specs.Evaluations.{evaluation_at};

    ghost here = { λ resolver executor. evaluation_at S.of_text S.of_bool S.answer
        (R.root_node resolver) (R.type_of resolver) (R.answer resolver) executor };
}
