//! By what services answer, by one word for contracts.

use graphql_executor::{GraphQLMutationValue, Meaning, Resolving};
use graphql_field_results::ExecutionError;
use graphql_rule_errors::RuleError;
use graphql_schema::SchemaScalar;

/// By what services over a resolver answer: what scalars mean, how errors are ordered, and what the
/// resolver answers and changes. Each resolver of queries and mutations has it.
pub trait Answering<S: SchemaScalar>: GraphQLMutationValue<S> {
    ghost use Rattle.graphql_service.specs.AnsweredBy.{AnsweredBy};

    /// By what they answer.
    ghost answering: { AnsweredBy S S.Check Self.Node Self.Context Self };
}

impl<S: SchemaScalar, R: GraphQLMutationValue<S>> Answering<S> for R {
    ghost answering = { record {
      scalars = ⟦<S as Meaning>⟧.meaning;
      by_rules = ⟦<RuleError as Ord>⟧.cmp;
      by_fields = ⟦<ExecutionError<S> as Ord>⟧.cmp;
      resolving = ⟦<R as Resolving<S>>⟧.resolving;
    } };
}
