//! What a resolver answers and changes, by one word for contracts.

use graphql_mutation::GraphQLMutationValue;
use graphql_schema::SchemaScalar;

/// What a resolver answers and changes. Each resolver of queries and mutations has it.
pub trait Resolving<S: SchemaScalar>: GraphQLMutationValue<S> {
    ghost use Rattle.graphql_executor.specs.Resolvers.{Resolver};

    /// What it answers and changes.
    ghost resolving: { Self → Resolver S Self.Node Self.Context };
}

impl<S: SchemaScalar, R: GraphQLMutationValue<S>> Resolving<S> for R {
    ghost resolving = { λ r. record {
      root = R.root_node r;
      type_of = R.type_of r;
      answer = R.answer r;
      changes = R.changes r;
    } };
}
