//! Resolvers that have no mutations.

ghost use Rattle.std.specs.Prelude.{◌≡◌};

use crate::mutation_value::GraphQLMutationValue;
use graphql_arguments::Arguments;
use graphql_execution_walk::{Executor, GraphQLValue};
use graphql_field_results::{FieldResult, Resolved};
use graphql_schema::SchemaScalar;
use std::alloc::Global;

/// A resolver for a schema without a mutation type, where queries alone are executed and the root
/// of no mutation is asked: it answers what the one that it holds does, and for each field of a
/// mutation's root null, of which the context stays as it was.
#[derive(Drop)]
pub struct WithoutMutations<R> {
    /// What queries are answered by.
    pub resolver: R,
}

impl<S: SchemaScalar, R: GraphQLValue<S>> GraphQLValue<S> for WithoutMutations<R> {
    type Context = R::Context;

    type Node = R::Node;

    ghost root_node = { λ r. R.root_node r.resolver };

    ghost type_of = { λ r. R.type_of r.resolver };

    ghost answer = { λ r. R.answer r.resolver };

    ghost respects = { λ r. R.respects r.resolver };

    ghost tells_distinct_keys = { λ r. R.tells_distinct_keys r.resolver };

    fn root(&self) -> R::Node {
        self.resolver.root()
    }

    fn concrete_type_name<'c>(&'c self, context: &'c R::Context, node: &'c R::Node) -> &'c str {
        self.resolver.concrete_type_name(context, node)
    }

    fn resolve_field(
        &self,
        node: &R::Node,
        field: &str,
        arguments: &Arguments<'_, S>,
        executor: &Executor<'_, '_, '_, R::Context, S>,
    ) -> FieldResult<Resolved<S, R::Node>, S> {
        self.resolver
            .resolve_field(node, field, arguments, executor)
    }
}

impl<S: SchemaScalar, R: GraphQLValue<S>> GraphQLMutationValue<S> for WithoutMutations<R> {
    ghost use Rattle.std.specs.Prelude.{Ok, refl};
    ghost use Rattle.graphql_field_results.specs.declared.resolved.Resolved.TheVariants as resolved;

    ghost changes = { λ _. record { answer = λ _ _ _. Ok resolved.Null; after = λ c _ _. c } };

    ghost respects_root = { λ _ _ _ _ _ _. (refl, refl) };

    ghost root_tells_distinct_keys = { λ _ _ _ _. record { beside = tt } };

    fn resolve_root(
        &self,
        _alloc: Global,
        _context: &mut R::Context,
        _field: &str,
        _arguments: &Arguments<'_, S>,
    ) -> FieldResult<Resolved<S, R::Node>, S> {
        Ok(Resolved::Null)
    }
}
