//! Resolvers for schemas without a mutation type.

ghost use Rattle.std.specs.Prelude.{◌≡◌};

use crate::answer::Answer;
use crate::answers::null;
use crate::given::Given;
use crate::mutation_resolver::MutationResolver;
use crate::resolver::Resolver;
use std::alloc::Global;

/// A resolver for a schema without a mutation type, where the root of no mutation is asked: it
/// answers what the one that it holds does, and for each field of a mutation's root `null`, of
/// which the context stays as it was.
#[derive(Drop)]
pub struct QueriesOnly<R> {
    /// What queries are answered by.
    pub resolver: R,
}

impl<R: Resolver> Resolver for QueriesOnly<R> {
    type Context = R::Context;

    type Node = R::Node;

    ghost root_node = { λ r. R.root_node r.resolver };

    ghost type_of = { λ r. R.type_of r.resolver };

    ghost answer = { λ r. R.answer r.resolver };

    fn root(&self) -> R::Node {
        self.resolver.root()
    }

    fn type_name<'c>(&'c self, context: &'c R::Context, node: &'c R::Node) -> &'c str {
        self.resolver.type_name(context, node)
    }

    fn resolve(
        &self,
        alloc: Global,
        context: &R::Context,
        node: &R::Node,
        field: &str,
        given: &Given<'_>,
    ) -> Answer<R::Node> {
        self.resolver.resolve(alloc, context, node, field, given)
    }
}

impl<R: Resolver> MutationResolver for QueriesOnly<R> {
    ghost use Rattle.graphql_resolvers.specs.Answers as answers;

    ghost change_answer = { λ _ _ _ _. answers.null };

    ghost change_after = { λ _ context _ _. context };

    fn change(
        &self,
        _alloc: Global,
        _context: &mut R::Context,
        _field: &str,
        _given: &Given<'_>,
    ) -> Answer<R::Node> {
        null()
    }
}
