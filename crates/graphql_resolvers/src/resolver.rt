//! Resolvers that owe no law.

use crate::answer::Answer;
use crate::given::Given;
use std::alloc::Global;

/// What answers the fields of a schema's objects (GraphQL October 2021, 6.4.2 Value Resolution). An
/// answer is a function of the context, the node, the field, and what is given under each
/// argument's name. That is said once, by `answer`, and there is no law
/// to prove. A service takes it in a `SimpleResolver`.
pub trait Resolver {
    /// What it answers from.
    type Context;

    /// What fields are asked of.
    type Node: Drop;

    ghost use Rattle.std.specs.Prelude.{◌≡◌, ℕ, List};
    ghost use Rattle.graphql_resolvers.specs.Answers as answers;
    ghost use Rattle.graphql_resolvers.specs.Given.{Inputs, given_to};

    /// The node from which a query starts.
    ghost root_node: { Self → Self.Node };

    /// The name of a node's object type.
    ghost type_of: { Self → Self.Context → Self.Node → List ℕ };

    /// What it answers for a field of a node, or the reason of an error.
    ghost answer: { Self → Self.Context → Self.Node → List ℕ → Inputs → answers.Answer Self.Node };

    /// The node from which a query starts.
    fn root(&self) -> Self::Node
        ensures { result ≡ root_node self.now };

    /// The name of a node's object type.
    fn type_name<'c>(&'c self, context: &'c Self::Context, node: &'c Self::Node) -> &'c str
        ensures { result.now ≡ type_of self.now context.now node.now };

    /// What it answers for a field of a node. `Failure::Memory` is want of memory, and tells
    /// nothing.
    fn resolve(
        &self,
        alloc: Global,
        context: &Self::Context,
        node: &Self::Node,
        field: &str,
        given: &Given<'_>,
    ) -> Answer<Self::Node>
        ensures { let wanted =
            answer self.now context.now node.now field.now (given_to given.now) in
            answers.Answers wanted result };
}
