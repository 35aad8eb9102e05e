//! What resolvers are.

use crate::executor::Executor;
use graphql_arguments::Arguments;
use graphql_field_results::{FieldResult, Resolved};
use graphql_schema::SchemaScalar;

/// What answers the fields of a schema's objects (GraphQL October 2021, 6.4.2 Value Resolution). An
/// answer is a function of the context, the node, the field and the argument values, and depends on
/// nothing else: not on the order in which arguments are written, nor on where in a document an
/// argument's value stands, nor on what was asked before. What is told beside an error has distinct
/// keys.
pub trait GraphQLValue<S: SchemaScalar> {
    /// What it answers from.
    type Context;

    /// What fields are asked of.
    type Node: Drop;

    ghost use Rattle.std.specs.Prelude.{◌≡◌, ℕ, List, Result};
    ghost use Rattle.graphql_arguments.specs.ArgumentValues.{Given};
    ghost use Rattle.graphql_arguments.specs.GivenValues.{arguments_told};
    ghost use Rattle.graphql_execution_walk.specs.Standing.{IsAsked, IsSettled};
    ghost use Rattle.graphql_field_results.specs.declared.resolved.Resolved.{Resolved};
    ghost use Rattle.graphql_field_results.specs.declared.field_error.FieldError.{FieldError};
    ghost use Rattle.graphql_execution_walk.specs.Answered.{Answered, SameArguments};
    ghost use Rattle.graphql_execution_walk.specs.Answered.{TellsInDistinctKeys};

    /// The node from which a query starts.
    ghost root_node: { Self → Self.Node };

    /// The name of a node's object type.
    ghost type_of: { Self → Self.Context → Self.Node → List ℕ };

    /// What it answers for a field of a node.
    ghost answer: { Self → Self.Context → Self.Node → List ℕ → Given S
        → Result (Resolved S Self.Node) (FieldError S) };

    /// The node from which a query starts.
    fn root(&self) -> Self::Node
        ensures { result ≡ root_node self.now };

    /// The name of a node's object type.
    fn concrete_type_name<'c>(&'c self, context: &'c Self::Context, node: &'c Self::Node) -> &'c str
        ensures { result.now ≡ type_of self.now context.now node.now };

    /// What it answers for a field of a node. The executor stands at a field of this name of the
    /// node's object type, over a request whose fragments are without a cycle: its current type is
    /// the one declared for the field, its start and its response keys are the field's, it selects
    /// from the objects of the answer what the field does, and its `look_ahead` finds a field of
    /// the same key. The argument values are the field's. `FieldFault::Memory` is want of memory,
    /// and tells nothing.
    fn resolve_field(
        &self,
        node: &Self::Node,
        field: &str,
        arguments: &Arguments<'_, S>,
        executor: &Executor<'_, '_, '_, Self::Context, S>,
    ) -> FieldResult<Resolved<S, Self::Node>, S>
        requires settled { IsSettled executor.now }
        requires asked { IsAsked executor.now (root_node self.now)
            (type_of self.now executor.now.context.now) node.now
            field.now (arguments_told arguments.now) }
        ensures { Answered (answer self.now executor.now.context.now node.now field.now
            (arguments_told arguments.now)) result };

    /// To arguments that are the same under each name, in whichever order and wherever they stand,
    /// it gives one answer.
    ghost respects: { (r : Self) (c : Self.Context) (n : Self.Node) (f : List ℕ) (a b : Given S)
        → SameArguments S.eq a b → answer r c n f a ≡ answer r c n f b };

    /// Where it answers an error, what is told beside the reason has distinct keys, however deep
    /// (GraphQL October 2021, 7.2.2 Serialized Map Ordering), as each value has that is made by way
    /// of objects: what takes arguments' values over meets it by `Object::add_field`.
    ghost tells_distinct_keys: { (r : Self) (c : Self.Context) (n : Self.Node) (f : List ℕ)
        (a : Given S) → TellsInDistinctKeys (answer r c n f a) };
}
