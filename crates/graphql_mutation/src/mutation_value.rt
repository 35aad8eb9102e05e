//! What resolvers of mutations are.

use graphql_arguments::Arguments;
use graphql_execution_walk::GraphQLValue;
use graphql_field_results::{FieldResult, Resolved};
use graphql_schema::SchemaScalar;
use std::alloc::Global;

/// What answers the fields of a mutation's root, and changes the context (GraphQL October 2021,
/// 6.2.2 Mutation). The answer, and the context after, are functions of the context, the field and
/// the argument values, and depend on nothing else. What is told beside an error has distinct keys.
pub trait GraphQLMutationValue<S: SchemaScalar>: GraphQLValue<S> {
    ghost use Rattle.std.specs.Prelude.{◌≡◌, ℕ, List};
    ghost use Rattle.graphql_arguments.specs.ArgumentValues.{Given};
    ghost use Rattle.graphql_arguments.specs.GivenValues.{arguments_told};
    ghost use Rattle.graphql_arguments.specs.SameArguments.{SameInOrder};
    ghost use Rattle.graphql_field_results.specs.Answered.{Answered, Leaves, TellsInDistinctKeys};
    ghost use Rattle.graphql_mutation.specs.Mutations.{Changes};

    /// What it answers for a field of a mutation's root, and the context after.
    ghost changes: { Self → Changes S Self.Node Self.Context };

    /// What it answers for a field of a mutation's root; it may change the context, also where the
    /// answer is an error. It is called once for each response key of the root, in order, and no
    /// more where a `null` has reached the root. `FieldFault::Memory` is want of memory: it tells
    /// nothing, and leaves the context as it was.
    fn resolve_root(
        &self,
        alloc: Global,
        context: &mut Self::Context,
        field: &str,
        arguments: &Arguments<'_, S>,
    ) -> FieldResult<Resolved<S, Self::Node>, S>
        ensures answer { let given = arguments_told arguments.now in
            Answered ((changes self.now).answer context.old field.now given) result }
        ensures after { let given = arguments_told arguments.now in
            Leaves context.old ((changes self.now).after context.old field.now given) result
            context.new };

    /// To arguments that are the same in one order, wherever they stand, it gives one answer, and
    /// leaves one context. It may go by their order: which of several arguments it refuses first,
    /// say.
    ghost respects_root: { (r : Self) (c : Self.Context) (f : List ℕ) (a b : Given S)
        → SameInOrder S.eq a b
        → ((changes r).answer c f a ≡ (changes r).answer c f b)
        × ((changes r).after c f a ≡ (changes r).after c f b) };

    /// Where it answers an error, what is told beside the reason has distinct keys, however deep
    /// (GraphQL October 2021, 7.2.2 Serialized Map Ordering).
    ghost root_tells_distinct_keys: { (r : Self) (c : Self.Context) (f : List ℕ) (a : Given S)
        → TellsInDistinctKeys ((changes r).answer c f a) };
}
