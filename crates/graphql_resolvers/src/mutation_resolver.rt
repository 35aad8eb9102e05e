//! Resolvers of mutations that owe no law.

use crate::answer::Answer;
use crate::given::Given;
use crate::resolver::Resolver;
use std::alloc::Global;

/// What answers the fields of a mutation's root, and changes the context (GraphQL October 2021,
/// 6.2.2 Mutation). The answer, and the context after, are functions of the context, the field, and
/// what is given under each argument's name. There is no law to prove.
pub trait MutationResolver: Resolver {
    ghost use Rattle.std.specs.Prelude.{◌≡◌, ℕ, List};
    ghost use Rattle.graphql_resolvers.specs.Answers as answers;
    ghost use Rattle.graphql_resolvers.specs.Given.{Inputs, given_to};

    /// What it answers for a field of a mutation's root, or the reason of an error.
    ghost change_answer: { Self → Self.Context → List ℕ → Inputs → answers.Answer Self.Node };

    /// The context after.
    ghost change_after: { Self → Self.Context → List ℕ → Inputs → Self.Context };

    /// What it answers for a field of a mutation's root; it may change the context, also where the
    /// answer is an error. It is called once for each response key of the root, in order, and no
    /// more where a `null` has reached the root. `Failure::Memory` is want of memory: it tells
    /// nothing, and leaves the context as it was.
    fn change(
        &self,
        alloc: Global,
        context: &mut Self::Context,
        field: &str,
        given: &Given<'_>,
    ) -> Answer<Self::Node>
        ensures answer { let wanted =
            change_answer self.now context.old field.now (given_to given.now) in
            answers.Answers wanted result }
        ensures after { let after =
            change_after self.now context.old field.now (given_to given.now) in
            answers.Leaves context.old after result context.new };
}
