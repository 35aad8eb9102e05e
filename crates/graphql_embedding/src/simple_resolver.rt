//! A resolver, as a service takes it.

ghost use Rattle.std.specs.Prelude.{◌≡◌};

use graphql_arguments::Arguments;
use graphql_execution_walk::{Executor, GraphQLValue};
use graphql_field_results::{FieldResult, Resolved};
use graphql_mutation::GraphQLMutationValue;
use graphql_resolvers::{Given, MutationResolver, Resolver, into_field_result};
use graphql_scalars::DefaultScalarValue;
use std::alloc::Global;

/// A resolver, as a service takes it: its laws are proved here, once for all of them.
#[derive(Drop)]
pub struct SimpleResolver<R> {
    /// What fields are answered by.
    pub resolver: R,
}

impl<R: Resolver> GraphQLValue<DefaultScalarValue> for SimpleResolver<R> {
    type Context = R::Context;

    type Node = R::Node;

    ghost use Rattle.std.proofs.Common.{ap};
    ghost use Rattle.graphql_resolvers.specs.Answers.{with_reason};
    ghost use Rattle.graphql_resolvers.specs.Given.{inputs_of};
    ghost use Rattle.graphql_resolvers.proofs.ToldAnswers.{tells_reason};
    ghost use Rattle.graphql_resolvers.proofs.SameGiven.{same-inputs};

    ghost root_node = { λ r. R.root_node r.resolver };

    ghost type_of = { λ r. R.type_of r.resolver };

    ghost answer = { λ r context node field given.
        with_reason (R.answer r.resolver context node field (inputs_of given)) };

    ghost respects = { λ r context node field a b same.
        ap (λ given. with_reason (R.answer r.resolver context node field given))
        (same-inputs a b same) };

    ghost tells_distinct_keys = { λ r context node field given.
        tells_reason (R.answer r.resolver context node field (inputs_of given)) };

    fn root(&self) -> R::Node
        ensures { result ≡ R.root_node self.now.resolver }
    {
        self.resolver.root()
    }

    fn concrete_type_name<'c>(&'c self, context: &'c R::Context, node: &'c R::Node) -> &'c str
        ensures { result.now ≡ R.type_of self.now.resolver context.now node.now }
    {
        self.resolver.type_name(context, node)
    }

    fn resolve_field(
        &self,
        node: &R::Node,
        field: &str,
        arguments: &Arguments<'_, DefaultScalarValue>,
        executor: &Executor<'_, '_, '_, R::Context, DefaultScalarValue>,
    ) -> FieldResult<Resolved<DefaultScalarValue, R::Node>, DefaultScalarValue> {
        let given = Given::new(executor.alloc, arguments);
        let answer = self
            .resolver
            .resolve(executor.alloc, executor.context, node, field, &given);
        into_field_result(answer)
    }
}

impl<R: MutationResolver> GraphQLMutationValue<DefaultScalarValue> for SimpleResolver<R> {
    ghost use Rattle.std.proofs.Common.{ap};
    ghost use Rattle.graphql_arguments.specs.GivenValues.{arguments_told};
    ghost use Rattle.graphql_field_results.specs.Answered.{Answered, Leaves};
    ghost use Rattle.graphql_resolvers.specs.Answers.{with_reason};
    ghost use Rattle.graphql_resolvers.specs.Given.{inputs_of};
    ghost use Rattle.graphql_resolvers.proofs.ToldAnswers.{tells_reason};
    ghost use Rattle.graphql_resolvers.proofs.SameGiven.{same-in-order};

    ghost changes = { λ r. record {
      answer = λ context field given.
          with_reason (R.change_answer r.resolver context field (inputs_of given));
      after = λ context field given. R.change_after r.resolver context field (inputs_of given);
    } };

    ghost respects_root = { λ r context field a b same. (
      ap (λ given. with_reason (R.change_answer r.resolver context field given))
          (same-in-order a b same),
      ap (R.change_after r.resolver context field) (same-in-order a b same),
    ) };

    ghost root_tells_distinct_keys = { λ r context field given.
        tells_reason (R.change_answer r.resolver context field (inputs_of given)) };

    /// What the resolver answers, and leaves.
    fn resolve_root(
        &self,
        alloc: Global,
        context: &mut R::Context,
        field: &str,
        arguments: &Arguments<'_, DefaultScalarValue>,
    ) -> FieldResult<Resolved<DefaultScalarValue, R::Node>, DefaultScalarValue>
        ensures answer { let given = inputs_of (arguments_told arguments.now) in
            Answered (with_reason (R.change_answer self.now.resolver context.old field.now given))
            result }
        ensures after { let given = inputs_of (arguments_told arguments.now) in
            let after = R.change_after self.now.resolver context.old field.now given in
            Leaves context.old after result context.new }
    {
        let given = Given::new(alloc, arguments);
        into_field_result(self.resolver.change(alloc, context, field, &given))
    }
}
