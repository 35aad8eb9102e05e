//! The sample's resolver, which is refused memory.

ghost use Rattle.std.specs.Prelude.{◌≡◌, Ok};

use graphql_arguments::Arguments;
use graphql_execution_walk::{Executor, GraphQLValue};
use graphql_field_results::{FieldFault, FieldResult, Resolved};
use graphql_mutation::GraphQLMutationValue;
use graphql_sample::{SampleNode, SampleRecords, SampleResolver};
use graphql_values::DefaultScalarValue;
use std::alloc::Global;
use std::cell::Cell;

type Answer = Resolved<DefaultScalarValue, SampleNode>;

/// Answers as the sample's resolver does, but for one call, at which it is in want of memory.
#[derive(Drop)]
pub struct Refusing {
    /// How many calls there were.
    asked: Cell<u64>,

    /// The number of the call that is refused, from one; zero where none is.
    refused: u64,
}

impl Refusing {
    /// The resolver that is refused memory at the call of this number, from one.
    pub fn at(refused: u64) -> Refusing {
        Refusing {
            asked: Cell::new(0),
            refused,
        }
    }

    /// The resolver that is refused at no call.
    pub fn never() -> Refusing {
        Refusing::at(0)
    }

    /// Whether this call is refused.
    fn refuses(&self) -> bool {
        let asked = self.asked.get().saturating_add(1);
        self.asked.set(asked);
        asked == self.refused
    }
}

impl GraphQLValue<DefaultScalarValue> for Refusing {
    type Context = SampleRecords;

    type Node = SampleNode;

    ghost use Rattle.std.specs.Prelude.{Ok};
    ghost use Rattle.std.proofs.Common.{ap};
    ghost use Rattle.graphql_sample.specs.SameTexts.{answered-alike};
    ghost use Rattle.graphql_sample.specs.Sample as spec;
    ghost use Rattle.graphql_sample.specs.declared.resolver.SampleNode.TheVariants as node;

    ghost root_node = { λ _. node.Root };

    ghost type_of = { λ _ _ n. spec.type_name n };

    ghost answer = { λ _ context n field given. Ok (spec.answer context.records n field given) };

    ghost respects = { λ _ context n field a b same.
        ap Ok (answered-alike context.records a b same n field) };

    ghost tells_distinct_keys = { λ _ _ _ _ _. record { beside = tt } };

    fn root(&self) -> SampleNode
        ensures { result ≡ node.Root }
    {
        SampleNode::Root
    }

    fn concrete_type_name<'c>(
        &'c self,
        _context: &'c SampleRecords,
        node: &'c SampleNode,
    ) -> &'c str
        ensures { result.now ≡ spec.type_name node.now }
    {
        match node {
            SampleNode::Root => "Query",
            SampleNode::Human(_) => "Human",
        }
    }

    fn resolve_field(
        &self,
        node: &SampleNode,
        field: &str,
        arguments: &Arguments<'_, DefaultScalarValue>,
        executor: &Executor<'_, '_, '_, SampleRecords, DefaultScalarValue>,
    ) -> FieldResult<Answer, DefaultScalarValue> {
        if self.refuses() {
            return Err(FieldFault::Memory);
        }
        SampleResolver.resolve_field(node, field, arguments, executor)
    }
}

impl GraphQLMutationValue<DefaultScalarValue> for Refusing {
    ghost use Rattle.std.specs.Prelude.{Ok};
    ghost use Rattle.graphql_arguments.specs.GivenValues.{arguments_told};
    ghost use Rattle.graphql_field_results.specs.Answered.{Answered, Leaves};
    ghost use Rattle.graphql_sample.specs.Sample as spec;
    ghost use Rattle.graphql_sample.specs.SameTexts.{answers-same, leaves-same};

    ghost changes = { λ _. spec.changes };

    ghost respects_root = { λ _ c field a b same.
        (answers-same c field a b same, leaves-same c field a b same) };

    ghost root_tells_distinct_keys = { λ _ _ _ _. record { beside = tt } };

    fn resolve_root(
        &self,
        alloc: Global,
        context: &mut SampleRecords,
        field: &str,
        arguments: &Arguments<'_, DefaultScalarValue>,
    ) -> FieldResult<Answer, DefaultScalarValue>
        ensures answer { let given = arguments_told arguments.now in
            Answered (Ok (spec.root_answer context.old field.now given)) result }
        ensures after { let given = arguments_told arguments.now in
            Leaves context.old (spec.root_after context.old field.now given) result context.new }
    {
        if self.refuses() {
            return Err(FieldFault::Memory);
        }
        SampleResolver.resolve_root(alloc, context, field, arguments)
    }
}
