//! A resolver that counts.

ghost use Rattle.std.specs.Prelude.{◌≡◌};

use graphql_arguments::Arguments;
use graphql_execution_walk::{Executor, GraphQLValue};
use graphql_field_results::{FieldFault, FieldResult, Resolved};
use graphql_mutation::GraphQLMutationValue;
use graphql_values::DefaultScalarValue;
use std::alloc::Global;

type Answer = Resolved<DefaultScalarValue, ()>;

/// Counts the fields of mutations that it answers, and tells the count: all but `lose`, which it
/// answers by null, and `starve`, for which it is ever in want of memory.
#[derive(Clone, Copy)]
pub struct Counter;

impl GraphQLValue<DefaultScalarValue> for Counter {
    type Context = i32;

    type Node = ();

    ghost use Rattle.std.specs.Prelude.{Ok, codes, refl};
    ghost use Rattle.graphql_service_tests.specs.Counters as spec;

    ghost root_node = { λ _. tt };

    ghost type_of = { λ _ _ _. codes "Query" };

    ghost answer = { λ _ count _ _ _. Ok (spec.number count) };

    ghost respects = { λ _ _ _ _ _ _ _. refl };

    ghost tells_distinct_keys = { λ _ _ _ _ _. record { beside = tt } };

    fn root(&self) -> ()
        ensures { result ≡ tt }
    {}

    fn concrete_type_name<'c>(&'c self, _context: &'c i32, _node: &'c ()) -> &'c str
        ensures { result.now ≡ codes "Query" }
    {
        "Query"
    }

    fn resolve_field(
        &self,
        _node: &(),
        _field: &str,
        _arguments: &Arguments<'_, DefaultScalarValue>,
        executor: &Executor<'_, '_, '_, i32, DefaultScalarValue>,
    ) -> FieldResult<Answer, DefaultScalarValue> {
        let count = *executor.context;
        Ok(Resolved::Scalar(DefaultScalarValue::Int(count)))
    }
}

impl GraphQLMutationValue<DefaultScalarValue> for Counter {
    ghost use Rattle.std.specs.Prelude.{Ok, refl};
    ghost use Rattle.graphql_field_results.specs.Answered.{Answered, Leaves};
    ghost use Rattle.graphql_service_tests.specs.Counters as spec;

    ghost changes = { λ _. spec.changes };

    ghost respects_root = { λ _ _ _ _ _ _. (refl, refl) };

    ghost root_tells_distinct_keys = { λ _ _ _ _. record { beside = tt } };

    fn resolve_root(
        &self,
        _alloc: Global,
        context: &mut i32,
        field: &str,
        _arguments: &Arguments<'_, DefaultScalarValue>,
    ) -> FieldResult<Answer, DefaultScalarValue>
        ensures answer { Answered (Ok (spec.count_answer (spec.one_more context.old) field.now))
            result }
        ensures after { Leaves context.old (spec.one_more context.old) result context.new }
    {
        if field == "starve" {
            return Err(FieldFault::Memory);
        }
        let count = context.saturating_add(1);
        *context = count;
        match field {
            "lose" => Ok(Resolved::Null),
            _ => Ok(Resolved::Scalar(DefaultScalarValue::Int(count))),
        }
    }
}
