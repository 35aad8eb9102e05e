//! The same beings, answered by a resolver that completes nothing itself.

ghost use Rattle.std.specs.Prelude.{◌≡◌};

use crate::executor::beings::{Answer, Being, of_being, own_name, type_name};
use graphql_arguments::Arguments;
use graphql_execution_walk::{Executor, GraphQLValue};
use graphql_field_results::FieldResult;
use graphql_values::DefaultScalarValue;

/// Knows the beings, of which the root is one as the others.
#[derive(Clone, Copy)]
pub struct Kennel;

impl GraphQLValue<DefaultScalarValue> for Kennel {
    type Context = ();

    type Node = Being;

    ghost use Rattle.std.specs.Prelude.{refl};
    ghost use Rattle.graphql_service_tests.specs.Beings as spec;
    ghost use Rattle.graphql_service_tests.specs.ToldKeys.{being-tells};
    ghost use Rattle.graphql_service_tests.specs.declared.executor.beings.Being.TheVariants as being;

    ghost root_node = { λ _. being.Rex };

    ghost type_of = { λ _ _ node. spec.type_name node };

    ghost answer = { λ _ _ node field _. spec.of_being (spec.own_name node) field };

    ghost respects = { λ _ _ _ _ _ _ _. refl };

    ghost tells_distinct_keys = { λ _ _ node field _. being-tells (spec.own_name node) field };

    fn root(&self) -> Being
        ensures { result ≡ being.Rex }
    {
        Being::Rex
    }

    fn concrete_type_name<'c>(&'c self, _context: &'c (), node: &'c Being) -> &'c str
        ensures { result.now ≡ spec.type_name node.now }
    {
        type_name(node)
    }

    fn resolve_field(
        &self,
        node: &Being,
        field: &str,
        _arguments: &Arguments<'_, DefaultScalarValue>,
        executor: &Executor<'_, '_, '_, (), DefaultScalarValue>,
    ) -> FieldResult<Answer, DefaultScalarValue> {
        of_being(executor.alloc, own_name(node), field)
    }
}
