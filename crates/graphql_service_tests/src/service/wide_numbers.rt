//! A service over scalars that are not the default ones.

ghost use Rattle.std.specs.Prelude.{◌≡◌};

use crate::service::schemas::{alone, text, with};
use crate::service::wide_scalar::{AnyScalar, WideScalar};
use graphql_arguments::Arguments;
use graphql_execution_walk::{Executor, GraphQLValue};
use graphql_field_results::{FieldResult, Resolved};
use graphql_file_service::service::Service;
use graphql_mutation::WithoutMutations;
use graphql_names::{NamedItems, Type};
use graphql_schema::{
    Argument, DeprecationStatus, Field, MetaType, ObjectMeta, RootNode, ScalarMeta, SchemaType,
};
use graphql_text::{Items, Text};
use std::alloc::Global;
use std::process::Abort;

type Meta = MetaType<WideScalar>;

/// Answers the greatest integer of 64 bits, whatever is asked.
#[derive(Clone, Copy)]
struct Greatest;

impl GraphQLValue<WideScalar> for Greatest {
    type Context = ();

    type Node = ();

    ghost use Rattle.std.specs.Prelude.{Ok, codes, refl};
    ghost use Rattle.graphql_field_results.specs.declared.resolved.Resolved.TheVariants as resolved;
    ghost use Rattle.graphql_service_tests.specs.declared.service.wide_scalar.WideScalar.TheVariants as wide;

    ghost root_node = { λ _. tt };

    ghost type_of = { λ _ _ _. codes "Query" };

    ghost answer = { λ _ _ _ _ _. Ok (resolved.Scalar (wide.Long (codes "9223372036854775807"))) };

    ghost respects = { λ _ _ _ _ _ _ _. refl };

    ghost tells_distinct_keys = { λ _ _ _ _ _. record { beside = tt } };

    fn root(&self) -> () {}

    fn concrete_type_name<'c>(&'c self, _context: &'c (), _node: &'c ()) -> &'c str {
        "Query"
    }

    fn resolve_field(
        &self,
        _node: &(),
        _field: &str,
        _arguments: &Arguments<'_, WideScalar>,
        executor: &Executor<'_, '_, '_, (), WideScalar>,
    ) -> FieldResult<Resolved<WideScalar, ()>, WideScalar> {
        let digits = Text::from_str(executor.alloc(), "9223372036854775807")?;
        Ok(Resolved::Scalar(WideScalar::Long(digits)))
    }
}

fn reference(rt: &impl Abort, alloc: Global, name: &str) -> Type<Text> {
    Type {
        name: text(rt, alloc, name),
        modifiers: Items::new(alloc),
    }
}

/// An object of the field `number(above: Number): Number`.
fn object(rt: &impl Abort, alloc: Global, name: &str) -> Meta {
    let above = Argument::new(text(rt, alloc, "above"), reference(rt, alloc, "Number"));
    let field = Field {
        name: text(rt, alloc, "number"),
        description: None,
        arguments: Some(NamedItems::from_items(alone(rt, alloc, above)).expect(rt, "memory")),
        field_type: reference(rt, alloc, "Number"),
        deprecation_status: DeprecationStatus::Current,
    };
    let fields = NamedItems::from_items(alone(rt, alloc, field)).expect(rt, "memory");
    ObjectMeta::new(alloc, text(rt, alloc, name), fields).into_meta()
}

fn scalar(rt: &impl Abort, alloc: Global, name: &str) -> Meta {
    ScalarMeta::new(text(rt, alloc, name), AnyScalar { alloc }).into_meta()
}

fn schema(rt: &impl Abort, alloc: Global) -> SchemaType<WideScalar> {
    let types = alone(rt, alloc, scalar(rt, alloc, "Number"));
    let types = with(rt, types, scalar(rt, alloc, "String"));
    let types = with(rt, types, scalar(rt, alloc, "Boolean"));
    let types = with(rt, types, object(rt, alloc, "Query"));
    let types = with(rt, types, object(rt, alloc, "__Schema"));
    let types = with(rt, types, object(rt, alloc, "__Type"));
    SchemaType::new(alloc, types, "Query", None, None).expect(rt, "a schema")
}

/// Lines, and their answers: a number of 64 bits is read, is one of its type, and is answered as a
/// text.
const ROWS: &[(&str, &str)] = &[
    (
        r#"{"query":"{ number(above: -9223372036854775808) }"}"#,
        "{\"data\":{\"number\":\"9223372036854775807\"}}\n",
    ),
    (
        r#"{"query":"{ number(above: 1.5) }"}"#,
        "{\"errors\":[{\"message\":\"There needs to be a Float type\",\"locations\":[{\"line\":1,\"column\":17}]}]}\n",
    ),
];

#[test]
fn scalars_may_be_of_another_type(rt: HostRuntime) {
    let alloc = rt.alloc();
    let root_node = RootNode::new(schema(&rt, alloc));
    let resolver = WithoutMutations { resolver: Greatest };
    let mut service = Service::new(root_node, resolver, (), 65_536, 10_000).expect(
        &rt,
        "a service",
    );
    let mut out = Vec::new(alloc);
    for row in ROWS {
        let is_answered = service.answer(alloc, row.0.as_bytes(), &mut out).is_ok();
        assert!(rt; is_answered);
        assert_eq!(rt; out.as_slice(), row.1.as_bytes());
    }
}
