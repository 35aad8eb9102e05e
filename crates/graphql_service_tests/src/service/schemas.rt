//! Schemas that make no service.

use graphql_file_service::service::{Service, ServiceFault, StandardChecks};
use graphql_names::{NamedItems, Type, TypeModifier};
use graphql_sample::{SampleRecords, SampleResolver, sample_records};
use graphql_schema::{
    Argument, DeprecationStatus, DirectiveLocation, DirectiveType, Field, InterfaceMeta, MetaType,
    ObjectMeta, RootNode, ScalarMeta, SchemaType, TypeCheck,
};
use graphql_text::{Items, Text};
use graphql_values::DefaultScalarValue;
use std::alloc::Global;
use std::process::Abort;

type Schema = SchemaType<DefaultScalarValue>;

type Meta = MetaType<DefaultScalarValue>;

pub fn text(rt: &impl Abort, alloc: Global, words: &str) -> Text {
    Text::from_str(alloc, words).expect(rt, "memory")
}

pub fn alone<T: Drop>(rt: &impl Abort, alloc: Global, item: T) -> Items<T> {
    with(rt, Items::new(alloc), item)
}

pub fn with<T: Drop>(rt: &impl Abort, mut items: Items<T>, item: T) -> Items<T> {
    let pushed = items.push(item).is_ok();
    assert!(rt; pushed);
    items
}

fn reference(rt: &impl Abort, alloc: Global, name: &str, is_non_null: bool) -> Type<Text> {
    let modifiers = if is_non_null {
        alone(rt, alloc, TypeModifier::NonNull)
    } else {
        Items::new(alloc)
    };
    Type {
        name: text(rt, alloc, name),
        modifiers,
    }
}

/// A list of one field, of a text.
fn field(
    rt: &impl Abort,
    alloc: Global,
    name: &str,
    is_non_null: bool,
) -> NamedItems<Field<DefaultScalarValue>> {
    let field = Field {
        name: text(rt, alloc, name),
        description: None,
        arguments: None,
        field_type: reference(rt, alloc, "String", is_non_null),
        deprecation_status: DeprecationStatus::Current,
    };
    NamedItems::from_items(alone(rt, alloc, field)).expect(rt, "memory")
}

fn object(rt: &impl Abort, alloc: Global, name: &str) -> ObjectMeta<DefaultScalarValue> {
    ObjectMeta::new(alloc, text(rt, alloc, name), field(rt, alloc, "f", false))
}

fn scalar(rt: &impl Abort, alloc: Global, name: &str, check: TypeCheck) -> Meta {
    ScalarMeta::new(text(rt, alloc, name), check).into_meta()
}

/// A schema whose object has the field `f: String`, and lists an interface that has `f: String!`.
pub fn unkept(rt: &impl Abort, alloc: Global, checks: StandardChecks) -> Schema {
    let types = alone(rt, alloc, scalar(rt, alloc, "String", checks.string));
    let types = with(rt, types, scalar(rt, alloc, "Boolean", checks.boolean));
    let promise = InterfaceMeta::new(
        alloc,
        text(rt, alloc, "Promise"),
        field(rt, alloc, "f", true),
    );
    let types = with(rt, types, promise.into_meta());
    let listed = alone(rt, alloc, text(rt, alloc, "Promise"));
    let keeper = object(rt, alloc, "Keeper").interfaces(listed);
    let types = with(rt, types, keeper.into_meta());
    let types = with(rt, types, object(rt, alloc, "Query").into_meta());
    let types = with(rt, types, object(rt, alloc, "__Schema").into_meta());
    let types = with(rt, types, object(rt, alloc, "__Type").into_meta());
    SchemaType::new(alloc, types, "Query", None, None).expect(rt, "a schema")
}

/// The schema with the directive `@skip(if: Boolean) on FIELD`.
pub fn with_other_skip(rt: &impl Abort, alloc: Global, mut schema: Schema) -> Schema {
    let argument = Argument::new(
        text(rt, alloc, "if"),
        reference(rt, alloc, "Boolean", false),
    );
    let arguments = NamedItems::from_items(alone(rt, alloc, argument)).expect(rt, "memory");
    let skip = DirectiveType::new(
        text(rt, alloc, "skip"),
        alone(rt, alloc, DirectiveLocation::Field),
        arguments,
        false,
    );
    let is_added = schema.add_directive(skip).is_ok();
    assert!(rt; is_added);
    schema
}

/// The schema with a directive `tag` that spreads of fragments may have.
pub fn with_tag(rt: &impl Abort, alloc: Global, mut schema: Schema) -> Schema {
    let tag = DirectiveType::new(
        text(rt, alloc, "tag"),
        alone(rt, alloc, DirectiveLocation::FragmentSpread),
        NamedItems::from_items(Items::new(alloc)).expect(rt, "memory"),
        false,
    );
    let is_added = schema.add_directive(tag).is_ok();
    assert!(rt; is_added);
    schema
}

/// Asserts why a schema makes no service.
pub fn is_refused(rt: &impl Abort, alloc: Global, schema: Schema, wanted: ServiceFault) {
    let records: SampleRecords = sample_records(alloc).expect(rt, "memory");
    let root_node = RootNode::new(schema);
    let told = match Service::new(root_node, SampleResolver, records, 65_536, 10_000) {
        Ok(_) => None,
        Err(fault) => Some(fault),
    };
    assert!(rt; told == Some(wanted));
}
