//! The schema of these tests.

ghost use Rattle.std.specs.Prelude.{◌≡◌, Ok};
ghost use Rattle.graphql_text.specs.Memory.{Told};
ghost use Rattle.graphql_scalars.specs.declared.check_error.CheckError.TheVariants.{Memory};
ghost use Rattle.graphql_schema.specs.ScalarChecks.{IsBoolean};

use crate::executor::look_ahead::asked::{Row, ask};
use graphql_executor::{IntrospectionChecks, introspection_metadata};
use graphql_names::{NamedItems, Type, TypeModifier};
use graphql_schema::scalar_checks::boolean_check;
use graphql_schema::{
    Argument, DeprecationStatus, EnumMeta, EnumValue, Field, InterfaceMeta, MetaType, ObjectMeta,
    RootNode, ScalarMeta, SchemaType, TypeCheck,
};
use graphql_text::{Items, Text};
use graphql_values::{DefaultScalarValue, InputValue};
use std::alloc::Global;
use std::process::Abort;

type Meta = MetaType<DefaultScalarValue>;

type Value = InputValue<DefaultScalarValue>;

type Arguments = Items<Argument<DefaultScalarValue>>;

type Fields = Items<Field<DefaultScalarValue>>;

/// A field in short: its name, the name of its type, and the wraps of that, the innermost first.
type FieldRow = (&'static str, &'static str, &'static [TypeModifier]);

const NULLABLE: &[TypeModifier] = &[];

const NON_NULL: &[TypeModifier] = &[TypeModifier::NonNull];

const LIST_OF_NON_NULL: &[TypeModifier] = &[TypeModifier::NonNull, TypeModifier::List(None)];

const CHARACTER: &[FieldRow] = &[
    ("id", "ID", NON_NULL),
    ("name", "String", NON_NULL),
    ("height", "Float", NULLABLE),
    ("appearsIn", "Episode", LIST_OF_NON_NULL),
    ("friends", "Character", LIST_OF_NON_NULL),
];

fn text(rt: &impl Abort, alloc: Global, words: &str) -> Text {
    Text::from_str(alloc, words).expect(rt, "memory")
}

fn with<T: Drop>(rt: &impl Abort, mut items: Items<T>, item: T) -> Items<T> {
    let pushed = items.push(item).is_ok();
    assert!(rt; pushed);
    items
}

fn reference(rt: &impl Abort, alloc: Global, name: &str, wraps: &[TypeModifier]) -> Type<Text> {
    let mut modifiers = Items::new(alloc);
    modifiers.extend_from_slice(wraps).expect(rt, "memory");
    Type {
        name: text(rt, alloc, name),
        modifiers,
    }
}

fn field(
    rt: &impl Abort,
    alloc: Global,
    row: FieldRow,
    arguments: Arguments,
) -> Field<DefaultScalarValue> {
    Field {
        name: text(rt, alloc, row.0),
        description: None,
        arguments: Some(NamedItems::from_items(arguments).expect(rt, "memory")),
        field_type: reference(rt, alloc, row.1, row.2),
        deprecation_status: DeprecationStatus::Current,
    }
}

fn fields(rt: &impl Abort, alloc: Global, rows: &[FieldRow]) -> Fields {
    let mut items = Items::new(alloc);
    for row in rows {
        items = with(rt, items, field(rt, alloc, *row, Items::new(alloc)));
    }
    items
}

/// The fields of a character, and one of its own.
fn with_own(rt: &impl Abort, alloc: Global, own: FieldRow) -> Fields {
    let shared = fields(rt, alloc, CHARACTER);
    with(rt, shared, field(rt, alloc, own, Items::new(alloc)))
}

fn object(
    rt: &impl Abort,
    alloc: Global,
    name: &str,
    fields: Fields,
) -> ObjectMeta<DefaultScalarValue> {
    let fields = NamedItems::from_items(fields).expect(rt, "memory");
    ObjectMeta::new(alloc, text(rt, alloc, name), fields)
}

/// A character of this name, with a field of its own.
fn character(rt: &impl Abort, alloc: Global, name: &str, own: FieldRow) -> Meta {
    let listed = with(rt, Items::new(alloc), text(rt, alloc, "Character"));
    object(rt, alloc, name, with_own(rt, alloc, own))
        .interfaces(listed)
        .into_meta()
}

/// The field of the root: a character, of an episode, behind one of this key.
fn hero(rt: &impl Abort, alloc: Global) -> Field<DefaultScalarValue> {
    let episode = reference(rt, alloc, "Episode", NULLABLE);
    let episode = Argument::new(text(rt, alloc, "episode"), episode);
    let after = reference(rt, alloc, "ID", NULLABLE);
    let after = Argument::new(text(rt, alloc, "after"), after);
    let arguments = with(rt, with(rt, Items::new(alloc), episode), after);
    field(rt, alloc, ("hero", "Character", NULLABLE), arguments)
}

/// The enum `Episode`.
fn episodes(rt: &impl Abort, alloc: Global, check: TypeCheck) -> Meta {
    let jedi = EnumValue::new(text(rt, alloc, "JEDI"));
    let values = with(rt, Items::new(alloc), jedi);
    let values = NamedItems::from_items(values).expect(rt, "memory");
    EnumMeta::new(text(rt, alloc, "Episode"), values, check).into_meta()
}

/// A scalar of this check.
fn scalar(rt: &impl Abort, alloc: Global, name: &str, check: TypeCheck) -> Meta {
    ScalarMeta::new(text(rt, alloc, name), check).into_meta()
}

/// The types but the scalars and the enum.
fn with_objects(rt: &impl Abort, alloc: Global, types: Items<Meta>) -> Items<Meta> {
    let of_root = with(rt, Items::new(alloc), hero(rt, alloc));
    let types = with(rt, types, object(rt, alloc, "Query", of_root).into_meta());
    let shared = NamedItems::from_items(fields(rt, alloc, CHARACTER)).expect(rt, "memory");
    let characters = InterfaceMeta::new(alloc, text(rt, alloc, "Character"), shared);
    let types = with(rt, types, characters.into_meta());
    let human = character(rt, alloc, "Human", ("mass", "Float", NULLABLE));
    let types = with(rt, types, human);
    let function = ("primaryFunction", "String", NULLABLE);
    with(rt, types, character(rt, alloc, "Droid", function))
}

/// The types of introspection behind these.
fn with_introspection(
    rt: &impl Abort,
    alloc: Global,
    mut types: Items<Meta>,
    checks: IntrospectionChecks<TypeCheck>,
) -> Items<Meta> {
    let mut told = introspection_metadata(alloc, checks).expect(rt, "memory");
    types.append(&mut told).expect(rt, "memory");
    types
}

/// Asserts of queries over the schema of these tests what look-ahead tells, and what they are
/// answered.
pub fn over(rt: &impl Abort, alloc: Global, rows: &[Row<'_>]) {
    let boolean = TypeCheck::new(Box::new(
        alloc,
        move |value: &Value|
            ensures { Told (λ e. e ≡ Memory) result (IsBoolean value.now) }
        { boolean_check(alloc, value) },
    )
    .expect(rt, "memory"));
    let string = TypeCheck::new(Box::new(
        alloc,
        |_value: &Value|
            ensures { result ≡ Ok tt }
        { Ok(()) },
    )
    .expect(rt, "memory"));
    let id = TypeCheck::new(Box::new(
        alloc,
        |_value: &Value|
            ensures { result ≡ Ok tt }
        { Ok(()) },
    )
    .expect(rt, "memory"));
    let float = TypeCheck::new(Box::new(
        alloc,
        |_value: &Value|
            ensures { result ≡ Ok tt }
        { Ok(()) },
    )
    .expect(rt, "memory"));
    let episode = TypeCheck::new(Box::new(
        alloc,
        |_value: &Value|
            ensures { result ≡ Ok tt }
        { Ok(()) },
    )
    .expect(rt, "memory"));
    let type_kind = TypeCheck::new(Box::new(
        alloc,
        |_value: &Value|
            ensures { result ≡ Ok tt }
        { Ok(()) },
    )
    .expect(rt, "memory"));
    let directive_location = TypeCheck::new(Box::new(
        alloc,
        |_value: &Value|
            ensures { result ≡ Ok tt }
        { Ok(()) },
    )
    .expect(rt, "memory"));
    let checks = IntrospectionChecks {
        type_kind,
        directive_location,
    };
    let types = with(rt, Items::new(alloc), scalar(rt, alloc, "String", string));
    let types = with(rt, types, scalar(rt, alloc, "ID", id));
    let types = with(rt, types, scalar(rt, alloc, "Float", float));
    let types = with(rt, types, scalar(rt, alloc, "Boolean", boolean));
    let types = with(rt, types, episodes(rt, alloc, episode));
    let types = with_objects(rt, alloc, types);
    let types = with_introspection(rt, alloc, types, checks);
    let schema = SchemaType::new(alloc, types, "Query", None, None).expect(rt, "a schema");
    ask(rt, alloc, &RootNode::new(schema), rows);
}
