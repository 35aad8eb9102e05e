//! The schema of these tests.

ghost use Rattle.std.specs.Prelude.{◌≡◌, Ok};
ghost use Rattle.graphql_text.specs.Memory.{Told};
ghost use Rattle.graphql_scalars.specs.declared.check_error.CheckError.TheVariants.{Memory};
ghost use Rattle.graphql_schema.specs.ScalarChecks.{IsInt, IsString, IsBoolean};

use crate::executor::answered::{Asked, ask};
use graphql_executor::{IntrospectionChecks, introspection_metadata};
use graphql_names::{NamedItems, Type, TypeModifier};
use graphql_schema::scalar_checks::{boolean_check, int_check, string_check};
use graphql_schema::{
    Argument, DeprecationStatus, Field, InputObjectMeta, InterfaceMeta, MetaType, ObjectMeta,
    RootNode, ScalarMeta, SchemaType, TypeCheck, UnionMeta,
};
use graphql_text::{Items, Text};
use graphql_values::{DefaultScalarValue, InputValue};
use std::alloc::Global;
use std::process::Abort;

type Meta = MetaType<DefaultScalarValue>;

type Value = InputValue<DefaultScalarValue>;

/// A field in short: its name, the name of its type, and the wraps of that, the innermost first.
type FieldRow = (&'static str, &'static str, &'static [TypeModifier]);

const NULLABLE: &[TypeModifier] = &[];

const NON_NULL: &[TypeModifier] = &[TypeModifier::NonNull];

const LIST: &[TypeModifier] = &[TypeModifier::List(None)];

const LIST_OF_NON_NULL: &[TypeModifier] = &[TypeModifier::NonNull, TypeModifier::List(None)];

const LIST_OF_LISTS: &[TypeModifier] = &[TypeModifier::List(None), TypeModifier::List(None)];

/// The fields of the root but `given`.
const ROOT: &[FieldRow] = &[
    ("human", "Human", NULLABLE),
    ("dog", "Dog", NULLABLE),
    ("pet", "Pet", NULLABLE),
    ("pets", "Pet", LIST_OF_NON_NULL),
    ("being", "Being", NULLABLE),
    ("packs", "Pet", LIST_OF_LISTS),
    ("self", "Query", NULLABLE),
    ("impossible", "Pet", NULLABLE),
    ("broken", "Boolean", NULLABLE),
    ("flags", "Boolean", LIST_OF_NON_NULL),
    ("grid", "Boolean", LIST_OF_LISTS),
    ("one", "Boolean", LIST),
    ("placed", "Boolean", NULLABLE),
    ("completed", "Pet", NULLABLE),
];

const HUMAN: &[FieldRow] = &[
    ("name", "String", NON_NULL),
    ("age", "Int", NON_NULL),
    ("friend", "Human", NULLABLE),
];

const PET: &[FieldRow] = &[("name", "String", NULLABLE), ("owner", "Human", NON_NULL)];

const CAT: &[FieldRow] = &[
    ("name", "String", NULLABLE),
    ("owner", "Human", NON_NULL),
    ("lives", "Int", NON_NULL),
];

/// The fields of the counter's mutations.
const COUNTED: &[FieldRow] = &[
    ("add", "Int", NON_NULL),
    ("lose", "Int", NON_NULL),
    ("starve", "Int", NULLABLE),
];

fn text(rt: &impl Abort, alloc: Global, words: &str) -> Text {
    Text::from_str(alloc, words).expect(rt, "memory")
}

fn with<T: Drop>(rt: &impl Abort, mut items: Items<T>, item: T) -> Items<T> {
    let pushed = items.push(item).is_ok();
    assert!(rt; pushed);
    items
}

fn reference(rt: &impl Abort, alloc: Global, name: &str, wraps: &[TypeModifier]) -> Type<Text> {
    let mut modifiers = Items::new(alloc);
    modifiers.extend_from_slice(wraps).expect(rt, "memory");
    Type {
        name: text(rt, alloc, name),
        modifiers,
    }
}

fn field(
    rt: &impl Abort,
    alloc: Global,
    row: FieldRow,
    arguments: Items<Argument<DefaultScalarValue>>,
) -> Field<DefaultScalarValue> {
    Field {
        name: text(rt, alloc, row.0),
        description: None,
        arguments: Some(NamedItems::from_items(arguments).expect(rt, "memory")),
        field_type: reference(rt, alloc, row.1, row.2),
        deprecation_status: DeprecationStatus::Current,
    }
}

fn fields(rt: &impl Abort, alloc: Global, rows: &[FieldRow]) -> Items<Field<DefaultScalarValue>> {
    let mut items = Items::new(alloc);
    for row in rows {
        items = with(rt, items, field(rt, alloc, *row, Items::new(alloc)));
    }
    items
}

fn object(
    rt: &impl Abort,
    alloc: Global,
    name: &str,
    fields: Items<Field<DefaultScalarValue>>,
) -> ObjectMeta<DefaultScalarValue> {
    let fields = NamedItems::from_items(fields).expect(rt, "memory");
    ObjectMeta::new(alloc, text(rt, alloc, name), fields)
}

/// A pet of this name.
fn pet(rt: &impl Abort, alloc: Global, name: &str, rows: &[FieldRow]) -> Meta {
    let listed = with(rt, Items::new(alloc), text(rt, alloc, "Pet"));
    object(rt, alloc, name, fields(rt, alloc, rows))
        .interfaces(listed)
        .into_meta()
}

/// The fields of the root that have an argument `value`: a scalar with a default, a list, an
/// object, a flag.
fn with_given(
    rt: &impl Abort,
    alloc: Global,
    items: Items<Field<DefaultScalarValue>>,
) -> Items<Field<DefaultScalarValue>> {
    let default = Some(InputValue::Scalar(DefaultScalarValue::Int(7)));
    let given = asking(rt, alloc, "given", ("Any", NULLABLE), default);
    let many = asking(rt, alloc, "many", ("Any", LIST), None);
    let shape = asking(rt, alloc, "shape", ("Point", NULLABLE), None);
    let read = asking(rt, alloc, "read", ("Boolean", NULLABLE), None);
    let items = with(rt, with(rt, items, given), many);
    with(rt, with(rt, items, shape), read)
}

/// A field with an argument `value` of this type.
fn asking(
    rt: &impl Abort,
    alloc: Global,
    name: &'static str,
    of: (&str, &[TypeModifier]),
    default: Option<Value>,
) -> Field<DefaultScalarValue> {
    let argument = Argument::new(text(rt, alloc, "value"), reference(rt, alloc, of.0, of.1));
    let argument = match default {
        Some(value) => argument.default_value(value),
        None => argument,
    };
    let arguments = with(rt, Items::new(alloc), argument);
    field(rt, alloc, (name, "String", NULLABLE), arguments)
}

/// The input object `Point`, which has a number.
fn point(rt: &impl Abort, alloc: Global, check: TypeCheck) -> Meta {
    let number = reference(rt, alloc, "Int", NULLABLE);
    let argument = Argument::new(text(rt, alloc, "x"), number);
    let fields = with(rt, Items::new(alloc), argument);
    let fields = NamedItems::from_items(fields).expect(rt, "memory");
    InputObjectMeta::new(text(rt, alloc, "Point"), fields, check).into_meta()
}

/// A scalar of this check.
fn scalar(rt: &impl Abort, alloc: Global, name: &str, check: TypeCheck) -> Meta {
    ScalarMeta::new(text(rt, alloc, name), check).into_meta()
}

/// The types but the scalars.
fn with_objects(rt: &impl Abort, alloc: Global, types: Items<Meta>) -> Items<Meta> {
    let of_root = with_given(rt, alloc, fields(rt, alloc, ROOT));
    let types = with(rt, types, object(rt, alloc, "Query", of_root).into_meta());
    let counted = object(rt, alloc, "Mutation", fields(rt, alloc, COUNTED));
    let types = with(rt, types, counted.into_meta());
    let human = object(rt, alloc, "Human", fields(rt, alloc, HUMAN));
    let types = with(rt, types, human.into_meta());
    let of_pets = NamedItems::from_items(fields(rt, alloc, PET)).expect(rt, "memory");
    let pets = InterfaceMeta::new(alloc, text(rt, alloc, "Pet"), of_pets);
    let types = with(rt, types, pets.into_meta());
    let types = with(rt, types, pet(rt, alloc, "Dog", PET));
    let types = with(rt, types, pet(rt, alloc, "Cat", CAT));
    let members = with(rt, Items::new(alloc), text(rt, alloc, "Human"));
    let members = with(rt, members, text(rt, alloc, "Dog"));
    let beings = UnionMeta::new(text(rt, alloc, "Being"), members);
    with(rt, types, beings.into_meta())
}

/// The types of introspection behind these.
fn with_introspection(
    rt: &impl Abort,
    alloc: Global,
    mut types: Items<Meta>,
    checks: IntrospectionChecks<TypeCheck>,
) -> Items<Meta> {
    let mut told = introspection_metadata(alloc, checks).expect(rt, "memory");
    types.append(&mut told).expect(rt, "memory");
    types
}

/// The mutation root of the schema over which this is asked: only mutations of the counter have
/// one.
fn mutation_root(asked: Asked<'_>) -> Option<&'static str> {
    match asked {
        Asked::Mutations(_) => Some("Mutation"),
        _ => None,
    }
}

/// Asserts of requests over the schema of these tests what they are answered.
pub fn over(rt: &impl Abort, alloc: Global, asked: Asked<'_>) {
    let string = TypeCheck::new(Box::new(
        alloc,
        move |value: &Value|
            ensures { Told (λ e. e ≡ Memory) result (IsString value.now) }
        { string_check(alloc, value) },
    )
    .expect(rt, "memory"));
    let boolean = TypeCheck::new(Box::new(
        alloc,
        move |value: &Value|
            ensures { Told (λ e. e ≡ Memory) result (IsBoolean value.now) }
        { boolean_check(alloc, value) },
    )
    .expect(rt, "memory"));
    let int = TypeCheck::new(Box::new(
        alloc,
        move |value: &Value|
            ensures { Told (λ e. e ≡ Memory) result (IsInt value.now) }
        { int_check(alloc, value) },
    )
    .expect(rt, "memory"));
    let any = TypeCheck::new(Box::new(
        alloc,
        |_value: &Value|
            ensures { result ≡ Ok tt }
        { Ok(()) },
    )
    .expect(rt, "memory"));
    let points = TypeCheck::new(Box::new(
        alloc,
        |_value: &Value|
            ensures { result ≡ Ok tt }
        { Ok(()) },
    )
    .expect(rt, "memory"));
    let type_kind = TypeCheck::new(Box::new(
        alloc,
        |_value: &Value|
            ensures { result ≡ Ok tt }
        { Ok(()) },
    )
    .expect(rt, "memory"));
    let directive_location = TypeCheck::new(Box::new(
        alloc,
        |_value: &Value|
            ensures { result ≡ Ok tt }
        { Ok(()) },
    )
    .expect(rt, "memory"));
    let checks = IntrospectionChecks {
        type_kind,
        directive_location,
    };
    let types = with(rt, Items::new(alloc), scalar(rt, alloc, "String", string));
    let types = with(rt, types, scalar(rt, alloc, "Boolean", boolean));
    let types = with(rt, types, scalar(rt, alloc, "Int", int));
    let types = with(rt, types, scalar(rt, alloc, "Any", any));
    let types = with(rt, types, point(rt, alloc, points));
    let types = with_objects(rt, alloc, types);
    let types = with_introspection(rt, alloc, types, checks);
    let mutation = mutation_root(asked);
    let schema = SchemaType::new(alloc, types, "Query", mutation, None).expect(rt, "a schema");
    ask(rt, alloc, RootNode::new(schema), asked);
}
