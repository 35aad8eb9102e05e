ghost use Rattle.std.specs.Prelude.{IsTrue};

use graphql_names::{Named, Type, TypeModifier};
use graphql_scalars::CheckError;
use graphql_text::{Items, Text};
use graphql_validation::{
    Argument, Check, DeprecationStatus, DirectiveLocation, EnumMeta, EnumValue, Field,
    InputObjectMeta, InterfaceMeta, MetaType, NamedItems, ObjectMeta, ScalarMeta, SchemaType,
    UnionMeta,
};
use graphql_values::{DefaultScalarValue, InputValue};
use std::alloc::Global;
use std::process::Abort;

/// A check that accepts every value, or refuses every value.
///
/// All metadata of these tests have checks of this type, since what lets go of metadata is proved
/// anew for each type of check.
#[derive(Drop)]
pub struct Verdict {
    alloc: Global,
    accepts: bool,
}

impl Check<DefaultScalarValue> for Verdict {
    ghost accepts = { λ c value. IsTrue c.accepts };

    ghost respects_same = { λ c a b same accepted. accepted };

    fn check(&self, value: &InputValue<DefaultScalarValue>) -> Result<(), CheckError> {
        if self.accepts {
            Ok(())
        } else {
            Err(CheckError::Message(Text::new(self.alloc)))
        }
    }
}

pub type Meta = MetaType<DefaultScalarValue, Verdict>;

pub type Schema = SchemaType<DefaultScalarValue, Verdict>;

/// The name of a type, and its wraps, the innermost first.
#[derive(Clone, Copy)]
pub struct Of<'a> {
    pub name: &'a str,
    pub wraps: &'a [TypeModifier],
}

/// A field in short: its name and its type.
#[derive(Clone, Copy)]
pub struct FieldRow<'a> {
    pub name: &'a str,
    pub of: Of<'a>,
}

/// A type in short, its name first.
#[derive(Clone, Copy)]
pub enum Row<'a> {
    /// A scalar that accepts every value.
    Scalar(&'a str),

    /// A scalar that refuses every value.
    Refusing(&'a str),

    /// Of one field.
    Object(&'a str, FieldRow<'a>),

    /// Of one field; and the interface that it lists.
    Implementor(&'a str, FieldRow<'a>, &'a str),

    /// Of one field.
    Interface(&'a str, FieldRow<'a>),

    /// Of one member.
    Union(&'a str, &'a str),

    /// Of one value.
    Enum(&'a str, &'a str),

    /// Of one field, of this type.
    InputObject(&'a str, &'a str, Of<'a>),
}

/// The type of this name, with `null`.
pub fn nullable(name: &str) -> Of<'_> {
    Of { name, wraps: &[] }
}

/// The type of this name, without `null`.
pub fn non_null(name: &str) -> Of<'_> {
    Of {
        name,
        wraps: &[TypeModifier::NonNull],
    }
}

/// A field of a type with `null`.
pub fn plain<'a>(name: &'a str, type_name: &'a str) -> FieldRow<'a> {
    FieldRow {
        name,
        of: nullable(type_name),
    }
}

/// What every schema has, and a query root of the field `name: String`.
fn every_schema() -> [Row<'static>; 5] {
    [
        Row::Scalar("Boolean"),
        Row::Scalar("String"),
        Row::Object("Query", plain("name", "String")),
        Row::Object("__Type", plain("description", "String")),
        Row::Object("__Schema", plain("description", "String")),
    ]
}

/// Whether there are words, and they are these.
pub fn says(words: Option<&str>, wanted: &str) -> bool {
    match words {
        Some(words) => words == wanted,
        None => false,
    }
}

/// The text. Where memory runs out it stops the test, as each function below does that makes
/// something: so none has a second way out, where all that it holds would have to be let go.
pub fn text(rt: &impl Abort, alloc: Global, words: &str) -> Text {
    Text::from_str(alloc, words).expect(rt, "memory")
}

/// The items with one more.
pub fn with<T: Drop>(rt: &impl Abort, mut items: Items<T>, item: T) -> Items<T> {
    let pushed = items.push(item).is_ok();
    assert!(rt; pushed);
    items
}

/// An item alone.
pub fn alone<T: Drop>(rt: &impl Abort, alloc: Global, item: T) -> Items<T> {
    with(rt, Items::new(alloc), item)
}

/// An item alone, which is found by its name.
pub fn declared_alone<T: Named + Drop>(rt: &impl Abort, alloc: Global, item: T) -> NamedItems<T> {
    NamedItems::from_items(alone(rt, alloc, item)).expect(rt, "memory")
}

/// Where the standard has its conditions: fields, fragment spreads and inline fragments.
pub fn selections(rt: &impl Abort, alloc: Global) -> Items<DirectiveLocation> {
    let mut locations = Items::new(alloc);
    locations
        .extend_from_slice(&[
            DirectiveLocation::Field,
            DirectiveLocation::FragmentSpread,
            DirectiveLocation::InlineFragment,
        ])
        .expect(rt, "memory");
    locations
}

/// The reference to the type.
pub fn reference(rt: &impl Abort, alloc: Global, of: Of<'_>) -> Type<Text> {
    let mut modifiers = Items::new(alloc);
    modifiers.extend_from_slice(of.wraps).expect(rt, "memory");
    Type {
        name: text(rt, alloc, of.name),
        modifiers,
    }
}

/// An argument or an input field without a default.
pub fn argument(
    rt: &impl Abort,
    alloc: Global,
    name: &str,
    of: Of<'_>,
) -> Argument<DefaultScalarValue> {
    Argument::new(text(rt, alloc, name), reference(rt, alloc, of))
}

fn field(rt: &impl Abort, alloc: Global, row: FieldRow<'_>) -> Field<DefaultScalarValue> {
    Field {
        name: text(rt, alloc, row.name),
        description: None,
        arguments: None,
        field_type: reference(rt, alloc, row.of),
        deprecation_status: DeprecationStatus::Current,
    }
}

/// An object of one field.
pub fn object(
    rt: &impl Abort,
    alloc: Global,
    name: &str,
    row: FieldRow<'_>,
) -> ObjectMeta<DefaultScalarValue> {
    let fields = declared_alone(rt, alloc, field(rt, alloc, row));
    ObjectMeta::new(alloc, text(rt, alloc, name), fields)
}

fn implementor(
    rt: &impl Abort,
    alloc: Global,
    object: ObjectMeta<DefaultScalarValue>,
    interface: &str,
) -> Meta {
    let names = alone(rt, alloc, text(rt, alloc, interface));
    object.interfaces(names).into_meta()
}

fn interface(rt: &impl Abort, alloc: Global, name: &str, row: FieldRow<'_>) -> Meta {
    let fields = declared_alone(rt, alloc, field(rt, alloc, row));
    InterfaceMeta::new(alloc, text(rt, alloc, name), fields).into_meta()
}

fn union_of(rt: &impl Abort, alloc: Global, name: &str, member: &str) -> Meta {
    let members = alone(rt, alloc, text(rt, alloc, member));
    UnionMeta::new(text(rt, alloc, name), members).into_meta()
}

fn scalar(rt: &impl Abort, alloc: Global, name: &str, accepts: bool) -> Meta {
    ScalarMeta::new(text(rt, alloc, name), Verdict { alloc, accepts }).into_meta()
}

/// A check that accepts every value.
pub fn any_value(alloc: Global) -> Verdict {
    Verdict {
        alloc,
        accepts: true,
    }
}

fn enumeration(rt: &impl Abort, alloc: Global, name: &str, value: &str) -> Meta {
    let values = declared_alone(rt, alloc, EnumValue::new(text(rt, alloc, value)));
    EnumMeta::new(text(rt, alloc, name), values, any_value(alloc)).into_meta()
}

fn input_object(rt: &impl Abort, alloc: Global, name: &str, field: &str, of: Of<'_>) -> Meta {
    let fields = declared_alone(rt, alloc, argument(rt, alloc, field, of));
    InputObjectMeta::new(text(rt, alloc, name), fields, any_value(alloc)).into_meta()
}

/// The type that is meant.
fn meta_of(rt: &impl Abort, alloc: Global, row: Row<'_>) -> Meta {
    match row {
        Row::Scalar(name) => scalar(rt, alloc, name, true),
        Row::Refusing(name) => scalar(rt, alloc, name, false),
        Row::Object(name, of) => object(rt, alloc, name, of).into_meta(),
        Row::Implementor(name, of, listed) => {
            implementor(rt, alloc, object(rt, alloc, name, of), listed)
        }
        Row::Interface(name, of) => interface(rt, alloc, name, of),
        Row::Union(name, member) => union_of(rt, alloc, name, member),
        Row::Enum(name, value) => enumeration(rt, alloc, name, value),
        Row::InputObject(name, field, of) => input_object(rt, alloc, name, field, of),
    }
}

/// The types, and behind them those that are meant.
fn with_all(
    rt: &impl Abort,
    alloc: Global,
    mut types: Items<Meta>,
    rows: &[Row<'_>],
) -> Items<Meta> {
    for row in rows {
        types = with(rt, types, meta_of(rt, alloc, *row));
    }
    types
}

/// The schema of these types and of what every schema has, with the query root `Query`, a mutation
/// root where one is given, and the name of no subscription root.
pub fn schema(rt: &impl Abort, alloc: Global, rows: &[Row<'_>], mutation: Option<&str>) -> Schema {
    let types = with_all(rt, alloc, Items::new(alloc), &every_schema());
    let types = with_all(rt, alloc, types, rows);
    SchemaType::new(alloc, types, "Query", mutation, Some("_EmptySubscription")).expect(
        rt, "a schema",
    )
}
