//! Schemas as the standard writes them (GraphQL October 2021, 3 Type System), as far as cases need
//! it: without descriptions and directives. The interfaces of a type stand one behind another
//! without `&`.
//! A name behind `@` says what a type accepts where its own name does not.

use crate::checked::Checked;
use crate::faults::Fault;
use graphql_language::{Parser, parse_type, parse_value_literal};
use graphql_names::{Named, NamedItems, Type};
use graphql_schema::{
    Argument, DeprecationStatus, EnumMeta, EnumValue, Field, InputObjectMeta, InterfaceMeta,
    MetaType, ObjectMeta, ScalarMeta, TypeCheck, UnionMeta,
};
use graphql_text::{Items, Text, Token};
use graphql_values::{DefaultScalarValue, InputValue};
use std::alloc::{AllocError, Global};

pub type Meta = MetaType<DefaultScalarValue>;

/// How many parts a list has at most.
pub const MOST: usize = 1_000;

/// The names of a schema's roots.
#[derive(Clone, Copy)]
pub struct Roots<'a> {
    pub query: &'a str,
    pub mutation: Option<&'a str>,
    pub subscription: Option<&'a str>,
}

#[derive(Clone, Copy)]
enum Kind {
    Scalar,
    Enum,
    InputObject,
    OneOf,
    Object,
    Interface,
    Union,
}

/// How a type begins.
#[derive(Drop)]
pub struct Head {
    kind: Kind,
    name: Text,
    pub checked: Checked,
}

/// What stands in a list.
trait Part: Sized {
    /// The part that stands next.
    fn read(alloc: Global, parser: &mut Parser<'_>) -> Result<Self, Fault>;
}

/// The items with one more.
pub fn push<T: Drop>(items: &mut Items<T>, item: T) -> Result<(), AllocError> {
    items.push(item)?;
    Ok(())
}

/// The parts that stand before this token, and goes behind it.
fn parts<T: Part + Drop>(
    alloc: Global,
    parser: &mut Parser<'_>,
    close: &Token<'_>,
) -> Result<Items<T>, Fault> {
    let mut parts = Items::new(alloc);
    for _turn in 0..MOST {
        if parser.skip(close)?.is_some() {
            break;
        }
        let part = T::read(alloc, parser)?;
        push(&mut parts, part)?;
    }
    Ok(parts)
}

/// The same, of parts that are found by their names.
fn named_parts<T: Part + Named + Drop>(
    alloc: Global,
    parser: &mut Parser<'_>,
    close: &Token<'_>,
) -> Result<NamedItems<T>, Fault> {
    let parts = parts(alloc, parser, close)?;
    let named = NamedItems::from_items(parts)?;
    Ok(named)
}

impl Part for Text {
    fn read(alloc: Global, parser: &mut Parser<'_>) -> Result<Text, Fault> {
        let name = parser.expect_name()?;
        let text = Text::from_str(alloc, name.item.as_str())?;
        Ok(text)
    }
}

impl Part for EnumValue {
    fn read(alloc: Global, parser: &mut Parser<'_>) -> Result<EnumValue, Fault> {
        let name = Text::read(alloc, parser)?;
        Ok(EnumValue::new(name))
    }
}

/// The type behind a colon.
fn read_type(alloc: Global, parser: &mut Parser<'_>) -> Result<Type<Text>, Fault> {
    parser.expect(&Token::Colon)?;
    let Type { name, modifiers } = parse_type(parser)?.item;
    let name = Text::from_str(alloc, name.as_str())?;
    Ok(Type { name, modifiers })
}

/// The default that stands next, if one does.
fn read_default(parser: &mut Parser<'_>) -> Result<Option<InputValue<DefaultScalarValue>>, Fault> {
    if parser.skip(&Token::Equals)?.is_none() {
        return Ok(None);
    }
    match parse_value_literal(parser, true) {
        Ok(value) => Ok(Some(value.item)),
        Err(fault) => Err(fault),
    }
}

impl Part for Argument<DefaultScalarValue> {
    fn read(alloc: Global, parser: &mut Parser<'_>) -> Result<Argument<DefaultScalarValue>, Fault> {
        let name = Text::read(alloc, parser)?;
        let arg_type = read_type(alloc, parser)?;
        let default_value = read_default(parser)?;
        Ok(Argument {
            name,
            description: None,
            arg_type,
            default_value,
        })
    }
}

/// The arguments that stand next, if there are any.
fn read_arguments(
    alloc: Global,
    parser: &mut Parser<'_>,
) -> Result<Option<NamedItems<Argument<DefaultScalarValue>>>, Fault> {
    if parser.skip(&Token::ParenOpen)?.is_none() {
        return Ok(None);
    }
    let arguments = named_parts(alloc, parser, &Token::ParenClose)?;
    Ok(Some(arguments))
}

impl Part for Field<DefaultScalarValue> {
    fn read(alloc: Global, parser: &mut Parser<'_>) -> Result<Field<DefaultScalarValue>, Fault> {
        let name = Text::read(alloc, parser)?;
        let arguments = read_arguments(alloc, parser)?;
        let field_type = read_type(alloc, parser)?;
        Ok(Field {
            name,
            description: None,
            arguments,
            field_type,
            deprecation_status: DeprecationStatus::Current,
        })
    }
}

/// The name of the root that stands next, if it is of this kind.
fn read_root<'a>(parser: &mut Parser<'a>, kind: &str) -> Result<Option<&'a str>, Fault> {
    let stands_next = match parser.peek().item {
        Token::Name(word) => word.is(kind),
        _ => false,
    };
    if !stands_next {
        return Ok(None);
    }
    parser.next_token()?;
    parser.expect(&Token::Colon)?;
    let name = parser.expect_name()?;
    Ok(Some(name.item.as_str()))
}

/// The names of the roots, which stand next.
pub fn read_roots<'a>(parser: &mut Parser<'a>) -> Result<Roots<'a>, Fault> {
    parser.expect_name()?;
    parser.expect(&Token::CurlyOpen)?;
    let query = read_root(parser, "query")?.unwrap_or("");
    let mutation = read_root(parser, "mutation")?;
    let subscription = read_root(parser, "subscription")?;
    parser.expect(&Token::CurlyClose)?;
    Ok(Roots {
        query,
        mutation,
        subscription,
    })
}

fn kind_of(word: &str) -> Kind {
    match word {
        "scalar" => Kind::Scalar,
        "enum" => Kind::Enum,
        "input" => Kind::InputObject,
        "oneOf" => Kind::OneOf,
        "interface" => Kind::Interface,
        "union" => Kind::Union,
        _ => Kind::Object,
    }
}

/// How the type begins that stands next, if one does.
pub fn read_head(alloc: Global, parser: &mut Parser<'_>) -> Result<Option<Head>, Fault> {
    if matches!(parser.peek().item, Token::EndOfFile) {
        return Ok(None);
    }
    let kind = kind_of(parser.expect_name()?.item.as_str());
    let name = Text::read(alloc, parser)?;
    let mut checked = Checked::of(name.as_str());
    if matches!(parser.peek().item, Token::At) {
        parser.next_token()?;
        checked = Checked::of(parser.expect_name()?.item.as_str());
    }
    Ok(Some(Head {
        kind,
        name,
        checked,
    }))
}

/// The interfaces of the type, if it lists any, up to its fields.
fn read_interfaces(alloc: Global, parser: &mut Parser<'_>) -> Result<Items<Text>, Fault> {
    if matches!(parser.peek().item, Token::Name(_)) {
        parser.next_token()?;
    }
    parts(alloc, parser, &Token::CurlyOpen)
}

fn read_object(alloc: Global, parser: &mut Parser<'_>, name: Text) -> Result<Meta, Fault> {
    let interfaces = read_interfaces(alloc, parser)?;
    let fields = named_parts(alloc, parser, &Token::CurlyClose)?;
    Ok(
        ObjectMeta::new(alloc, name, fields)
            .interfaces(interfaces)
            .into_meta(),
    )
}

fn read_interface(alloc: Global, parser: &mut Parser<'_>, name: Text) -> Result<Meta, Fault> {
    let interfaces = read_interfaces(alloc, parser)?;
    let fields = named_parts(alloc, parser, &Token::CurlyClose)?;
    Ok(
        InterfaceMeta::new(alloc, name, fields)
            .interfaces(interfaces)
            .into_meta(),
    )
}

fn read_union(alloc: Global, parser: &mut Parser<'_>, name: Text) -> Result<Meta, Fault> {
    parser.expect(&Token::Equals)?;
    let mut members = Items::new(alloc);
    for _turn in 0..MOST {
        let member = Text::read(alloc, parser)?;
        push(&mut members, member)?;
        if !matches!(parser.peek().item, Token::Pipe) {
            break;
        }
        parser.next_token()?;
    }
    Ok(UnionMeta::new(name, members).into_meta())
}

fn read_enum(
    alloc: Global,
    parser: &mut Parser<'_>,
    name: Text,
    check: TypeCheck,
) -> Result<Meta, Fault> {
    parser.expect(&Token::CurlyOpen)?;
    let values = named_parts(alloc, parser, &Token::CurlyClose)?;
    Ok(EnumMeta::new(name, values, check).into_meta())
}

fn read_input_object(
    alloc: Global,
    parser: &mut Parser<'_>,
    name: Text,
    check: TypeCheck,
) -> Result<InputObjectMeta<DefaultScalarValue>, Fault> {
    parser.expect(&Token::CurlyOpen)?;
    let fields = named_parts(alloc, parser, &Token::CurlyClose)?;
    Ok(InputObjectMeta::new(name, fields, check))
}

/// The type that begins so.
pub fn read_type_from(
    alloc: Global,
    parser: &mut Parser<'_>,
    head: Head,
    check: TypeCheck,
) -> Result<Meta, Fault> {
    let name = head.name;
    match head.kind {
        Kind::Scalar => Ok(ScalarMeta::new(name, check).into_meta()),
        Kind::Enum => read_enum(alloc, parser, name, check),
        Kind::InputObject => Ok(read_input_object(alloc, parser, name, check)?.into_meta()),
        Kind::OneOf => Ok(
            read_input_object(alloc, parser, name, check)?
                .one_of()
                .into_meta(),
        ),
        Kind::Object => read_object(alloc, parser, name),
        Kind::Interface => read_interface(alloc, parser, name),
        Kind::Union => read_union(alloc, parser, name),
    }
}
