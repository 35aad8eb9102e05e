//! Values at types.

use crate::faults::Fault;
use crate::groups::Root;
use crate::repeated::written_out;
use crate::schema_text::push;
use graphql_language::{Parser, parse_type, parse_value_literal};
use graphql_names::{BorrowedType, Type, TypeModifier};
use graphql_text::{ScalarToken, TextRef, Token};
use graphql_validation::{Source, validate_literal_value, validate_value};
use graphql_values::{DefaultScalarValue, InputValue};
use std::alloc::Global;

type Value = InputValue<DefaultScalarValue>;

/// Tells why the value does not conform to the type.
fn tell_reason(
    alloc: Global,
    root: &Root,
    source: Source,
    asked: &BorrowedType<'_>,
    value: &Value,
    told: &mut String,
) -> Result<(), Fault> {
    let schema = root.schema();
    let reason = match source {
        Source::Literal => validate_literal_value(alloc, schema, asked, value)?,
        Source::Sent => validate_value(alloc, schema, source, asked, value)?,
    };
    match reason {
        Some(reason) => write!(told, "=> {reason}\n")?,
        None => told.push_str("=> conforms\n")?,
    }
    Ok(())
}

/// The type that stands next. A number behind a list is how many items it has.
fn read_asked<'a>(parser: &mut Parser<'a>) -> Result<Type<TextRef<'a>>, Fault> {
    let mut asked = parse_type(parser)?.item;
    if let Token::Scalar(ScalarToken::Int(size)) = parser.peek().item {
        parser.next_token()?;
        asked.modifiers.clear();
        let list = TypeModifier::List(size.as_str().parse::<usize>().ok());
        push(&mut asked.modifiers, list)?;
    }
    Ok(asked)
}

/// Tells why the value that stands next does not conform to the type before it.
fn tell_literal(
    alloc: Global,
    root: &Root,
    source: Source,
    parser: &mut Parser<'_>,
    told: &mut String,
) -> Result<(), Fault> {
    let asked = read_asked(parser)?;
    parser.expect(&Token::Equals)?;
    let value = parse_value_literal(parser, false)?.item;
    tell_reason(alloc, root, source, &asked.borrowed(), &value, told)
}

/// Tells why a value does not conform to a type: `Type = value`.
pub fn answer_literal(
    alloc: Global,
    root: &Root,
    source: Source,
    case: &str,
    told: &mut String,
) -> Result<(), Fault> {
    let text = written_out(alloc, case)?;
    let mut parser = Parser::new(alloc, text.as_str())?;
    tell_literal(alloc, root, source, &mut parser, told)
}

/// What the check of the type of this name says of the value.
fn tell_said(root: &Root, name: &str, value: &Value, told: &mut String) -> Result<(), Fault> {
    match root.schema().check_value(name, value) {
        Some(Ok(())) => told.push_str("=> accepted\n")?,
        Some(Err(refusal)) => write!(told, "=> {refusal}\n")?,
        None => told.push_str("=> no check\n")?,
    }
    Ok(())
}

/// The same of the name and the value that stand next.
fn tell_check(root: &Root, parser: &mut Parser<'_>, told: &mut String) -> Result<(), Fault> {
    let asked = parser.expect_name()?.item;
    parser.expect(&Token::Equals)?;
    let value = parse_value_literal(parser, false)?.item;
    tell_said(root, asked.as_str(), &value, told)
}

/// Tells what the check of a type says of a value: `Type = value`.
pub fn answer_check(
    alloc: Global,
    root: &Root,
    case: &str,
    told: &mut String,
) -> Result<(), Fault> {
    let mut parser = Parser::new(alloc, case)?;
    tell_check(root, &mut parser, told)
}
