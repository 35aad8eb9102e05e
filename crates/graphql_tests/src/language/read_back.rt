use crate::language::told::check;
use graphql_grammar::Fault;
use graphql_language::{Parser, parse_type, parse_value_literal};
use graphql_names::Type;
use graphql_plain_text::{is_writable, read_back};
use graphql_text::{Items, Spanning, Text, TextRef, Token};
use graphql_values::InputValue;
use std::alloc::{AllocError, Global};

/// The text `text`, as a value.
fn text(alloc: Global, text: &str) -> Result<InputValue, AllocError> {
    Ok(InputValue::scalar(Text::from_str(alloc, text)?))
}

/// A field of this name and value.
fn field(
    alloc: Global,
    name: &str,
    value: Result<InputValue, AllocError>,
) -> Result<(Text, InputValue), AllocError> {
    let value = value?;
    Ok((Text::from_str(alloc, name)?, value))
}

/// An object of an enum value and a variable.
fn inner(alloc: Global) -> Result<InputValue, AllocError> {
    let jedi = field(alloc, "e", InputValue::enum_value(alloc, "JEDI"))?;
    let variable = field(alloc, "v", InputValue::variable(alloc, "v"))?;
    let fields = vec![in alloc; jedi, variable]?;
    InputValue::object(alloc, fields)
}

/// A list of null, an integer, a boolean, a text, an object and a list.
fn list(alloc: Global) -> Result<InputValue, AllocError> {
    let text = text(alloc, "é, [b]")?;
    let object = inner(alloc)?;
    let values = vec![in alloc;
        InputValue::null(),
        InputValue::scalar(-2147483648),
        InputValue::scalar(false),
        text,
        object,
        InputValue::parsed_list(Items::new(alloc)),
    ]?;
    InputValue::list(alloc, values)
}

/// An object of a value of every kind.
fn every_kind(alloc: Global) -> Result<InputValue, AllocError> {
    let list = field(alloc, "_1", list(alloc))?;
    let on = field(alloc, "on", Ok(InputValue::scalar(true)))?;
    let fields = vec![in alloc; list, on]?;
    InputValue::object(alloc, fields)
}

/// That object, as it is displayed.
fn shown(alloc: Global) -> Result<String, AllocError> {
    every_kind(alloc)?.to_string(alloc)
}

/// Whether a text is that value alone.
fn is_value(alloc: Global, text: &str, value: &InputValue) -> Result<bool, Fault> {
    let mut parser = Parser::new(alloc, text)?;
    let found: Spanning<InputValue> = parse_value_literal(&mut parser, false)?;
    Ok(found.item.unlocated_eq(alloc, value)? && parser.peek().item == Token::EndOfFile)
}

/// Whether what is displayed of that object is that object.
fn shown_is_read(alloc: Global) -> Result<bool, Fault> {
    let value = every_kind(alloc)?;
    let shown = value.to_string(alloc)?;
    is_value(alloc, shown.as_str(), &value)
}

/// Whether that object can be read back, and is.
fn is_read_back(alloc: Global) -> Result<bool, Fault> {
    let value = every_kind(alloc)?;
    if !is_writable(&value, false) {
        return Ok(false);
    }
    let found = read_back(alloc, &value, false)?;
    Ok(found.item.unlocated_eq(alloc, &value)?)
}

/// The type `[[Int!]]!`.
fn nested(alloc: Global) -> Result<Type<TextRef<'static>>, AllocError> {
    let int = Type::new(alloc, TextRef::new("Int")).wrap_non_null()?;
    int.wrap_list(None)?.wrap_list(None)?.wrap_non_null()
}

/// Whether a text is that type alone.
fn is_nested(alloc: Global, text: &str) -> Result<bool, Fault> {
    let mut parser = Parser::new(alloc, text)?;
    let found = parse_type(&mut parser)?;
    Ok(found.item == nested(alloc)? && parser.peek().item == Token::EndOfFile)
}

#[test]
fn values_and_types_are_read_back(rt: HostRuntime) -> Result<(), Fault> {
    let alloc = rt.alloc();
    let shown_is_read = shown_is_read(alloc)?;
    assert!(rt; shown_is_read);
    let is_read_back = is_read_back(alloc)?;
    assert!(rt; is_read_back);
    let is_nested = is_nested(alloc, "[[Int!]]!")?;
    assert!(rt; is_nested);
    Ok(())
}

/// The nested type, as it is displayed.
fn nested_shown(alloc: Global) -> Result<String, AllocError> {
    nested(alloc)?.to_string(alloc)
}

#[test]
fn values_and_types_are_displayed(rt: HostRuntime) -> Result<(), AllocError> {
    check(
        &rt,
        shown(rt.alloc()),
        "{_1: [null, -2147483648, false, \"é, [b]\", {e: JEDI, v: $v}, []], on: true}",
    )?;
    check(&rt, nested_shown(rt.alloc()), "[[Int!]]!")
}

/// Whether a value can be read back.
fn writable(value: Result<InputValue, AllocError>, constant: bool) -> Result<bool, AllocError> {
    let value = value?;
    Ok(is_writable(&value, constant))
}

#[test]
fn writable_values_are_told(rt: HostRuntime) -> Result<(), AllocError> {
    let alloc = rt.alloc();
    let rows = [
        (writable(InputValue::variable(alloc, "v"), false), true),
        (writable(InputValue::variable(alloc, "v"), true), false),
        (
            writable(InputValue::enum_value(alloc, "true"), false),
            false,
        ),
        (writable(text(alloc, "tab\tand é"), true), true),
        (writable(text(alloc, "a\"b"), true), false),
    ];
    for row in rows {
        let is_writable = row.0?;
        assert!(rt; is_writable == row.1);
    }
    Ok(())
}
