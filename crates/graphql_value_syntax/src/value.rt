//! Values (GraphQL October 2021, 2.9 Input Values).

ghost use Rattle.std.specs.Prelude.{◌≡◌, ◌<◌, ◌≤◌, OnOk};
ghost use Rattle.graphql_values.specs.declared.input_value.InputValue.TheVariants as v;
ghost use Rattle.graphql_grammar.specs.declared.kind.Kind.TheVariants as k;
ghost use Rattle.graphql_grammar.specs.Input.{Reads, StandsAt, left};
ghost use Rattle.graphql_grammar.specs.Leaves.{Behind};
ghost use Rattle.graphql_value_syntax.specs.ReadParts as parts;
ghost use Rattle.graphql_value_syntax.specs.ReadValues as spec;

use crate::nested::{Begun, begin, rest};
use graphql_grammar::{Cursor, Fault, Kind};
use graphql_text::{Spanning, Text, TextRef, Token};
use graphql_values::{InputValue, ScalarValue};
use std::alloc::Global;

/// Reads a value, with its place, in a stack that does not grow with its depth. A constant holds no
/// variable.
///
/// An error is the fault of the first token that can't stand where it does, or what the scalar type
/// says of a literal that it refuses, or `ParseError::Memory` where memory ran out.
pub fn value<S: ScalarValue>(
    alloc: Global,
    cursor: &mut Cursor<'_>,
    is_const: bool,
) -> Result<Spanning<InputValue<S>>, Fault>
    ensures reads { Reads (spec.value S.reads S.of_bool is_const cursor.old) result cursor.new }
    ensures no_more { left cursor.new ≤ left cursor.old }
    ensures behind { Behind cursor.old cursor.new }
    ensures stands { StandsAt result cursor.new }
{
    match begin(alloc, cursor, is_const)? {
        Begun::Whole(value) => Ok(value),
        Begun::Opens(open) => rest(alloc, cursor, is_const, open),
    }
}

/// Reads a name, a colon and a value, and gives the name and the value.
pub(crate) fn named<'a, S: ScalarValue>(
    alloc: Global,
    cursor: &mut Cursor<'a>,
    is_const: bool,
) -> Result<(Spanning<TextRef<'a>>, Spanning<InputValue<S>>), Fault>
    ensures reads { Reads (spec.name_and (spec.value S.reads S.of_bool is_const) cursor.old) result
        cursor.new }
    ensures no_more { left cursor.new ≤ left cursor.old }
    ensures stands { StandsAt result cursor.new }
{
    let name = key(alloc, cursor)?;
    let item = value(alloc, cursor, is_const)?;
    Ok((name, item))
}

/// Reads a name and the colon behind it, and gives the name.
fn key<'a>(alloc: Global, cursor: &mut Cursor<'a>) -> Result<Spanning<TextRef<'a>>, Fault>
    ensures reads { Reads (parts.key cursor.old) result cursor.new }
    ensures no_more { left cursor.new ≤ left cursor.old }
    ensures behind { Behind cursor.old cursor.new }
    ensures stands { StandsAt result cursor.new }
    ensures fewer { OnOk result (left cursor.new < left cursor.old) }
{
    let start = cursor.start();
    let name = cursor.name(alloc)?;
    let name = cursor.closed(start, name);
    cursor.expect(alloc, Kind::Colon)?;
    Ok(name)
}

/// As `key`, with the name as a text of its own.
pub(crate) fn owned_key(alloc: Global, cursor: &mut Cursor<'_>) -> Result<Spanning<Text>, Fault>
    ensures reads { Reads (parts.key cursor.old) result cursor.new }
    ensures no_more { left cursor.new ≤ left cursor.old }
    ensures behind { Behind cursor.old cursor.new }
    ensures stands { StandsAt result cursor.new }
    ensures fewer { OnOk result (left cursor.new < left cursor.old) }
{
    let name = key(alloc, cursor)?;
    let text = Text::from_str(alloc, name.item.as_str())?;
    Ok(Spanning::new(name.span, text))
}

/// Reads a value that holds no other: a variable, where the value is no constant, or a scalar or a
/// word.
pub(crate) fn single<S: ScalarValue>(
    alloc: Global,
    cursor: &mut Cursor<'_>,
    is_const: bool,
) -> Result<InputValue<S>, Fault>
    ensures reads { Reads (spec.variable_or S.reads S.of_bool is_const cursor.old) result
        cursor.new }
    ensures no_more { left cursor.new ≤ left cursor.old }
    ensures behind { Behind cursor.old cursor.new }
    ensures stands { StandsAt result cursor.new }
{
    match cursor.kind() {
        Kind::Dollar if !is_const => variable(alloc, cursor),
        Kind::Scalar => scalar(alloc, cursor),
        _ => word(alloc, cursor),
    }
}

/// Reads a variable (2.10 Variables).
fn variable<S: ScalarValue>(alloc: Global, cursor: &mut Cursor<'_>) -> Result<InputValue<S>, Fault>
    ensures reads { Reads (spec.variable S.reads S.of_bool cursor.old) result cursor.new }
    ensures no_more { left cursor.new ≤ left cursor.old }
    ensures behind { Behind cursor.old cursor.new }
    ensures stands { StandsAt result cursor.new }
{
    cursor.expect(alloc, Kind::Dollar)?;
    let name = cursor.name(alloc)?;
    Ok(InputValue::Variable(Text::from_str(alloc, name.as_str())?))
}

/// Reads a number or a string, by what the scalar type says of it (2.9.1 Int Value, 2.9.2 Float
/// Value, 2.9.4 String Value).
fn scalar<S: ScalarValue>(alloc: Global, cursor: &mut Cursor<'_>) -> Result<InputValue<S>, Fault>
    ensures reads { Reads (parts.by_scalar S.reads v.Scalar cursor.old) result cursor.new }
    ensures no_more { left cursor.new ≤ left cursor.old }
    ensures behind { Behind cursor.old cursor.new }
    ensures stands { StandsAt result cursor.new }
{
    let next = cursor.peek();
    match &next.item {
        Token::Scalar(token) => match S::from_str(alloc, token) {
            Ok(scalar) => {
                cursor.advance();
                Ok(InputValue::Scalar(scalar))
            }
            Err(error) => Err(Spanning::new(next.span, error)),
        },
        _ => Err(cursor.refuse(alloc)),
    }
}

/// Reads `true`, `false`, `null` or the name of an enum's value (2.9.3 Boolean Value, 2.9.5 Null
/// Value).
fn word<S: ScalarValue>(alloc: Global, cursor: &mut Cursor<'_>) -> Result<InputValue<S>, Fault>
    ensures reads { Reads (spec.word_literal S.reads S.of_bool cursor.old) result cursor.new }
    ensures no_more { left cursor.new ≤ left cursor.old }
    ensures behind { Behind cursor.old cursor.new }
    ensures stands { StandsAt result cursor.new }
{
    match cursor.kind() {
        Kind::True => {
            cursor.advance();
            Ok(InputValue::Scalar(S::from_bool(true)))
        }
        Kind::False => {
            cursor.advance();
            Ok(InputValue::Scalar(S::from_bool(false)))
        }
        Kind::Null => {
            cursor.advance();
            Ok(InputValue::Null)
        }
        _ => enum_value(alloc, cursor),
    }
}

/// Reads a name as the name of an enum's value (2.9.6 Enum Value).
fn enum_value<S: ScalarValue>(
    alloc: Global,
    cursor: &mut Cursor<'_>,
) -> Result<InputValue<S>, Fault>
    ensures reads { Reads (parts.by_name v.Enum cursor.old) result cursor.new }
    ensures no_more { left cursor.new ≤ left cursor.old }
    ensures behind { Behind cursor.old cursor.new }
    ensures stands { StandsAt result cursor.new }
{
    let name = cursor.name(alloc)?;
    Ok(InputValue::Enum(Text::from_str(alloc, name.as_str())?))
}
