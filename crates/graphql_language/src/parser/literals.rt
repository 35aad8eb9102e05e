//! Values and type references, parsed where a parser stands.

ghost use Rattle.std.specs.Prelude.{◌<◌, OnOk};
ghost use Rattle.graphql_grammar.specs.Input.{left};
ghost use Rattle.graphql_language.specs.Literals.{NextValue, NextType};
ghost use Rattle.graphql_language.specs.Parser.{Calls};

use super::Parser;
use graphql_text::{ParseResult, TextRef};
use graphql_value_syntax::type_reference::type_reference;
use graphql_value_syntax::value::value;
use graphql_values::{InputValue, ScalarValue, Type};

/// The value that stands next, at its place, and goes behind it (GraphQL October 2021, 2.9 Input
/// Values). A constant holds no variable.
///
/// It refuses only where no tokens in front spell a value, whatever follows one. A refusal is about
/// the first token that no value could have there: `UnexpectedEndOfFile` at the end of the text;
/// what the scalar type says of a literal that it refuses; `UnexpectedToken` with the token's
/// source text. By a refusal the parser has failed, and stands at that token, behind those before
/// it. `Memory` comes only where memory ran out.
pub fn parse_value_literal<S: ScalarValue>(
    parser: &mut Parser<'_>,
    is_const: bool,
) -> ParseResult<InputValue<S>>
    ensures calls { Calls (NextValue S S.reads S.of_bool is_const) parser.old result parser.new }
    ensures fewer { OnOk result (left parser.new.input < left parser.old.input) }
{
    parser.ready()?;
    let answer = value(parser.alloc, &mut parser.cursor, is_const);
    parser.keep_refusal(answer)
}

/// The type reference that stands next, at its place, and goes behind it (GraphQL October 2021,
/// 2.11 Type References): the longest that stands there.
///
/// It refuses only where no tokens in front spell a type reference, whatever follows one. A refusal
/// is about the first token that no type reference could have there: `UnexpectedEndOfFile` at the
/// end of the text, `UnexpectedToken` with the token's source text. By a refusal the parser has
/// failed, and stands at that token, behind those before it. `Memory` comes only where memory ran
/// out.
pub fn parse_type<'a>(parser: &mut Parser<'a>) -> ParseResult<Type<TextRef<'a>>>
    ensures calls { Calls NextType parser.old result parser.new }
    ensures fewer { OnOk result (left parser.new.input < left parser.old.input) }
{
    parser.ready()?;
    let answer = type_reference(parser.alloc, &mut parser.cursor);
    parser.keep_refusal(answer)
}
