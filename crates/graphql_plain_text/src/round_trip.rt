//! Writes a value and reads it back.

ghost use Rattle.std.specs.Prelude.{◌≡◌, IfOk, IfErr};
ghost use Rattle.std.specs.Str.{chars};
ghost use Rattle.graphql_text.specs.declared.parse_error.ParseError.TheVariants.{Memory};
ghost use Rattle.graphql_values.specs.InputValues.{unlocated};
ghost use Rattle.graphql_plain_text.specs.ReadBackLaws.{IsSpelledBy};
ghost use Rattle.graphql_plain_text.specs.Writable.{IsWritable, value_text};

use graphql_language::{Parser, parse_value_literal};
use graphql_text::{ParseError, ParseResult, Spanning};
use graphql_values::InputValue;
use std::alloc::Global;

/// The same value, parsed from the text that `value` displays as: what the tokens of that text
/// spell, each part at its place there (GraphQL October 2021, 2.9 Input Values). `is_writable`
/// tells whether it can be. A constant holds no variable. It takes no more stack however deep the
/// value is. The only error is want of memory.
pub fn read_back(alloc: Global, value: &InputValue, is_const: bool) -> ParseResult<InputValue>
    requires { IsWritable is_const value.now }
    ensures same { IfOk result (λ found. unlocated found.item ≡ unlocated value.now) }
    ensures spelled { IfOk result
        (λ found. IsSpelledBy is_const (chars (value_text value.now)) found) }
    ensures memory { IfErr result (λ e. e.item ≡ Memory) }
{
    let text = match value.to_string(alloc) {
        Ok(text) => text,
        Err(_) => return Err(Spanning::unlocated(ParseError::Memory)),
    };
    let mut parser = match Parser::new(alloc, text.as_str()) {
        Ok(parser) => parser,
        Err(fault) => return Err(fault),
    };
    parse_value_literal(&mut parser, is_const)
}
