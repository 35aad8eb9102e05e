//! The type reference or the constant literal that a text is.

ghost use Rattle.std.specs.Prelude.{◌≡◌, ◌≢◌, ◌↔◌, IfOk, IsTrue, None};
ghost use Rattle.graphql_text.specs.Memory.{Gives};
ghost use Rattle.graphql_text.specs.declared.parse_error.ParseError.TheVariants.{Memory};
ghost use Rattle.graphql_text.specs.declared.token.Token.TheVariants.{EndOfFile};
ghost use Rattle.graphql_grammar.specs.Input.{peek};
ghost use Rattle.graphql_schema_files.specs.SpelledTexts as spec;

use graphql_grammar::Fault;
use graphql_language::{Parser, parse_type, parse_value_literal};
use graphql_names::Type;
use graphql_text::{ParseError, Text, TextRef, Token};
use graphql_values::InputValue;
use std::alloc::{AllocError, Global};

/// Nothing is found, by this fault. An error is want of memory.
fn nothing<T>(fault: &Fault) -> Result<Option<T>, AllocError>
    ensures { IfOk result (λ found. (found ≡ None) × (fault.now.item ≢ Memory)) }
{
    match fault.item {
        ParseError::Memory => Err(AllocError),
        _ => Ok(None),
    }
}

/// Whether nothing but the end of its text is left of a parser.
fn is_at_end(parser: &Parser<'_>) -> bool
    ensures { IsTrue result ↔ ((peek parser.now.input).item ≡ EndOfFile) }
{
    match parser.peek().item {
        Token::EndOfFile => true,
        _ => false,
    }
}

/// The same type reference, with a name of its own. An error is want of memory.
fn owned(alloc: Global, found: Type<TextRef<'_>>) -> Result<Type<Text>, AllocError>
    ensures { Gives result found.entry }
{
    let name = Text::from_str(alloc, found.name.as_str())?;
    Ok(Type {
        name,
        modifiers: found.modifiers,
    })
}

/// The type reference that a text is, as a whole (GraphQL October 2021, 2.11 Type References);
/// `None` where it is none. An error is want of memory.
pub fn type_of_text(alloc: Global, text: &str) -> Result<Option<Type<Text>>, AllocError>
    ensures { IfOk result (spec.FindsMeant spec.IsType spec.HasType text.now) }
{
    let mut parser = match Parser::new(alloc, text) {
        Ok(parser) => parser,
        Err(fault) => return nothing(&fault),
    };
    let found = match parse_type(&mut parser) {
        Ok(found) => found,
        Err(fault) => return nothing(&fault),
    };
    if is_at_end(&parser) {
        Ok(Some(owned(alloc, found.item)?))
    } else {
        Ok(None)
    }
}

/// The value that a text is, as a whole, in which no variable stands (GraphQL October 2021, 2.9
/// Input Values); `None` where it is none. An error is want of memory.
pub fn literal_of_text(alloc: Global, text: &str) -> Result<Option<InputValue>, AllocError>
    ensures { IfOk result (spec.FindsMeant spec.IsLiteral spec.HasLiteral text.now) }
{
    let mut parser = match Parser::new(alloc, text) {
        Ok(parser) => parser,
        Err(fault) => return nothing(&fault),
    };
    let found = match parse_value_literal(&mut parser, true) {
        Ok(found) => found,
        Err(fault) => return nothing(&fault),
    };
    if is_at_end(&parser) {
        Ok(Some(found.item))
    } else {
        Ok(None)
    }
}

/// The type reference that a text is, which is lent. An error is want of memory.
pub(crate) fn type_in(alloc: Global, text: &TextRef<'_>) -> Result<Option<Type<Text>>, AllocError>
    ensures { IfOk result (spec.FindsMeant spec.IsType spec.HasType text.now) }
{
    type_of_text(alloc, text.as_str())
}

/// The constant literal that a text is, which is lent. An error is want of memory.
pub(crate) fn literal_in(
    alloc: Global,
    text: &TextRef<'_>,
) -> Result<Option<InputValue>, AllocError>
    ensures { IfOk result (spec.FindsMeant spec.IsLiteral spec.HasLiteral text.now) }
{
    literal_of_text(alloc, text.as_str())
}
