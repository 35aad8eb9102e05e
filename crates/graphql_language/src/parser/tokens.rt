//! What parsers read of single tokens.

ghost use Rattle.std.specs.Prelude.{◌≡◌, ◌↔◌, ◌<◌, ◌≤◌, IsTrue, OnOk, OnErr};
ghost use Rattle.graphql_grammar.specs.Input.{left};
ghost use Rattle.graphql_language.specs.Parser.{ReadsBy, NextToken, ThisToken, MaybeToken};
ghost use Rattle.graphql_language.specs.Parser.{NextName};

use graphql_grammar::Cursor;
use graphql_text::{OptionParseResult, ParseResult, Spanning, TextRef, Token};
use std::alloc::Global;

/// Whether two tokens are the same.
fn is_token(token: &Token<'_>, wanted: &Token<'_>) -> bool
    ensures { IsTrue result ↔ (token.now ≡ wanted.now) }
{
    token == wanted
}

/// The next token, and goes behind it; refuses the end of the text.
pub(super) fn next_token<'a>(alloc: Global, cursor: &mut Cursor<'a>) -> ParseResult<Token<'a>>
    ensures reads { ReadsBy NextToken cursor.old result cursor.new }
    ensures fewer { OnOk result (left cursor.new < left cursor.old) }
    ensures stays { OnErr result (cursor.new ≡ cursor.old) }
{
    let next = cursor.peek();
    match next.item {
        Token::EndOfFile => Err(cursor.refuse(alloc)),
        item => {
            cursor.advance();
            Ok(Spanning::new(next.span, item))
        }
    }
}

/// The next token where it is this one, and goes behind it; refuses any other, and the end of the
/// text.
pub(super) fn this_token<'a>(
    alloc: Global,
    cursor: &mut Cursor<'a>,
    wanted: &Token<'_>,
) -> ParseResult<Token<'a>>
    ensures reads { ReadsBy (ThisToken wanted.now) cursor.old result cursor.new }
    ensures fewer { OnOk result (left cursor.new < left cursor.old) }
    ensures stays { OnErr result (cursor.new ≡ cursor.old) }
{
    let next = cursor.peek();
    match next.item {
        Token::EndOfFile => Err(cursor.refuse(alloc)),
        item if is_token(&item, wanted) => {
            cursor.advance();
            Ok(Spanning::new(next.span, item))
        }
        _ => Err(cursor.refuse(alloc)),
    }
}

/// The next token where it is this one, and goes behind it; nothing at any other, but refuses the
/// end of the text.
pub(super) fn maybe_token<'a>(
    alloc: Global,
    cursor: &mut Cursor<'a>,
    wanted: &Token<'_>,
) -> OptionParseResult<Token<'a>>
    ensures reads { ReadsBy (MaybeToken wanted.now) cursor.old result cursor.new }
    ensures no_more { left cursor.new ≤ left cursor.old }
    ensures stays { OnErr result (cursor.new ≡ cursor.old) }
{
    let next = cursor.peek();
    match next.item {
        Token::EndOfFile => Err(cursor.refuse(alloc)),
        item if is_token(&item, wanted) => {
            cursor.advance();
            Ok(Some(Spanning::new(next.span, item)))
        }
        _ => Ok(None),
    }
}

/// The name that stands next, at its place, and goes behind it; refuses any other token.
pub(super) fn name<'a>(alloc: Global, cursor: &mut Cursor<'a>) -> ParseResult<TextRef<'a>>
    ensures reads { ReadsBy NextName cursor.old result cursor.new }
    ensures fewer { OnOk result (left cursor.new < left cursor.old) }
    ensures stays { OnErr result (cursor.new ≡ cursor.old) }
{
    let start = cursor.start();
    match cursor.name(alloc) {
        Ok(name) => Ok(cursor.closed(start, name)),
        Err(fault) => Err(fault),
    }
}
