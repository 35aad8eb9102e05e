//! The tokens within a part of a text.

ghost use Rattle.std.specs.Prelude.{IfOk, IfErr};
ghost use Rattle.std.specs.Str.{chars};
ghost use Rattle.graphql_text.specs.Memory.{UnlessMemory};
ghost use Rattle.graphql_grammar.specs.Input.{IsMemory};
ghost use Rattle.graphql_grammar.specs.Cursor.{IsLexical};
ghost use Rattle.graphql_language.specs.TokenTexts.{AreTextsWithin};

use graphql_grammar::keep;
use graphql_lexer::{TokenRecords, TokenText};
use graphql_text::{Items, Span, UnlocatedParseResult};
use std::alloc::Global;

/// The tokens of a text that stand within a part of it, as within the span of a node of its tree,
/// each with its source text, in order: a string's with its quotes, and escapes as they are
/// written. What is ignored, as commas and comments, is no token (GraphQL October 2021, 2.1.7
/// Ignored Tokens).
///
/// Who asks for several parts of one text makes its `TokenRecords` once, and asks these for
/// `texts`.
///
/// An error is the text's first lexical fault, wherever it stands, or `ParseError::Memory` where
/// memory ran out.
pub fn token_texts<'a>(
    alloc: Global,
    source: &'a str,
    span: Span,
) -> UnlocatedParseResult<Items<TokenText<'a>>>
    ensures texts { IfOk result (λ texts. AreTextsWithin (chars source.now) span texts) }
    ensures fault { IfErr result (λ e. UnlessMemory IsMemory e (IsLexical (chars source.now) e)) }
{
    let records = TokenRecords::new(alloc, source)?;
    let mut found = Items::new(alloc);
    for text in records.texts(span) {
        keep(&mut found, text)?;
    }
    Ok(found)
}
