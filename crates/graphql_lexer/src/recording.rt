//! Reads a text into the records of its tokens.

ghost use Rattle.std.specs.Prelude.{◌≡◌, ◌≤◌, ◌-◌, IfOk, IfErr, length};
ghost use Rattle.std.specs.Str.{chars, IsUtf8};
ghost use Rattle.graphql_text.specs.Memory.{MeetsBy, UnlessMemory};
ghost use Rattle.graphql_text.specs.Reading.{place_of, IsMemory, IsTail};
ghost use Rattle.graphql_text.specs.Grammar.{IsDivided, IsBroken};
ghost use Rattle.graphql_text.specs.Tokens as spec;
ghost use Rattle.graphql_lexer.specs.Records.{AllStand, StandsIn, token_of, tokens_in};

use crate::token_record::{TokenKind, TokenRecord, ends_text, kind_of};
use crate::tokens::{ahead, token};
use graphql_text::{Cursor, LexerError, Span, Spanning};
use std::alloc::Global;

/// The record of a token of this kind, which stands in this part of a text: from where the text
/// goes on as `start` to where it goes on as `end`.
fn record_between(kind: TokenKind, span: Span, source: &str, start: &str, end: &str) -> TokenRecord
    requires wide { span.start.index ≤ span.end.index }
    requires before { IsTail (chars source.now) (chars start.now) }
    requires own { IsTail (chars start.now) (chars end.now) }
    ensures record { result ≡ record {
      kind = kind;
      offset = length source.now - length start.now;
      len = length start.now - length end.now;
      width = span.end.index - span.start.index;
      start = span.start;
    } }
    ensures texts { IsUtf8 source.now × IsUtf8 start.now × IsUtf8 end.now }
{
    TokenRecord {
        kind,
        offset: source.len() - start.len(),
        len: start.len() - end.len(),
        width: span.end.index() - span.start.index(),
        start: span.start,
    }
}

/// The record of the next token, and the place behind the token.
#[tactic(auto, unfolding(graphql_text::specs::Tokens::cut))]
fn cut_record<'a>(
    alloc: Global,
    source: &'a str,
    cursor: Cursor<'a>,
) -> Result<(TokenRecord, Cursor<'a>), Spanning<LexerError>>
    requires { IsTail (chars source.now) (chars cursor.rest.now) }
    ensures token { MeetsBy (λ r. (token_of source.now r.0, place_of r.1)) IsMemory result
        (spec.cut (place_of cursor.entry)) }
    ensures fits { IfOk result (λ r. StandsIn source.now r.0) }
    ensures tail { IfOk result (λ r. IsTail (chars source.now) (chars r.1.rest.now)) }
{
    let start = ahead(cursor);
    let (item, end) = token(alloc, start)?;
    let span = Span {
        start: start.at,
        end: end.at,
    };
    let found = record_between(kind_of(&item), span, source, start.rest, end.rest);
    Ok((found, end))
}

/// The records of all tokens of a text, that of its end last. One pass over the text, of which
/// nothing is kept. An error is what `lex_all` tells.
#[tactic(auto, using(crate::proofs::SoundTexts::tokens_divide, crate::proofs::SoundTexts::fault_breaks))]
pub(crate) fn record_all(
    alloc: Global,
    source: &str,
) -> Result<Vec<TokenRecord>, Spanning<LexerError>>
    ensures tokens { IfOk result
        (λ v. IsDivided (chars source.now) (tokens_in source.now v.items)) }
    ensures fit { IfOk result (λ v. AllStand source.now v.items) }
    ensures fault { IfErr result (λ e. UnlessMemory IsMemory e (IsBroken (chars source.now) e)) }
{
    let mut cursor = Cursor::new(source);
    let Ok(mut out) = Vec::with_capacity(alloc, source.len() / 4 + 4) else {
        return Err(Spanning::zero_width(cursor.at, LexerError::Memory));
    };
    'tokens: loop {
        let (found, next) = cut_record(alloc, source, cursor)?;
        let is_last = ends_text(found.kind);
        if out.push(found).is_err() {
            return Err(Spanning::zero_width(cursor.at, LexerError::Memory));
        }
        if is_last {
            return Ok(out);
        }
        cursor = next;
    }
}
