//! The tokens of a text as records: the text is read once, and none of it is kept.

ghost use Rattle.std.specs.Prelude.{◌≡◌, IfOk, IfErr, length, slice_get};
ghost use Rattle.std.specs.Option.{option_map};
ghost use Rattle.std.specs.Str.{chars};
ghost use Rattle.graphql_text.specs.Memory.{UnlessMemory};
ghost use Rattle.graphql_text.specs.Refusals.{IsLexical, IsMemory};
ghost use Rattle.graphql_lexer.specs.Records.{IsRecorded};
ghost use Rattle.graphql_lexer.specs.Within.{texts_within};

use crate::recording::record_all;
use crate::token_record::TokenRecord;
use crate::token_texts::TokenTexts;
use graphql_text::{Items, ParseError, SourcePosition, Span, Spanning, Token};
use std::alloc::Global;
use std::marker::Model;

/// The tokens of a text: of each what it is and where it stands. The text is borrowed, and none of
/// it is copied: a token is cut from it each time that it is asked for. Where it ends is known from
/// its width, since no token crosses a line.
#[derive(Debug, Drop)]
pub struct TokenRecords<'a> {
    source: &'a str,
    /// Those before the end of the text.
    records: Items<TokenRecord>,
    /// The end of the text.
    finish: Span,
}

impl<'a> Model for TokenRecords<'a> {
    ghost use Rattle.graphql_lexer.specs.Records.{Recorded, AreRecords, tokens_in};

    ghost Value = { Recorded };

    ghost view = { λ r. record { tokens = tokens_in r.source.now r.records; finish = r.finish } };

    ghost invariant = { λ r. AreRecords r.source.now r.records };
}

impl<'a> TokenRecords<'a> {
    /// The tokens of a text, which is read once, and borrowed. Takes memory for the records alone.
    ///
    /// An error is the text's first lexical fault, or `ParseError::Memory` where memory ran out.
    pub fn new(alloc: Global, source: &'a str) -> Result<TokenRecords<'a>, Spanning<ParseError>>
        ensures tokens { IfOk result (λ records. IsRecorded (chars source.now) records) }
        ensures fault { IfErr result
            (λ e. UnlessMemory IsMemory e (IsLexical (chars source.now) e)) }
    {
        let mut records = record_all(alloc, source)?;
        let Some(last) = records.pop() else {
            unreachable!()
        };
        Ok(TokenRecords {
            source,
            records: Items::from_vec(records),
            finish: last.span(),
        })
    }

    /// How many tokens there are before the end of the text.
    pub fn len(&self) -> usize
        ensures { result ≡ length self.now.tokens }
    {
        self.records.len()
    }

    /// Where the text ends.
    pub fn finish(&self) -> Span
        ensures { result ≡ self.now.finish }
    {
        self.finish
    }

    /// The token at `index`, counted from zero, at its place; `None` at the end of the text and
    /// past it. Takes no memory.
    pub fn get(&self, index: usize) -> Option<Spanning<Token<'a>>>
        ensures { result ≡ slice_get self.now.tokens index }
    {
        match self.records.get(index) {
            Some(found) => Some(found.token(self.source)),
            None => None,
        }
    }

    /// The token at `index` without its place, as `get`.
    pub fn item(&self, index: usize) -> Option<Token<'a>>
        ensures { result ≡ option_map (λ t. t.item) (slice_get self.now.tokens index) }
    {
        match self.records.get(index) {
            Some(found) => Some(found.item(self.source)),
            None => None,
        }
    }

    /// Where the token at `index` starts, or `None` where there is none. Nothing is cut.
    pub fn start(&self, index: usize) -> Option<SourcePosition>
        ensures { result ≡ option_map (λ t. t.span.start) (slice_get self.now.tokens index) }
    {
        match self.records.get(index) {
            Some(found) => Some(found.start),
            None => None,
        }
    }

    /// Where the token at `index` ends, or `None` where there is none.
    pub fn end(&self, index: usize) -> Option<SourcePosition>
        ensures { result ≡ option_map (λ t. t.span.end) (slice_get self.now.tokens index) }
    {
        match self.records.get(index) {
            Some(found) => Some(found.end()),
            None => None,
        }
    }

    /// The tokens that stand within a part of the text, each with its source text, in order. Takes
    /// no memory: the first is found by search, and the others follow it.
    pub fn texts(&self, span: Span) -> TokenTexts<'_, 'a>
        ensures { result ≡ texts_within self.now.tokens span }
    {
        TokenTexts::new(self.source, self.records.as_slice(), span)
    }
}
