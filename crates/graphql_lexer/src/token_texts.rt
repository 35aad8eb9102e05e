//! The tokens within a part of a text, one by one.

ghost use Rattle.std.specs.Prelude.{◌≡◌, ◌<◌, ◌≤◌, length};
ghost use Rattle.std.specs.Iterator.{YieldsFirst, item_count};
ghost use Rattle.std.specs.List.Sorted.{IsNonDecreasingBy, IsPartitionPoint};
ghost use Rattle.graphql_lexer.specs.Records.{AreRecords, tokens_in};
ghost use Rattle.graphql_lexer.specs.Within.{texts_within};

use crate::token_record::TokenRecord;
use crate::token_text::TokenText;
use graphql_text::{SourcePosition, Span};
use std::marker::Model;

/// The tokens within a part of a text that have yet to be read, each with its source text, in
/// order.
#[derive(Debug, Drop)]
pub struct TokenTexts<'s, 'a> {
    source: &'a str,
    /// The next token, and those behind it.
    rest: &'s [TokenRecord],
    /// Where the part ends.
    end: SourcePosition,
}

impl<'s, 'a> Model for TokenTexts<'s, 'a> {
    ghost use Rattle.std.specs.Prelude.{List};
    ghost use Rattle.graphql_lexer.specs.declared.token_text.TokenText.{TokenText};
    ghost use Rattle.graphql_lexer.specs.Records.{AreRecords, tokens_in};
    ghost use Rattle.graphql_lexer.specs.Within.{texts_until};

    ghost Value = { List TokenText };

    ghost view = { λ t. texts_until t.end.index (tokens_in t.source.now t.rest.now) };

    ghost invariant = { λ t. AreRecords t.source.now t.rest.now };
}

/// How many tokens start before a place, where starts rise.
fn starting_before(records: &[TokenRecord], place: SourcePosition) -> usize
    ensures bound { result ≤ length records.now }
    ensures split { IsNonDecreasingBy (λ r. r.start.index) records.now
        → IsPartitionPoint
        (λ r. r.start.index < place.index) (λ r. place.index ≤ r.start.index) records.now result }
{
    records.partition_point(|found| found.start.index() < place.index())
}

impl<'s, 'a> TokenTexts<'s, 'a> {
    /// The tokens of a source, by their records, that stand within a part of it.
    pub(crate) fn new(source: &'a str, records: &'s [TokenRecord], span: Span) -> TokenTexts<'s, 'a>
        requires { AreRecords source.now records.now }
        ensures { result ≡ texts_within (tokens_in source.now records.now) span }
    {
        let first = starting_before(records, span.start);
        TokenTexts {
            source,
            rest: &records[first..],
            end: span.end,
        }
    }
}

impl<'s, 'a> Iterator for TokenTexts<'s, 'a> {
    type Item = TokenText<'a>;

    ghost next_gives = { YieldsFirst (λ texts. texts) };

    ghost remaining = { item_count (λ texts. texts) };

    fn next(&mut self) -> Option<TokenText<'a>> {
        match self.rest.split_first() {
            Some((first, others)) => {
                let found = first.with_text(self.source);
                if found.token.span.end.index() > self.end.index() {
                    return None;
                }
                self.rest = others;
                Some(found)
            }
            None => None,
        }
    }
}
