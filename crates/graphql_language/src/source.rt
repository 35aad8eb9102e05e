//! Whole texts.

ghost use Rattle.std.specs.Prelude.{ℕ, List, IfOk, IfErr};
ghost use Rattle.std.specs.Str.{chars};
ghost use Rattle.graphql_text.specs.Memory.{UnlessMemory};
ghost use Rattle.graphql_grammar.specs.Input.{IsMemory};
ghost use Rattle.graphql_lexer.specs.Records.{IsRecorded};
ghost use Rattle.graphql_language.specs.Texts.{IsDocument, OnlyDocument, IsRefused};
ghost use Rattle.graphql_language.specs.Texts.{IsUngrammatical};

use crate::parse::document;
use graphql_grammar::Cursor;
use graphql_lexer::TokenRecords;
use graphql_text::UnlocatedParseResult;
use graphql_tree::OwnedDocument;
use graphql_values::ScalarValue;
use std::alloc::Global;

/// The document that a text is (GraphQL October 2021, 2.2 Document). Its names are borrowed from
/// the text. Takes time by the number of tokens, and no more stack where selection sets and values
/// nest deeply.
///
/// An error is the first fault of the text, at its place: characters, lines and columns from zero.
/// A lexical fault anywhere comes before every other: `ParseError::LexerError`. Else it is about
/// the first token that no document could have there: `ParseError::UnexpectedEndOfFile` at the end
/// of the text; what the scalar type says of a literal that it refuses;
/// `ParseError::UnexpectedToken` with the token's source text. `ParseError::Memory` comes only
/// where memory ran out, and says nothing about the text.
pub fn parse_document_source<'a, S: ScalarValue>(
    alloc: Global,
    source: &'a str,
) -> UnlocatedParseResult<OwnedDocument<'a, S>>
    // The tokens of the text spell the document, each part at the place of its tokens.
    ensures document { IfOk result
        (λ tree. IsDocument S S.reads S.of_bool (chars source.now) tree) }
    // They spell no other.
    ensures only { IfOk result (λ tree. OnlyDocument S S.reads S.of_bool (chars source.now) tree) }
    // The text is no document, and this is its first fault.
    ensures fault { IfErr result
        (λ e. UnlessMemory IsMemory e (IsRefused S S.reads S.of_bool (chars source.now) e)) }
{
    match Cursor::new(alloc, source) {
        Ok(mut cursor) => document(alloc, &mut cursor),
        Err(fault) => Err(fault),
    }
}

/// The document that a text is whose tokens are lent, as `parse_document_source`, so that the text
/// is read no second time. Its names are borrowed from the text for as long as the records are.
///
/// An error is the first fault of the text, at its place; no lexical one, since the text has
/// tokens.
pub fn parse_document_records<'a, S: ScalarValue>(
    alloc: Global,
    records: &'a TokenRecords<'a>,
) -> UnlocatedParseResult<OwnedDocument<'a, S>>
    // The tokens of the text spell the document, each part at the place of its tokens.
    ensures document { (text : List ℕ) → IsRecorded text records.now
        → IfOk result (λ tree. IsDocument S S.reads S.of_bool text tree) }
    // They spell no other.
    ensures only { (text : List ℕ) → IsRecorded text records.now
        → IfOk result (λ tree. OnlyDocument S S.reads S.of_bool text tree) }
    // The text is no document, and this is its first fault.
    ensures fault { (text : List ℕ) → IsRecorded text records.now
        → IfErr result (λ e. UnlessMemory IsMemory e (IsUngrammatical S S.reads S.of_bool text e)) }
{
    let mut cursor = Cursor::from_records(records);
    document(alloc, &mut cursor)
}
