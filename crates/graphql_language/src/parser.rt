//! Parses a text, token by token.

ghost use Rattle.std.specs.Prelude.{◌≡◌, ◌<◌, ◌≤◌, ℕ, List, None, IfOk, IfErr, OnOk, OnErr};
ghost use Rattle.std.specs.Str.{chars};
ghost use Rattle.graphql_text.specs.Memory.{UnlessMemory};
ghost use Rattle.graphql_grammar.specs.Input as spec;
ghost use Rattle.graphql_grammar.specs.Input.{IsMemory, StandsFor, left};
ghost use Rattle.graphql_lexer.specs.Records.{IsRecorded};
ghost use Rattle.graphql_grammar.specs.Cursor.{IsStart, IsLexical, start_of};
ghost use Rattle.graphql_language.specs.Parser.{Calls, NextToken, ThisToken, MaybeToken, NextName};
ghost use Rattle.graphql_language.specs.Parser.{Ready, KeepsRefusal};

mod lists;
mod literals;
mod tokens;

use graphql_grammar::{Cursor, Fault};
use graphql_lexer::TokenRecords;
use graphql_text::{OptionParseResult, ParseError, ParseResult, Spanning, TextRef, Token};
pub use literals::{parse_type, parse_value_literal};
use std::alloc::Global;
use std::marker::Model;

/// Parses a text, token by token. After a refusal it has failed: every call but `peek` answers that
/// refusal again, or `ParseError::Memory` where memory runs out.
#[derive(Debug, Drop)]
pub struct Parser<'a> {
    /// Serves what is read and the texts of refusals.
    alloc: Global,
    cursor: Cursor<'a>,
    refused: Option<Fault>,
}

impl<'a> Model for Parser<'a> {
    ghost use Rattle.graphql_language.specs.Parser.{State};

    ghost Value = { State };

    ghost view = { λ p. record { input = p.cursor; refused = p.refused } };
}

/// The same fault, or want of memory.
fn again(fault: &Fault) -> Fault
    ensures { StandsFor fault.now result }
{
    match fault.clone() {
        Ok(fault) => fault,
        Err(_) => Spanning::unlocated(ParseError::Memory),
    }
}

impl<'a> Parser<'a> {
    /// A parser at the start of a text, which is cut into its tokens at once, and is borrowed.
    ///
    /// An error is the text's first lexical fault, or `ParseError::Memory` where memory ran out.
    pub fn new(alloc: Global, source: &'a str) -> Result<Parser<'a>, Fault>
        ensures start { IfOk result (λ parser. IsStart (chars source.now) parser.input) }
        ensures fresh { IfOk result (λ parser. parser.refused ≡ None) }
        ensures fault { IfErr result
            (λ e. UnlessMemory IsMemory e (IsLexical (chars source.now) e)) }
    {
        Ok(Parser {
            alloc,
            cursor: Cursor::new(alloc, source)?,
            refused: None,
        })
    }

    /// A parser at the start of a text whose tokens are lent, so that it is read no second time.
    /// Takes no memory.
    pub fn from_records(alloc: Global, records: &'a TokenRecords<'a>) -> Parser<'a>
        ensures start { (text : List ℕ) → IsRecorded text records.now → IsStart text result.input }
        ensures input { result.input ≡ start_of records.now }
        ensures fresh { result.refused ≡ None }
    {
        Parser {
            alloc,
            cursor: Cursor::from_records(records),
            refused: None,
        }
    }

    /// The next token, or the end of the text; of a parser that has failed, where it stopped.
    pub fn peek(&self) -> Spanning<Token<'a>>
        ensures { result ≡ spec.peek self.now.input }
    {
        self.cursor.peek()
    }

    /// The next token, and goes behind it. Refuses the end of the text, as
    /// `ParseError::UnexpectedEndOfFile`.
    pub fn next_token(&mut self) -> ParseResult<Token<'a>>
        ensures calls { Calls NextToken self.old result self.new }
        ensures fewer { OnOk result (left self.new.input < left self.old.input) }
        ensures stays { OnErr result (self.new.input ≡ self.old.input) }
    {
        self.ready()?;
        let answer = tokens::next_token(self.alloc, &mut self.cursor);
        self.keep_refusal(answer)
    }

    /// The next token where it is this one, and goes behind it; refuses any other, and the end of
    /// the text.
    pub fn expect(&mut self, expected: &Token<'_>) -> ParseResult<Token<'a>>
        ensures calls { Calls (ThisToken expected.now) self.old result self.new }
        ensures fewer { OnOk result (left self.new.input < left self.old.input) }
        ensures stays { OnErr result (self.new.input ≡ self.old.input) }
    {
        self.ready()?;
        let answer = tokens::this_token(self.alloc, &mut self.cursor, expected);
        self.keep_refusal(answer)
    }

    /// The next token where it is this one, and goes behind it; `None` at any other, which stays.
    /// Refuses the end of the text.
    pub fn skip(&mut self, expected: &Token<'_>) -> OptionParseResult<Token<'a>>
        ensures calls { Calls (MaybeToken expected.now) self.old result self.new }
        ensures no_more { left self.new.input ≤ left self.old.input }
        ensures stays { OnErr result (self.new.input ≡ self.old.input) }
    {
        self.ready()?;
        let answer = tokens::maybe_token(self.alloc, &mut self.cursor, expected);
        self.keep_refusal(answer)
    }

    /// The name that stands next, at its place, and goes behind it; refuses any other token.
    pub fn expect_name(&mut self) -> ParseResult<TextRef<'a>>
        ensures calls { Calls NextName self.old result self.new }
        ensures fewer { OnOk result (left self.new.input < left self.old.input) }
        ensures stays { OnErr result (self.new.input ≡ self.old.input) }
    {
        self.ready()?;
        let answer = tokens::name(self.alloc, &mut self.cursor);
        self.keep_refusal(answer)
    }

    /// The refusal that was given, once more.
    pub(crate) fn ready(&self) -> Result<(), Fault>
        ensures { Ready self.now result }
    {
        match &self.refused {
            Some(fault) => Err(again(fault)),
            None => Ok(()),
        }
    }

    /// The same answer. By a refusal the parser has failed, and where it had failed before, the
    /// first refusal stays.
    pub(crate) fn keep_refusal<T>(&mut self, answer: Result<T, Fault>) -> Result<T, Fault>
        ensures { KeepsRefusal answer self.old result self.new }
    {
        match answer {
            Ok(item) => Ok(item),
            Err(fault) => {
                let told = again(&fault);
                match &self.refused {
                    Some(_) => Err(told),
                    None => {
                        self.refused = Some(fault);
                        Err(told)
                    }
                }
            }
        }
    }
}
