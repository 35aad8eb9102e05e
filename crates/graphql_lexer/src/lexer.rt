//! Cuts a text into its tokens, all at once or one by one.

ghost use Rattle.std.specs.Prelude.{◌≡◌, IfOk, IfErr, false};
ghost use Rattle.std.specs.Iterator.{at_most};
ghost use Rattle.std.specs.Str.{chars};
ghost use Rattle.graphql_text.specs.Memory.{UnlessMemory};
ghost use Rattle.graphql_text.specs.Reading.{place_of, start_of, IsMemory};
ghost use Rattle.graphql_text.specs.Grammar.{IsDivided, IsBroken};
ghost use Rattle.graphql_lexer.specs.OneByOne.{GivesNext, items_left};

use crate::tokens::{cut, is_end};
use graphql_text::{Cursor, LexerError, LexerResult, Spanning, Token};
use std::alloc::Global;
use std::marker::Model;

/// All tokens of a text, the end of the text last, each with its part of the text: characters
/// from zero. One pass over the text, which is borrowed and not copied.
///
/// The text is cut by the lexical grammar (GraphQL October 2021, 2.1 Source Text). Where that
/// fails, the answer is the first fault, at its place: the first character that can't go on as
/// the grammar says, or the end of the text. `LexerError::Memory` comes only where memory ran
/// out, and says nothing about the text.
#[tactic(auto, using(crate::proofs::SoundTexts::tokens_divide, crate::proofs::SoundTexts::fault_breaks))]
pub fn lex_all<'a>(
    alloc: Global,
    source: &'a str,
) -> Result<Vec<Spanning<Token<'a>>>, Spanning<LexerError>>
    // The tokens divide the text as the grammar says, each with the positions of its ends.
    ensures tokens { IfOk result (λ v. IsDivided (chars source.now) v.items) }
    // The fault is the one at which the grammar's division of the text ends, at its position.
    ensures fault { IfErr result (λ e. UnlessMemory IsMemory e (IsBroken (chars source.now) e)) }
{
    let mut out = Vec::new(alloc);
    let mut cursor = Cursor::new(source);
    'tokens: loop {
        let (token, next) = cut(alloc, cursor)?;
        let is_last = is_end(&token.item);
        if out.push(token).is_err() {
            return Err(Spanning::zero_width(cursor.at, LexerError::Memory));
        }
        if is_last {
            return Ok(out);
        }
        cursor = next;
    }
}

/// Gives the tokens of a text one by one, as `LexerResult`s: the same as `lex_all`, the end of
/// the text last. After that token, or after a fault or want of memory, it gives nothing more.
#[derive(Debug, Drop)]
pub struct Lexer<'a> {
    alloc: Global,
    cursor: Cursor<'a>,
    is_done: bool,
}

impl<'a> Model for Lexer<'a> {
    ghost use Rattle.graphql_text.specs.Reading.{place_of};
    ghost use Rattle.graphql_lexer.specs.OneByOne.{Remains};

    ghost Value = { Remains };

    ghost view = { λ l. record { place = place_of l.cursor; is_done = l.is_done } };
}

impl<'a> Lexer<'a> {
    /// A lexer at the start of a text. The allocator serves the text of a fault alone.
    pub fn new(alloc: Global, source: &'a str) -> Lexer<'a>
        ensures { result ≡ record { place = start_of (chars source.now); is_done = false } }
    {
        Lexer {
            alloc,
            cursor: Cursor::new(source),
            is_done: false,
        }
    }
}

impl<'a> Iterator for Lexer<'a> {
    type Item = LexerResult<'a>;

    ghost next_gives = { GivesNext };

    ghost remaining = { λ s. at_most (items_left s) };

    fn next(&mut self) -> Option<LexerResult<'a>> {
        if self.is_done {
            return None;
        }
        match cut(self.alloc, self.cursor) {
            Ok((token, next)) => {
                self.is_done = is_end(&token.item);
                self.cursor = next;
                Some(Ok(token))
            }
            Err(error) => {
                self.is_done = true;
                Some(Err(error))
            }
        }
    }
}
