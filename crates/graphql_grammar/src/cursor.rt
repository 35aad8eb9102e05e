//! Reads the tokens of a text, one behind the other.

ghost use Rattle.std.specs.Prelude.{◌≡◌, ◌≢◌, ◌-◌, ◌<◌, ◌≤◌, [], ◌∷◌, ◌++◌, slice_get, IfOk, IfErr};
ghost use Rattle.std.specs.Prelude.{OnOk, OnErr};
ghost use Rattle.std.specs.Str.{chars};
ghost use Rattle.graphql_text.specs.Memory.{UnlessMemory};
ghost use Rattle.graphql_grammar.specs.declared.kind.Kind.TheVariants as k;
ghost use Rattle.graphql_grammar.specs.Kinds.{only, fragment_names};
ghost use Rattle.graphql_grammar.specs.Input as spec;
ghost use Rattle.graphql_grammar.specs.Input.{IsMemory, Reads, StandsFor, StandsAt, end_after};
ghost use Rattle.graphql_grammar.specs.Input.{left, next, refusal};
ghost use Rattle.graphql_grammar.specs.Steps as steps;
ghost use Rattle.graphql_grammar.specs.Steps.{sees};
ghost use Rattle.graphql_grammar.specs.Cursor.{IsStart, IsLexical, after, start_of};
ghost use Rattle.graphql_grammar.specs.Leaves.{Behind};

use crate::kept::Kept;
use crate::kind::{Kind, kind_of};
use graphql_lexer::TokenRecords;
use graphql_text::{Items, ParseError, SourcePosition, Spanning, TextRef, Token};
use std::alloc::{AllocError, Global};
use std::marker::Model;

/// Why a text can't be read, at the place of the token that it is about.
pub type Fault = Spanning<ParseError>;

/// Reads the tokens of a text from the front.
#[derive(Debug, Drop)]
pub struct Cursor<'a> {
    /// The records of the text's tokens.
    kept: Kept<'a>,
    /// How many of them were read.
    read: usize,
    /// Where the last token that was read ends.
    end: SourcePosition,
}

impl<'a> Model for Cursor<'a> {
    ghost use Rattle.std.specs.Prelude.{◌≤◌, length, drop};
    ghost use Rattle.graphql_grammar.specs.Input.{Input};
    ghost use Rattle.graphql_grammar.specs.Kept.{recorded};

    ghost Value = { Input };

    ghost view = { λ c. record {
      ahead = drop c.read (recorded c.kept).tokens;
      finish = (recorded c.kept).finish;
      end = c.end;
    } };

    ghost invariant = { λ c. c.read ≤ length (recorded c.kept).tokens };
}

impl<'a> Cursor<'a> {
    /// The start of a text, which is cut into its tokens at once, and is borrowed.
    ///
    /// An error is the text's first lexical fault, or `ParseError::Memory` where memory ran out.
    pub fn new(alloc: Global, source: &'a str) -> Result<Cursor<'a>, Fault>
        ensures start { IfOk result (λ cursor. IsStart (chars source.now) cursor) }
        ensures fault { IfErr result
            (λ e. UnlessMemory IsMemory e (IsLexical (chars source.now) e)) }
    {
        let records = TokenRecords::new(alloc, source)?;
        Ok(Cursor {
            kept: Kept::Own(records),
            read: 0,
            end: SourcePosition::new_origin(),
        })
    }

    /// The start of a text whose tokens are lent, so that it is read no second time. Takes no
    /// memory.
    pub fn from_records(records: &'a TokenRecords<'a>) -> Cursor<'a>
        ensures { result ≡ start_of records.now }
    {
        Cursor {
            kept: Kept::Lent(records),
            read: 0,
            end: SourcePosition::new_origin(),
        }
    }

    /// The next token, or `None` at the end of the text.
    pub fn token(&self) -> Option<Spanning<Token<'a>>>
        ensures { result ≡ slice_get self.now.ahead 0 }
    {
        self.kept.records().get(self.read)
    }

    /// What stands next: a token, or the end of the text.
    pub fn peek(&self) -> Spanning<Token<'a>>
        ensures { result ≡ spec.peek self.now }
    {
        match self.token() {
            Some(next) => next,
            None => Spanning::new(self.kept.records().finish(), Token::EndOfFile),
        }
    }

    /// What stands next, without its place.
    fn next_item(&self) -> Token<'a>
        ensures { result ≡ (spec.peek self.now).item }
    {
        match self.kept.records().item(self.read) {
            Some(item) => item,
            None => Token::EndOfFile,
        }
    }

    /// The kind of what stands next.
    pub fn kind(&self) -> Kind
        ensures { result ≡ spec.peek_kind self.now }
    {
        match self.kept.records().item(self.read) {
            Some(item) => kind_of(&item),
            None => Kind::EndOfFile,
        }
    }

    /// Where the next token starts.
    pub fn start(&self) -> SourcePosition
        ensures { result ≡ (spec.peek self.now).span.start }
    {
        match self.kept.records().start(self.read) {
            Some(start) => start,
            None => self.kept.records().finish().start,
        }
    }

    /// Where the last token that was read ends; the origin before the first.
    pub fn end(&self) -> SourcePosition
        ensures { result ≡ self.now.end }
    {
        self.end
    }

    /// How many tokens are left before the end of the text.
    pub fn left(&self) -> usize
        ensures { result ≡ left self.now }
    {
        self.kept.records().len() - self.read
    }

    /// Where the next token ends; at the end of the text, where the last one ends.
    fn end_of_next(&self) -> SourcePosition
        ensures { result ≡ end_after self.now.end self.now.ahead }
    {
        match self.kept.records().end(self.read) {
            Some(end) => end,
            None => self.end,
        }
    }

    /// Goes behind the next token. At the end of the text it stays.
    pub fn advance(&mut self)
        ensures next { self.new ≡ next self.old }
        ensures fewer { left self.new ≡ left self.old - 1 }
    {
        if self.read < self.kept.records().len() {
            self.end = self.end_of_next();
            self.read += 1;
        }
    }

    /// Goes behind the next token where it is of this kind, and tells whether it is.
    pub fn eat(&mut self, wanted: Kind) -> bool
        ensures result { result ≡ sees (only wanted) self.old }
        ensures after { self.new ≡ after (only wanted) self.old }
        ensures no_more { left self.new ≤ left self.old }
    {
        if self.kind() == wanted {
            self.advance();
            true
        } else {
            false
        }
    }

    /// The refusal of the next token, at its place: `ParseError::UnexpectedToken` with its source
    /// text, or `ParseError::UnexpectedEndOfFile`. `ParseError::Memory` comes only where memory ran
    /// out.
    pub fn refuse(&self, alloc: Global) -> Fault
        ensures { StandsFor (refusal self.now) result }
    {
        let next = self.peek();
        match next.item {
            Token::EndOfFile => Spanning::new(next.span, ParseError::UnexpectedEndOfFile),
            token => match ParseError::unexpected_token(alloc, &token) {
                Ok(error) => Spanning::new(next.span, error),
                Err(_) => Spanning::unlocated(ParseError::Memory),
            },
        }
    }

    /// Goes behind the next token, which is of this kind; else refuses it, and stays.
    #[tactic(auto, using(crate::proofs::Leaves::behind_after))]
    pub fn expect(&mut self, alloc: Global, wanted: Kind) -> Result<(), Fault>
        ensures reads { Reads (steps.expect wanted self.old) result self.new }
        ensures behind { Behind self.old self.new }
        ensures no_more { left self.new ≤ left self.old }
        ensures fewer { wanted ≢ k.EndOfFile → OnOk result (left self.new < left self.old) }
        ensures stays { OnErr result (self.new ≡ self.old) }
        ensures stands { StandsAt result self.new }
    {
        if self.eat(wanted) {
            Ok(())
        } else {
            Err(self.refuse(alloc))
        }
    }

    /// Goes behind the next token, which is a name, and gives the name; else refuses the token, and
    /// stays.
    #[tactic(auto, using(crate::proofs::Leaves::behind_next))]
    pub fn name(&mut self, alloc: Global) -> Result<TextRef<'a>, Fault>
        ensures reads { Reads (steps.name self.old) result self.new }
        ensures behind { Behind self.old self.new }
        ensures no_more { left self.new ≤ left self.old }
        ensures fewer { OnOk result (left self.new < left self.old) }
        ensures stays { OnErr result (self.new ≡ self.old) }
        ensures stands { StandsAt result self.new }
    {
        match self.next_item() {
            Token::Name(name) => {
                self.advance();
                Ok(name)
            }
            _ => Err(self.refuse(alloc)),
        }
    }

    /// As `name`, for the name of a fragment: any name but `on` (GraphQL October 2021, 2.8
    /// Fragments).
    pub fn fragment_name(&mut self, alloc: Global) -> Result<TextRef<'a>, Fault>
        ensures reads { Reads (steps.name_in fragment_names self.old) result self.new }
        ensures no_more { left self.new ≤ left self.old }
        ensures fewer { OnOk result (left self.new < left self.old) }
        ensures stays { OnErr result (self.new ≡ self.old) }
        ensures stands { StandsAt result self.new }
    {
        match self.kind() {
            Kind::On => Err(self.refuse(alloc)),
            _ => self.name(alloc),
        }
    }

    /// A value in the part of the text from a place to the end of the last token that was read.
    pub fn closed<T>(&self, start: SourcePosition, item: T) -> Spanning<T>
        ensures { result
            ≡ record { item = item; span = record { start = start; end = self.now.end } } }
    {
        Spanning::start_end(start, self.end, item)
    }
}

/// Adds an item at the end of a list. An error is want of memory, and the list stays.
pub fn keep<T: Drop>(found: &mut Items<T>, item: T) -> Result<(), AllocError>
    ensures ok { OnOk result (found.new ≡ found.old ++ item ∷ []) }
    ensures err { OnErr result (found.new ≡ found.old) }
{
    match found.push(item) {
        Ok(()) => Ok(()),
        Err(refused) => Err(AllocError::from(refused)),
    }
}
