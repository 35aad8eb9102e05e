//! Why a text is not what was to be read from it.

ghost use Rattle.std.specs.Prelude.{◌≡◌, IfOk, Some};

use crate::Text;
use crate::spanning::Spanning;
use crate::token::{LexerError, Token};
use std::alloc::{AllocError, AllocFailed, Global};
use std::fmt;
use thiserror::Error;

/// Why a text is not what was to be read from it, or want of memory.
#[derive(Clone, Debug, Drop, Error, PartialEq, Eq)]
pub enum ParseError {
    /// A token that can't stand where it does, by its source text.
    UnexpectedToken(Text),

    /// The end of the text where more had to come.
    UnexpectedEndOfFile,

    /// What is wrong with the text's characters.
    LexerError(LexerError),

    /// A literal that the scalar type refuses, in its words.
    ExpectedScalarError(Text),

    /// Memory ran out. It says nothing about the text.
    Memory,
}

impl ParseError {
    ghost use Rattle.graphql_text.specs.declared.parse_error.ParseError.TheVariants.{UnexpectedToken};
    ghost use Rattle.graphql_text.specs.Spelling.{source_of};

    /// The refusal of a token, with its source text: a string's with its quotes, and escapes as
    /// they are written. An error is want of memory.
    pub fn unexpected_token(alloc: Global, token: &Token) -> Result<ParseError, AllocError>
        ensures { IfOk result (λ refusal. refusal ≡ UnexpectedToken (source_of token.now)) }
    {
        let source = token.to_string(alloc)?;
        Ok(ParseError::UnexpectedToken(Text::from_string(source)))
    }
}

/// The text that a user is shown.
impl fmt::Display for ParseError {
    ghost use Rattle.graphql_text.specs.FaultTexts.{fault_text};

    ghost output = { λ fault. Some (fault_text fault) };

    fn fmt<W: fmt::Write>(&self, f: &mut fmt::Formatter<W>) -> fmt::Result {
        match self {
            ParseError::UnexpectedToken(token) => write!(f, "Unexpected \"{token}\""),
            ParseError::UnexpectedEndOfFile => write!(f, "Unexpected end of input"),
            ParseError::LexerError(fault) => write!(f, "{fault}"),
            ParseError::ExpectedScalarError(refusal) => write!(f, "{refusal}"),
            ParseError::Memory => write!(f, "Out of memory"),
        }
    }
}

impl From<AllocError> for ParseError {
    ghost use Rattle.graphql_text.specs.declared.parse_error.ParseError.TheVariants.{Memory};

    ghost from_gives = { λ _ e. e ≡ Memory };

    fn from(_error: AllocError) -> ParseError {
        ParseError::Memory
    }
}

impl<T: Drop> From<AllocFailed<T>> for ParseError {
    ghost use Rattle.graphql_text.specs.declared.parse_error.ParseError.TheVariants.{Memory};

    ghost from_gives = { λ _ e. e ≡ Memory };

    fn from(_error: AllocFailed<T>) -> ParseError {
        ParseError::Memory
    }
}

impl From<LexerError> for ParseError {
    ghost use Rattle.graphql_text.specs.Refusals.{parse_error_of};

    ghost from_gives = { λ fault e. e ≡ parse_error_of fault };

    fn from(fault: LexerError) -> ParseError {
        match fault {
            LexerError::Memory => ParseError::Memory,
            fault => ParseError::LexerError(fault),
        }
    }
}

/// Want of memory, at the origin: it stands at no place of the text.
impl From<AllocError> for Spanning<ParseError> {
    ghost use Rattle.graphql_text.specs.declared.parse_error.ParseError.TheVariants.{Memory};

    ghost from_gives = { λ _ e. e.item ≡ Memory };

    fn from(_error: AllocError) -> Spanning<ParseError> {
        Spanning::unlocated(ParseError::Memory)
    }
}

/// The same fault at the same place.
impl From<Spanning<LexerError>> for Spanning<ParseError> {
    ghost use Rattle.graphql_text.specs.Refusals.{parse_error_of};

    ghost from_gives = { λ fault e.
        e ≡ record { item = parse_error_of fault.item; span = fault.span } };

    fn from(fault: Spanning<LexerError>) -> Spanning<ParseError> {
        Spanning::new(fault.span, ParseError::from(fault.item))
    }
}

/// A value at its place, or why there is none, at its place.
pub type ParseResult<T> = Result<Spanning<T>, Spanning<ParseError>>;

/// A value, or why there is none, at its place.
pub type UnlocatedParseResult<T> = Result<T, Spanning<ParseError>>;

/// A value at its place where one stands, or why there is none, at its place.
pub type OptionParseResult<T> = Result<Option<Spanning<T>>, Spanning<ParseError>>;
