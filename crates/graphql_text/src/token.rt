//! The tokens of a text, and what can be wrong with its characters.

ghost use Rattle.std.specs.Prelude.{◌≡◌, Some};

use crate::Text;
use crate::spanning::Spanning;
use crate::text_ref::TextRef;
use std::alloc::{AllocError, AllocFailed};
use std::fmt;
use thiserror::Error;

/// A literal of a scalar, as the text spells it (GraphQL October 2021, 2.9 Input Values).
#[derive(Debug, Drop, PartialEq, Eq)]
pub enum ScalarToken<'a> {
    /// What stands between the quotes of a string, its escapes as they are written.
    String(TextRef<'a>),

    /// A number with a fraction, an exponent or both.
    Float(TextRef<'a>),

    /// A number with neither.
    Int(TextRef<'a>),
}

impl<'a> ScalarToken<'a> {
    /// The same literal again, which borrows the same text. Takes no memory.
    pub fn copied(&self) -> ScalarToken<'a>
        ensures { result ≡ self.now }
    {
        match self {
            ScalarToken::String(text) => ScalarToken::String(text.copied()),
            ScalarToken::Float(text) => ScalarToken::Float(text.copied()),
            ScalarToken::Int(text) => ScalarToken::Int(text.copied()),
        }
    }
}

/// A lexical token (GraphQL October 2021, 2.1.6 Lexical Tokens).
#[derive(Debug, Drop, PartialEq, Eq)]
pub enum Token<'a> {
    /// A name.
    Name(TextRef<'a>),

    /// A number or a string.
    Scalar(ScalarToken<'a>),

    /// `!`
    ExclamationMark,

    /// `$`
    Dollar,

    /// `(`
    ParenOpen,

    /// `)`
    ParenClose,

    /// `[`
    BracketOpen,

    /// `]`
    BracketClose,

    /// `{`
    CurlyOpen,

    /// `}`
    CurlyClose,

    /// `...`
    Ellipsis,

    /// `:`
    Colon,

    /// `=`
    Equals,

    /// `@`
    At,

    /// `|`
    Pipe,

    /// The end of the text.
    EndOfFile,
}

impl<'a> Token<'a> {
    /// The same token again, which borrows the same text. Takes no memory.
    pub fn copied(&self) -> Token<'a>
        ensures { result ≡ self.now }
    {
        match self {
            Token::Name(name) => Token::Name(name.copied()),
            Token::Scalar(scalar) => Token::Scalar(scalar.copied()),
            Token::ExclamationMark => Token::ExclamationMark,
            Token::Dollar => Token::Dollar,
            Token::ParenOpen => Token::ParenOpen,
            Token::ParenClose => Token::ParenClose,
            Token::BracketOpen => Token::BracketOpen,
            Token::BracketClose => Token::BracketClose,
            Token::CurlyOpen => Token::CurlyOpen,
            Token::CurlyClose => Token::CurlyClose,
            Token::Ellipsis => Token::Ellipsis,
            Token::Colon => Token::Colon,
            Token::Equals => Token::Equals,
            Token::At => Token::At,
            Token::Pipe => Token::Pipe,
            Token::EndOfFile => Token::EndOfFile,
        }
    }
}

/// The source text: a string's with its quotes, and escapes as they are written.
impl fmt::Display for ScalarToken<'_> {
    ghost use Rattle.graphql_text.specs.Spelling.{scalar_source};

    ghost output = { λ token. Some (scalar_source token) };

    fn fmt<W: fmt::Write>(&self, f: &mut fmt::Formatter<W>) -> fmt::Result {
        match self {
            ScalarToken::String(text) => write!(f, "\"{text}\""),
            ScalarToken::Float(text) | ScalarToken::Int(text) => write!(f, "{text}"),
        }
    }
}

/// The source text; the end has none.
impl fmt::Display for Token<'_> {
    ghost use Rattle.graphql_text.specs.Spelling.{source_of};

    ghost output = { λ token. Some (source_of token) };

    fn fmt<W: fmt::Write>(&self, f: &mut fmt::Formatter<W>) -> fmt::Result {
        match self {
            Token::Name(text) => write!(f, "{text}"),
            Token::Scalar(scalar) => write!(f, "{scalar}"),
            Token::ExclamationMark => write!(f, "!"),
            Token::Dollar => write!(f, "$"),
            Token::ParenOpen => write!(f, "("),
            Token::ParenClose => write!(f, ")"),
            Token::BracketOpen => write!(f, "["),
            Token::BracketClose => write!(f, "]"),
            Token::CurlyOpen => write!(f, "{{"),
            Token::CurlyClose => write!(f, "}}"),
            Token::Ellipsis => write!(f, "..."),
            Token::Colon => write!(f, ":"),
            Token::Equals => write!(f, "="),
            Token::At => write!(f, "@"),
            Token::Pipe => write!(f, "|"),
            Token::EndOfFile => write!(f, ""),
        }
    }
}

/// What is wrong with a text's characters, or want of memory.
#[derive(Clone, Debug, Drop, Error, PartialEq, Eq)]
pub enum LexerError {
    /// A character that begins no token.
    UnknownCharacter(char),

    /// A character where a token that was begun can't go on with it.
    UnexpectedCharacter(char),

    /// A string that its line, or the text, ends before its closing quote.
    UnterminatedString,

    /// A control character in a string.
    UnknownCharacterInString(char),

    /// An escape that stands for no character, from its backslash on.
    UnknownEscapeSequence(Text),

    /// The end of the text in a token that was begun.
    UnexpectedEndOfFile,

    /// A number that can't be read. The lexer never gives it.
    InvalidNumber,

    /// Memory ran out. It says nothing about the text.
    Memory,
}

/// The text that a user is shown.
impl fmt::Display for LexerError {
    ghost use Rattle.graphql_text.specs.FaultTexts.{lexical_text};

    ghost output = { λ fault. Some (lexical_text fault) };

    fn fmt<W: fmt::Write>(&self, f: &mut fmt::Formatter<W>) -> fmt::Result {
        match self {
            LexerError::UnknownCharacter(c) => write!(f, "Unknown character \"{c}\""),
            LexerError::UnexpectedCharacter(c) => write!(f, "Unexpected character \"{c}\""),
            LexerError::UnterminatedString => write!(f, "Unterminated string literal"),
            LexerError::UnknownCharacterInString(c) => {
                write!(f, "Unknown character \"{c}\" in string literal")
            }
            LexerError::UnknownEscapeSequence(escape) => {
                write!(f, "Unknown escape sequence \"{escape}\" in string")
            }
            LexerError::UnexpectedEndOfFile => write!(f, "Unexpected end of input"),
            LexerError::InvalidNumber => write!(f, "Invalid number literal"),
            LexerError::Memory => write!(f, "Out of memory"),
        }
    }
}

impl From<AllocError> for LexerError {
    ghost use Rattle.graphql_text.specs.declared.token.LexerError.TheVariants.{Memory};

    ghost from_gives = { λ _ e. e ≡ Memory };

    fn from(_error: AllocError) -> LexerError {
        LexerError::Memory
    }
}

impl<T: Drop> From<AllocFailed<T>> for LexerError {
    ghost use Rattle.graphql_text.specs.declared.token.LexerError.TheVariants.{Memory};

    ghost from_gives = { λ _ e. e ≡ Memory };

    fn from(_error: AllocFailed<T>) -> LexerError {
        LexerError::Memory
    }
}

/// A token with its part of the text, or the fault at its place.
pub type LexerResult<'a> = Result<Spanning<Token<'a>>, Spanning<LexerError>>;
