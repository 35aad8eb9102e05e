//! A token of a text as a record: what it is and where it stands, its text left in the source.

ghost use Rattle.std.specs.Prelude.{◌≡◌, ℕ, List};
ghost use Rattle.graphql_lexer.specs.declared.token_record.TokenKind.TheVariants as kinds;
ghost use Rattle.graphql_lexer.specs.Records as spec;
ghost use Rattle.graphql_text.specs.Tokens.{is_end};
ghost use Rattle.graphql_lexer.specs.Records.{StandsIn, text_at, token_from, unquoted};
ghost use Rattle.graphql_lexer.specs.Within.{with_text};

use crate::token_text::TokenText;
use graphql_text::{ScalarToken, SourcePosition, Span, Spanning, TextRef, Token};

/// What a token is, its text aside.
#[derive(Clone, Copy, Debug)]
pub enum TokenKind {
    /// A name.
    Name,
    /// A string.
    String,
    /// A number with a fraction, an exponent or both.
    Float,
    /// A number with neither.
    Int,
    /// `!`
    ExclamationMark,
    /// `$`
    Dollar,
    /// `(`
    ParenOpen,
    /// `)`
    ParenClose,
    /// `[`
    BracketOpen,
    /// `]`
    BracketClose,
    /// `{`
    CurlyOpen,
    /// `}`
    CurlyClose,
    /// `...`
    Ellipsis,
    /// `:`
    Colon,
    /// `=`
    Equals,
    /// `@`
    At,
    /// `|`
    Pipe,
    /// The end of the text.
    EndOfFile,
}

/// A token of a text: what it is, and where it stands. Its text stays in the source.
#[derive(Clone, Copy, Debug)]
pub struct TokenRecord {
    /// What it is.
    pub kind: TokenKind,
    /// The byte of the source at which it begins.
    pub offset: usize,
    /// How many bytes it has, a string's quotes among them.
    pub len: usize,
    /// How many characters it has, a string's quotes among them.
    pub width: usize,
    /// The place of its first character.
    pub start: SourcePosition,
}

/// What a token is.
pub fn kind_of(token: &Token<'_>) -> TokenKind
    ensures { result ≡ spec.kind_of token.now }
{
    match token {
        Token::Name(_) => TokenKind::Name,
        Token::Scalar(ScalarToken::String(_)) => TokenKind::String,
        Token::Scalar(ScalarToken::Float(_)) => TokenKind::Float,
        Token::Scalar(ScalarToken::Int(_)) => TokenKind::Int,
        Token::ExclamationMark => TokenKind::ExclamationMark,
        Token::Dollar => TokenKind::Dollar,
        Token::ParenOpen => TokenKind::ParenOpen,
        Token::ParenClose => TokenKind::ParenClose,
        Token::BracketOpen => TokenKind::BracketOpen,
        Token::BracketClose => TokenKind::BracketClose,
        Token::CurlyOpen => TokenKind::CurlyOpen,
        Token::CurlyClose => TokenKind::CurlyClose,
        Token::Ellipsis => TokenKind::Ellipsis,
        Token::Colon => TokenKind::Colon,
        Token::Equals => TokenKind::Equals,
        Token::At => TokenKind::At,
        Token::Pipe => TokenKind::Pipe,
        Token::EndOfFile => TokenKind::EndOfFile,
    }
}

/// Whether a token of this kind is the end of the text.
pub fn ends_text(kind: TokenKind) -> bool
    ensures { (text : List ℕ) → result ≡ is_end (token_from kind text) }
{
    matches!(kind, TokenKind::EndOfFile)
}

/// What stands between the quotes of a string.
fn within_quotes(text: &str) -> &str
    requires { spec.IsQuoted text.now }
    ensures { result.now ≡ unquoted text.now }
{
    &text[1..text.len() - 1]
}

/// The token of a kind with this source text.
fn token_of_kind<'a>(kind: TokenKind, text: &'a str) -> Token<'a>
    requires { kind ≡ kinds.String → spec.IsQuoted text.now }
    ensures { result ≡ token_from kind text.now }
{
    match kind {
        TokenKind::Name => Token::Name(TextRef::new(text)),
        TokenKind::String => Token::Scalar(ScalarToken::String(TextRef::new(within_quotes(text)))),
        TokenKind::Float => Token::Scalar(ScalarToken::Float(TextRef::new(text))),
        TokenKind::Int => Token::Scalar(ScalarToken::Int(TextRef::new(text))),
        TokenKind::ExclamationMark => Token::ExclamationMark,
        TokenKind::Dollar => Token::Dollar,
        TokenKind::ParenOpen => Token::ParenOpen,
        TokenKind::ParenClose => Token::ParenClose,
        TokenKind::BracketOpen => Token::BracketOpen,
        TokenKind::BracketClose => Token::BracketClose,
        TokenKind::CurlyOpen => Token::CurlyOpen,
        TokenKind::CurlyClose => Token::CurlyClose,
        TokenKind::Ellipsis => Token::Ellipsis,
        TokenKind::Colon => Token::Colon,
        TokenKind::Equals => Token::Equals,
        TokenKind::At => Token::At,
        TokenKind::Pipe => Token::Pipe,
        TokenKind::EndOfFile => Token::EndOfFile,
    }
}

impl TokenRecord {
    /// The source text of the token: a string's with its quotes, and escapes as they are written.
    fn text<'a>(self, source: &'a str) -> &'a str
        requires { StandsIn source.now self }
        ensures { result.now ≡ text_at source.now self }
    {
        &source[self.offset..self.offset + self.len]
    }

    /// The token, cut from the source. Nothing is counted.
    pub fn item<'a>(self, source: &'a str) -> Token<'a>
        requires { StandsIn source.now self }
        ensures { result ≡ token_from self.kind (text_at source.now self) }
    {
        token_of_kind(self.kind, self.text(source))
    }

    /// The place behind the token, which stands in one line. Nothing is counted.
    pub fn end(self) -> SourcePosition
        requires { spec.HasRoom self }
        ensures { result ≡ (spec.span_of self).end }
    {
        SourcePosition::new(
            self.start.index() + self.width,
            self.start.line(),
            self.start.column() + self.width,
        )
    }

    /// The part of the text in which the token stands.
    pub fn span(self) -> Span
        requires { spec.HasRoom self }
        ensures { result ≡ spec.span_of self }
    {
        Span {
            start: self.start,
            end: self.end(),
        }
    }

    /// The token at its place, cut from the source.
    #[tactic(auto, unfolding(crate::specs::Records::token_of))]
    pub fn token<'a>(self, source: &'a str) -> Spanning<Token<'a>>
        requires { StandsIn source.now self }
        ensures { result ≡ spec.token_of source.now self }
    {
        Spanning::new(self.span(), self.item(source))
    }

    /// The token at its place, with its source text.
    #[tactic(auto, unfolding(crate::specs::Records::token_of))]
    pub fn with_text<'a>(self, source: &'a str) -> TokenText<'a>
        requires { StandsIn source.now self }
        ensures { result ≡ with_text (spec.token_of source.now self) }
    {
        TokenText {
            token: self.token(source),
            text: TextRef::new(self.text(source)),
        }
    }
}
