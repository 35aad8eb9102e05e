//! The kinds of token that the grammar tells apart.

ghost use Rattle.std.specs.Prelude.{◌≡◌};
ghost use Rattle.graphql_grammar.specs.Kinds as spec;

use graphql_text::{TextRef, Token};

/// What the grammar sees of a token (GraphQL October 2021, appendix B): a punctuator or the end of
/// the text as it is, of a scalar that it is one, and of a name which of the grammar's words it is.
#[derive(Clone, Copy, Debug, PartialEq, Eq)]
pub enum Kind {
    /// A name that is none of the words below.
    Name,
    /// The name `on`.
    On,
    /// The name `query`.
    Query,
    /// The name `mutation`.
    Mutation,
    /// The name `subscription`.
    Subscription,
    /// The name `fragment`.
    Fragment,
    /// The name `true`.
    True,
    /// The name `false`.
    False,
    /// The name `null`.
    Null,
    /// A number or a string.
    Scalar,
    /// `!`
    ExclamationMark,
    /// `$`
    Dollar,
    /// `(`
    ParenOpen,
    /// `)`
    ParenClose,
    /// `[`
    BracketOpen,
    /// `]`
    BracketClose,
    /// `{`
    CurlyOpen,
    /// `}`
    CurlyClose,
    /// `...`
    Ellipsis,
    /// `:`
    Colon,
    /// `=`
    Equals,
    /// `@`
    At,
    /// `|`
    Pipe,
    /// The end of the text.
    EndOfFile,
}

impl Kind {
    /// Whether it is that of a name, of a word or another (GraphQL October 2021, 2.1.9 Names).
    pub fn is_name(self) -> bool
        ensures { result ≡ spec.names self }
    {
        matches!(
            self,
            Kind::Name
                | Kind::On
                | Kind::Query
                | Kind::Mutation
                | Kind::Subscription
                | Kind::Fragment
                | Kind::True
                | Kind::False
                | Kind::Null
        )
    }

    /// Whether it is that of a fragment's name: of any name but `on` (GraphQL October 2021, 2.8
    /// Fragments).
    pub fn is_fragment_name(self) -> bool
        ensures { result ≡ spec.fragment_names self }
    {
        match self {
            Kind::On => false,
            _ => self.is_name(),
        }
    }
}

/// Which of the grammar's words a name is.
fn word_kind(name: &TextRef<'_>) -> Kind
    ensures { result ≡ spec.word_kind name.now }
{
    let name = name.as_str();
    match name.len() {
        2 => match name {
            "on" => Kind::On,
            _ => Kind::Name,
        },
        4 => match name {
            "true" => Kind::True,
            "null" => Kind::Null,
            _ => Kind::Name,
        },
        5 => match name {
            "query" => Kind::Query,
            "false" => Kind::False,
            _ => Kind::Name,
        },
        8 => match name {
            "mutation" => Kind::Mutation,
            "fragment" => Kind::Fragment,
            _ => Kind::Name,
        },
        12 => match name {
            "subscription" => Kind::Subscription,
            _ => Kind::Name,
        },
        _ => Kind::Name,
    }
}

/// The kind of a token.
pub fn kind_of(token: &Token<'_>) -> Kind
    ensures { result ≡ spec.kind token.now }
{
    match token {
        Token::Name(name) => word_kind(name),
        Token::Scalar(_) => Kind::Scalar,
        Token::ExclamationMark => Kind::ExclamationMark,
        Token::Dollar => Kind::Dollar,
        Token::ParenOpen => Kind::ParenOpen,
        Token::ParenClose => Kind::ParenClose,
        Token::BracketOpen => Kind::BracketOpen,
        Token::BracketClose => Kind::BracketClose,
        Token::CurlyOpen => Kind::CurlyOpen,
        Token::CurlyClose => Kind::CurlyClose,
        Token::Ellipsis => Kind::Ellipsis,
        Token::Colon => Kind::Colon,
        Token::Equals => Kind::Equals,
        Token::At => Kind::At,
        Token::Pipe => Kind::Pipe,
        Token::EndOfFile => Kind::EndOfFile,
    }
}
