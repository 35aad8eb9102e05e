//! A token with its source text.

use graphql_text::{Spanning, TextRef, Token};

/// A token of a text at its place, with its source text.
#[derive(Debug, Drop)]
pub struct TokenText<'a> {
    /// The token, in the part of the text in which it stands.
    pub token: Spanning<Token<'a>>,
    /// Its source text: a string's with its quotes, and escapes as they are written.
    pub text: TextRef<'a>,
}
