//! The lexer: a text read into its tokens, by the lexical grammar of `graphql_text`.
//!
//! `TokenRecords` reads a whole text into records of its tokens, `lex_all` into the tokens
//! themselves, and `Lexer` gives them one by one; `TokenTexts` gives the tokens within a span with
//! their source texts. `laws` holds the laws of the grammar that they rest on.
#![tactic(auto)]

pub mod laws;
mod lexer;
mod number;
mod recording;
mod scan;
mod string_token;
mod token_record;
mod token_records;
mod token_text;
mod token_texts;
mod tokens;

pub use lexer::{Lexer, lex_all};
pub use token_records::TokenRecords;
pub use token_text::TokenText;
pub use token_texts::TokenTexts;
