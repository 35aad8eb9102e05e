//! The text layer of GraphQL: places in a text, what a token of it is, its lexical faults.
//!
//! What a token is, and what each fault, is said by the lexical grammar in `specs/Grammar.antt`,
//! for all crates above; `graphql_lexer` reads a text by it.
//!
//! The small types that the contracts of the other crates compare: a `Vec` or a `String` within a
//! value carries an address and a capacity, so two equal ones are not the same value in a contract.
//! [`Items`] is the list of its items and [`Text`] the bytes of its text, and nothing else.
//!
//! A type may hold itself through `Items`, alone or within a struct or a pair. A definition of such
//! a type is a fold by layers, in which each list is a plain list of what the parts gave.
#![tactic(auto)]

mod characters;
mod class;
mod cursor;
mod items;
mod parse_error;
mod position;
mod spanning;
mod text;
mod text_ref;
mod token;

pub use characters::{continues_name, first_character};
pub use class::Class;
pub use cursor::Cursor;
pub use items::Items;
pub use parse_error::{OptionParseResult, ParseError, ParseResult, UnlocatedParseResult};
pub use position::{SourcePosition, Span};
pub use spanning::Spanning;
pub use text::Text;
pub use text_ref::TextRef;
pub use token::{LexerError, LexerResult, ScalarToken, Token};
