//! Faults of texts, and places in them.

use graphql_language::{LexerError, ParseError, parse_document_source};
use graphql_text::{SourcePosition, Spanning};
use graphql_values::DefaultScalarValue;
use std::alloc::{AllocError, Global};

/// What is wrong with a text, and where.
pub type Fault = Spanning<ParseError>;

/// Writes a place: its index, line and column, each from zero.
pub fn push_place(told: &mut String, place: SourcePosition) -> Result<(), AllocError> {
    let (index, line, column) = (place.index(), place.line(), place.column());
    write!(told, " ({index},{line},{column})")
}

/// The kind of a fault, and what it holds.
fn push_kind(told: &mut String, error: &ParseError) -> Result<(), AllocError> {
    match error {
        ParseError::UnexpectedToken(token) => write!(told, "UnexpectedToken {token}"),
        ParseError::UnexpectedEndOfFile => told.push_str("UnexpectedEndOfFile"),
        ParseError::LexerError(LexerError::UnknownCharacter(character)) => {
            write!(told, "UnknownCharacter {character}")
        }
        ParseError::ExpectedScalarError(words) => write!(told, "ExpectedScalarError {words}"),
        _ => told.push_str("another"),
    }
}

/// The kind of a fault, and its place.
fn push_fault(told: &mut String, fault: &Fault) -> Result<(), AllocError> {
    told.push_str("=> ")?;
    push_kind(told, &fault.item)?;
    told.push_str(" at")?;
    push_place(told, fault.start())?;
    told.push('\n')
}

/// Tells the kind and the place of a text's first fault, where it has one.
pub fn answer_kind(alloc: Global, text: &str, told: &mut String) -> Result<(), AllocError> {
    match parse_document_source::<DefaultScalarValue>(alloc, text) {
        Ok(_) => told.push_str("=> none\n"),
        Err(fault) => push_fault(told, &fault),
    }
}
