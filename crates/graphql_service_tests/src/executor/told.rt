//! Errors of executions, as lines of text.

use graphql_field_results::ExecutionError;
use graphql_text::SourcePosition;
use graphql_values::DefaultScalarValue;
use std::alloc::{AllocError, Global};

/// A place: its index, its line and its column, each from zero.
fn place_told(alloc: Global, place: &SourcePosition) -> Result<String, AllocError> {
    let (index, line, column) = (place.index(), place.line(), place.column());
    format!(in alloc; "({index},{line},{column})")
}

/// Where a field without a value stands, its path, and why it has none.
fn error_told(
    alloc: Global,
    error: &ExecutionError<DefaultScalarValue>,
) -> Result<String, AllocError> {
    let place = place_told(alloc, error.location())?;
    let mut told = format!(in alloc; "{place}")?;
    for key in error.path() {
        told.push_str(" ")?;
        told.push_str(key.as_str())?;
    }
    told.push_str(": ")?;
    told.push_str(error.error().message())?;
    Ok(told)
}

/// These errors, each behind the end of a line.
pub fn errors_told(
    alloc: Global,
    errors: &[ExecutionError<DefaultScalarValue>],
) -> Result<String, AllocError> {
    let mut told = String::new(alloc);
    for error in errors {
        let line = error_told(alloc, error)?;
        told.push_str("\n")?;
        told.push_str(line.as_str())?;
    }
    Ok(told)
}
