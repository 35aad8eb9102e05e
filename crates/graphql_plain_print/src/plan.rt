//! What printing asks of a request.

use graphql_lexer::TokenRecords;
use graphql_written_out::{FinalVariables, Fragments};

/// What stays the same while an operation is printed.
#[derive(Drop)]
pub struct Plan<'d, 'v, 'a, S> {
    /// The fragments of the document.
    pub fragments: Fragments<'d, 'a, S>,

    /// The final values of the operation's variables.
    pub variables: &'v FinalVariables<'v, S>,

    /// The tokens of the text that the document was read from.
    pub tokens: &'d TokenRecords<'a>,

    /// How many fields and inline fragments may be printed.
    pub limit: usize,
}
