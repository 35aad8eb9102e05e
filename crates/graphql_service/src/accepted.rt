//! Requests that are read and accepted already.

use graphql_text::Spanning;
use graphql_tree::{Definition, Operation};
use graphql_values::Variables;

/// A request that is read and accepted already, and lent (GraphQL October 2021, 6.1 Executing
/// Requests).
#[derive(Drop)]
pub struct AcceptedRequest<'d, 'a, S> {
    /// The document of the request's text, which is valid, as `read_records` of `graphql_requests`
    /// gives it.
    pub document: &'d [Definition<'a, S>],

    /// The operation of the document that is executed, as `chosen_operation` gives it.
    pub operation: &'d Spanning<Operation<'a, S>>,

    /// The values that the request gives for variables.
    pub variables: &'d Variables<S>,
}
