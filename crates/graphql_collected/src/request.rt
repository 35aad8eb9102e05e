//! What stays the same while a request runs.

use graphql_schema::{SchemaScalar, SchemaType};
use graphql_written_out::{FinalVariables, Fragments};

/// A schema, the fragments of a document, and the final values of an operation's variables.
#[derive(Drop)]
pub struct Request<'d, 'a, S, C = <S as SchemaScalar>::Check> {
    /// The schema.
    pub schema: &'d SchemaType<S, C>,

    /// The fragments.
    pub fragments: Fragments<'d, 'a, S>,

    /// The final values of the variables.
    pub variables: FinalVariables<'d, S>,
}
