//! What gives the plain texts of request lines.

use crate::service::Service;
use graphql_schema::SchemaScalar;

/// A service that is asked for the plain texts of lines, and lent for it.
#[derive(Drop)]
pub(crate) struct PlainLines<'s, S, R, X, C = <S as SchemaScalar>::Check> {
    pub(crate) service: &'s Service<S, R, X, C>,
}
