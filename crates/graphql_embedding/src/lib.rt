//! What a program names that serves a schema and a resolver of its own: the schema in rows of text
//! ([`SchemaRows`]), and the service over both ([`serve_rows`], [`serve_checked_rows`]). What its
//! resolver names is in `graphql_resolvers`.
#![tactic(auto)]

mod fault;
mod serving;
mod simple_resolver;

pub use fault::ServeRowsFault;
pub use graphql_resolvers::QueriesOnly;
pub use graphql_schema::TypeCheck;
pub use graphql_schema_rows::{CheckedRow, RowFault, TypeRow};
pub use graphql_service::{
    ByteSink, ByteSource, IntrospectionChecks, Piped, Service, StandardChecks, scalar_checks,
};
pub use serving::{
    CheckedRows, LINE_LIMIT, SELECTION_LIMIT, SchemaRows, serve_checked_rows, serve_rows,
};
pub use simple_resolver::SimpleResolver;
