//! The service layer of GraphQL: a service that answers request lines over a schema and a resolver.
#![tactic(auto)]

mod accepted;
mod answered_by;
pub mod laws;
pub mod meaning;
mod plain;
mod plain_lines;
mod plain_serving;
mod read;
mod refusal;
mod response;
mod service;
mod serving;

pub use accepted::AcceptedRequest;
pub use answered_by::Answering;
pub use graphql_executor::{
    Applies, Arguments, Context, ExecutionError, Executor, FieldError, FieldFault, FieldPath,
    FieldResult, GraphQLError, GraphQLMutationValue, GraphQLValue, ID, IntoFieldError,
    IntrospectionChecks, IntrospectionFormat, LookAheadChildren, LookAheadSelection, Meaning,
    Nullable, Resolved, Resolving, execute_sync, execute_validated_query, get_operation,
    introspect, introspection_metadata,
};
pub use graphql_json::{text_to_json, value_to_json};
pub use graphql_lines::{
    GraphQLRequest, LineRefusal, json_of_line, request_from_line, request_in, variables_from_json,
};
pub use graphql_plain_requests::{
    PlainError, boolean_takes_true, operation_name_of, plain_request,
};
pub use graphql_schema::scalar_checks::{self, StandardChecks};
pub use graphql_streams::{ByteSink, ByteSource, Piped, ReadFailed, ServeError, WriteFailed};
pub use service::{Service, ServiceFault, VALID_BYTE_LIMIT, VALID_TEXT_LIMIT};
