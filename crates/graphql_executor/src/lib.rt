//! Execution of requests (GraphQL October 2021, 6 Execution).
#![tactic(auto)]

mod execute_request;
mod introspection_query;
pub mod laws;
mod operation;
mod resolving;
mod validated;

pub use execute_request::{execute_sync, execute_with};
pub use graphql_arguments::Arguments;
pub use graphql_execution_walk::{
    Context, Executor, FieldPath, FromContext, GraphQLValue, declared_type,
};
pub use graphql_field_results::{
    ExecutionError, ExecutionResult, FieldError, FieldFault, FieldResult, IntoFieldError, Resolved,
};
pub use graphql_input_types::{ID, Nullable};
pub use graphql_introspection::{introspection_metadata, kind_name, location_name};
pub use graphql_look_ahead::{
    Applies, LookAheadArgument, LookAheadArguments, LookAheadChildren, LookAheadList,
    LookAheadObject, LookAheadSelection, LookAheadValue, Names, Selected, look_ahead_list,
    look_ahead_object,
};
pub use graphql_mutation::GraphQLMutationValue;
pub use graphql_occurrences::TypeLiteral;
pub use graphql_registry::{
    AnswersByClones, EmptyMutation, EmptySubscription, GraphQLType, IntoResolvable, Registry,
};
pub use graphql_requests::{
    GraphQLError, ValidTexts, documents_without_a_fault_are_settled, get_operation, read_request,
};
pub use graphql_schema::{IntrospectionChecks, Meaning, TypeKind};
pub use graphql_values::{FromInputValueArrayError, FromInputValueVecError};
pub use graphql_written_out::FinalVariables;
pub use introspection_query::{IntrospectionFormat, introspect};
pub use operation::Response;
pub use resolving::Resolving;
pub use validated::execute_validated_query;
