//! What resolvers answer, and why a field has no value (GraphQL October 2021, 6.4.2 Value
//! Resolution, 6.4.4 Handling Field Errors).
#![tactic(auto)]

mod execution_error;
mod field_error;
mod field_fault;
mod into_field_error;
pub mod laws;
mod resolved;

pub use execution_error::{ExecutionError, in_order};
pub use field_error::FieldError;
pub use field_fault::{ExecutionResult, FieldFault, FieldResult};
pub use into_field_error::IntoFieldError;
pub use resolved::Resolved;
