//! Errors of fields, or want of memory.

ghost use Rattle.std.specs.Prelude.{◌≡◌};
ghost use Rattle.graphql_field_results.specs.declared.field_fault.FieldFault.TheVariants.{Error};
ghost use Rattle.graphql_field_results.specs.declared.field_fault.FieldFault.TheVariants.{Memory};

use crate::field_error::FieldError;
use graphql_output_values::Value;
use std::alloc::{AllocError, AllocFailed};
use thiserror::Error;

/// Why a resolver has no answer: the error of the field, or want of memory, which tells nothing of
/// the field.
#[derive(Debug, Drop, Error)]
pub enum FieldFault<S> {
    /// The field's error.
    #[error("{0}")]
    Error(FieldError<S>),

    /// Memory ran out.
    #[error("out of memory")]
    Memory,
}

/// What a resolver answers.
pub type FieldResult<T, S> = Result<T, FieldFault<S>>;

/// The value that a field has in the end.
pub type ExecutionResult<S> = Result<Value<S>, FieldFault<S>>;

impl<S> From<AllocError> for FieldFault<S> {
    ghost from_gives = { λ _ fault. fault ≡ Memory };

    fn from(_error: AllocError) -> FieldFault<S> {
        FieldFault::Memory
    }
}

impl<S, T: Drop> From<AllocFailed<T>> for FieldFault<S> {
    ghost from_gives = { λ _ fault. fault ≡ Memory };

    fn from(_error: AllocFailed<T>) -> FieldFault<S> {
        FieldFault::Memory
    }
}

impl<S> From<FieldError<S>> for FieldFault<S> {
    ghost from_gives = { λ error fault. fault ≡ Error error };

    fn from(error: FieldError<S>) -> FieldFault<S> {
        FieldFault::Error(error)
    }
}
