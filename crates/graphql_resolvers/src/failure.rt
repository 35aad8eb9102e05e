//! Why a field has no answer.

ghost use Rattle.std.specs.Prelude.{◌≡◌};
ghost use Rattle.graphql_resolvers.specs.declared.failure.Failure.TheVariants.{Memory};

use graphql_field_results::FieldError;
use graphql_scalars::DefaultScalarValue;
use std::alloc::{AllocError, AllocFailed};

/// Why a field has no answer (GraphQL October 2021, 6.4.4 Handling Field Errors).
#[derive(Drop)]
pub enum Failure {
    /// The field's error, which is told at the field's place.
    Error(FieldError<DefaultScalarValue>),

    /// Memory ran out. It tells nothing of the field.
    Memory,
}

impl From<AllocError> for Failure {
    ghost from_gives = { λ _ failure. failure ≡ Memory };

    fn from(_error: AllocError) -> Failure {
        Failure::Memory
    }
}

impl<T: Drop> From<AllocFailed<T>> for Failure {
    ghost from_gives = { λ _ failure. failure ≡ Memory };

    fn from(_error: AllocFailed<T>) -> Failure {
        Failure::Memory
    }
}
