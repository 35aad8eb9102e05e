//! Why an operation has no plain text.

ghost use Rattle.std.specs.Prelude.{◌≡◌};
ghost use Rattle.graphql_plain_print.specs.declared.print_error.PrintError.TheVariants.{Memory};

use std::alloc::{AllocError, AllocFailed};
use thiserror::Error;

/// Why an operation is not printed.
#[derive(Debug, Drop, Error)]
pub enum PrintError {
    /// Its plain text has more fields and inline fragments than the limit.
    #[error("Plain text has too many selections")]
    TooLarge,

    /// Memory ran out.
    #[error("Out of memory")]
    Memory,
}

impl From<AllocError> for PrintError {
    ghost from_gives = { λ _ e. e ≡ Memory };

    fn from(_error: AllocError) -> PrintError {
        PrintError::Memory
    }
}

impl<T: Drop> From<AllocFailed<T>> for PrintError {
    ghost from_gives = { λ _ e. e ≡ Memory };

    fn from(_error: AllocFailed<T>) -> PrintError {
        PrintError::Memory
    }
}
