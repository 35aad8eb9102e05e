//! Why a request has no plain text.

ghost use Rattle.std.specs.Prelude.{◌≡◌, Some};
ghost use Rattle.graphql_plain_print.specs.declared.print_error.PrintError.TheVariants as print;
ghost use Rattle.graphql_plain_requests.specs.ErrorTexts.{plain_error_text};
ghost use Rattle.graphql_plain_requests.specs.Faults.{of_print, of_refusal};
ghost use Rattle.graphql_plain_requests.specs.declared.plain_error.PlainError.TheVariants.{Memory};

use graphql_plain_print::PrintError;
use graphql_requests::GraphQLError;
use std::alloc::{AllocError, AllocFailed};
use std::fmt;
use thiserror::Error;

/// Why a request has no plain text, or want of memory.
#[derive(Debug, Drop, Error)]
pub enum PlainError {
    /// The request is not executed: the first step that fails, as `execute_sync` tells it.
    Refused(GraphQLError),

    /// The plain text has more fields and inline fragments than the limit.
    TooLarge,

    /// Memory ran out. It says nothing about the request.
    Memory,
}

/// Why a request is not executed; want of memory stays want of memory.
impl From<GraphQLError> for PlainError {
    ghost from_gives = { λ refusal error. error ≡ of_refusal refusal };

    fn from(refusal: GraphQLError) -> PlainError {
        match refusal {
            GraphQLError::Memory => PlainError::Memory,
            refusal => PlainError::Refused(refusal),
        }
    }
}

/// Why an operation is not printed.
impl From<PrintError> for PlainError {
    ghost from_gives = { λ why error. error ≡ of_print why };

    fn from(why: PrintError) -> PlainError {
        match why {
            PrintError::TooLarge => PlainError::TooLarge,
            PrintError::Memory => PlainError::Memory,
        }
    }
}

/// Want of memory.
impl From<AllocError> for PlainError {
    ghost from_gives = { λ _ error. error ≡ Memory };

    fn from(_error: AllocError) -> PlainError {
        PlainError::Memory
    }
}

/// Want of memory.
impl<T: Drop> From<AllocFailed<T>> for PlainError {
    ghost from_gives = { λ _ error. error ≡ Memory };

    fn from(_error: AllocFailed<T>) -> PlainError {
        PlainError::Memory
    }
}

/// The text that a user is shown: of a request that is not executed that of its refusal.
impl fmt::Display for PlainError {
    ghost output = { λ error. Some (plain_error_text error) };

    fn fmt<W: fmt::Write>(&self, f: &mut fmt::Formatter<W>) -> fmt::Result {
        match self {
            PlainError::Refused(refusal) => fmt::Display::fmt(refusal, f),
            PlainError::TooLarge => f.write_str("Plain text has too many selections"),
            PlainError::Memory => f.write_str("Out of memory"),
        }
    }
}
