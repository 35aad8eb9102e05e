//! Why no more lines are answered.

ghost use Rattle.std.specs.Prelude.{◌≡◌, Some};
ghost use Rattle.graphql_streams.specs.Served.{serve_error_text};
ghost use Rattle.graphql_streams.specs.declared.serve_error.ServeError.TheVariants.{Memory};

use std::alloc::{AllocError, AllocFailed};
use std::fmt;
use thiserror::Error;

/// Why no more lines are answered.
#[derive(Clone, Copy, Debug, Error, PartialEq, Eq)]
pub enum ServeError {
    /// A read failed.
    Read,

    /// A write failed, or took nothing.
    Write,

    /// Memory ran out.
    Memory,
}

impl From<AllocError> for ServeError {
    ghost from_gives = { λ _ error. error ≡ Memory };

    fn from(_error: AllocError) -> ServeError {
        ServeError::Memory
    }
}

impl<T: Drop> From<AllocFailed<T>> for ServeError {
    ghost from_gives = { λ _ error. error ≡ Memory };

    fn from(_error: AllocFailed<T>) -> ServeError {
        ServeError::Memory
    }
}

/// Writes what failed, or that memory ran out.
impl fmt::Display for ServeError {
    ghost output = { λ error. Some (serve_error_text error) };

    fn fmt<W: fmt::Write>(&self, f: &mut fmt::Formatter<W>) -> fmt::Result {
        let text = match self {
            ServeError::Read => "read failed",
            ServeError::Write => "write failed",
            ServeError::Memory => "out of memory",
        };
        f.write_str(text)
    }
}
