//! Why a line is no request.

ghost use Rattle.std.specs.Prelude.{◌≡◌};

use std::alloc::{AllocError, AllocFailed};
use thiserror::Error;

/// Why a line is no request that can be run: the first that stands, in this order.
#[derive(Clone, Copy, Debug, Error, PartialEq, Eq)]
pub enum LineRefusal {
    /// The line has more bytes than its service takes. `request_from_line` never answers it.
    #[error("Line is too long")]
    LineTooLong,

    /// The line is not UTF-8, no JSON that `serde_json` reads, nested deeper than it reads, no
    /// object; or its `query` is missing or no text, its `operationName` neither text nor null, its
    /// `variables` neither object nor null.
    #[error("Line is not a request")]
    NotARequest,

    /// A number in `variables` is not held as a whole one, or lies outside 32 bits.
    #[error("A number in variables is not whole or does not fit 32 bits")]
    BadNumber,

    /// Memory ran out, which tells nothing of the line.
    #[error("Out of memory")]
    Memory,
}

impl From<AllocError> for LineRefusal {
    ghost use Rattle.graphql_lines.specs.declared.refusal.LineRefusal.TheVariants.{Memory};

    ghost from_gives = { λ _ e. e ≡ Memory };

    fn from(_error: AllocError) -> LineRefusal {
        LineRefusal::Memory
    }
}

impl<T: Drop> From<AllocFailed<T>> for LineRefusal {
    ghost use Rattle.graphql_lines.specs.declared.refusal.LineRefusal.TheVariants.{Memory};

    ghost from_gives = { λ _ e. e ≡ Memory };

    fn from(_error: AllocFailed<T>) -> LineRefusal {
        LineRefusal::Memory
    }
}
