//! Why a file has no allowed queries.

use std::alloc::AllocError;
use std::fmt;
use thiserror::Error;

/// Why a file has no allowed queries.
#[derive(Clone, Copy, Debug, Error, PartialEq, Eq)]
pub enum AllowedFault {
    /// This line, counted from one, is the first that is neither empty nor a JSON object whose
    /// `plain` is a text.
    Line(usize),

    /// Memory ran out, which tells nothing of the file.
    Memory,
}

impl From<AllocError> for AllowedFault {
    ghost use Rattle.std.specs.Prelude.{◌≡◌};
    ghost use Rattle.graphql_stores.specs.declared.allowed_fault.AllowedFault.TheVariants.{Memory};

    ghost from_gives = { λ _ fault. fault ≡ Memory };

    fn from(_error: AllocError) -> AllowedFault {
        AllowedFault::Memory
    }
}

/// Writes the fault in words.
impl fmt::Display for AllowedFault {
    ghost use Rattle.std.specs.Prelude.{Some};
    ghost use Rattle.graphql_stores.specs.FaultTexts.{allowed_fault_text};

    ghost output = { λ fault. Some (allowed_fault_text fault) };

    fn fmt<W: fmt::Write>(&self, f: &mut fmt::Formatter<W>) -> fmt::Result {
        match self {
            AllowedFault::Line(number) => write!(f, "line {number} tells no plain text"),
            AllowedFault::Memory => f.write_str("out of memory"),
        }
    }
}
