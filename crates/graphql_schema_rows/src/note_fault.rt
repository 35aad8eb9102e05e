//! Why a definition can't tell of itself what it tells.

ghost use Rattle.std.specs.Prelude.{◌≡◌};
ghost use Rattle.graphql_schema_rows.specs.declared.note_fault.NoteFault.TheVariants.{Memory};

use graphql_text::{ParseError, Spanning, Text};
use std::alloc::{AllocError, AllocFailed};
use thiserror::Error;

/// Why a definition can't tell of itself what it tells, at its place; or want of memory.
#[derive(Debug, Drop, Error)]
pub enum NoteFault {
    /// What stands as its description is no string: a number, or a string with a bad escape
    /// (GraphQL October 2021, 3.2 Descriptions).
    #[error("A description is a string: {0}")]
    NoDescription(Spanning<ParseError>),

    /// A directive of this name, which may not stand there: `@deprecated` alone may (3.13.3).
    #[error("No directive but \"@deprecated\" may stand here: {0}")]
    OtherDirective(Spanning<Text>),

    /// A directive of this name behind another one.
    #[error("A second directive: {0}")]
    SecondDirective(Spanning<Text>),

    /// The arguments of the directive of this name, `deprecated`, are not one text, `reason`
    /// (3.13.3).
    #[error("The one argument has to be a text, \"reason\": {0}")]
    NoReason(Spanning<Text>),

    /// Memory ran out. It says nothing of the definition.
    #[error("Out of memory")]
    Memory,
}

impl From<AllocError> for NoteFault {
    ghost from_gives = { λ _ e. e ≡ Memory };

    fn from(_error: AllocError) -> NoteFault {
        NoteFault::Memory
    }
}

impl<T: Drop> From<AllocFailed<T>> for NoteFault {
    ghost from_gives = { λ _ e. e ≡ Memory };

    fn from(_error: AllocFailed<T>) -> NoteFault {
        NoteFault::Memory
    }
}
