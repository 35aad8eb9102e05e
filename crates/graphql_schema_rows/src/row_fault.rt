//! Why rows make no type.

ghost use Rattle.std.specs.Prelude.{◌≡◌};
ghost use Rattle.graphql_schema_rows.specs.declared.row_fault.RowFault.TheVariants.{Memory};

use crate::note_fault::NoteFault;
use graphql_text::{ParseError, Spanning, Text};
use std::alloc::{AllocError, AllocFailed};
use thiserror::Error;

/// Why rows make no type; or want of memory.
#[derive(Debug, Drop, Error)]
pub enum RowFault {
    /// This text has to be a name, and is none (GraphQL October 2021, 2.1.9 Names).
    #[error("\"{0}\" is not a name")]
    BadName(Text),

    /// In a row of a type no definition could have what stands at this place: the type's name, the
    /// row, and the row's first fault.
    #[error("Type \"{0}\", row \"{1}\": {2}")]
    BadRow(Text, Text, Spanning<ParseError>),

    /// In a row of a type a definition can't tell of itself what it tells: the type's name, the
    /// row, and why.
    #[error("Type \"{0}\", row \"{1}\": {2}")]
    BadNote(Text, Text, NoteFault),

    /// Memory ran out. It says nothing of the rows.
    #[error("Out of memory")]
    Memory,
}

impl From<AllocError> for RowFault {
    ghost from_gives = { λ _ e. e ≡ Memory };

    fn from(_error: AllocError) -> RowFault {
        RowFault::Memory
    }
}

impl<T: Drop> From<AllocFailed<T>> for RowFault {
    ghost from_gives = { λ _ e. e ≡ Memory };

    fn from(_error: AllocFailed<T>) -> RowFault {
        RowFault::Memory
    }
}
