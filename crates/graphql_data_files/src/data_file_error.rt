//! Why a file has no records.

ghost use Rattle.std.specs.Prelude.{◌≡◌};
ghost use Rattle.graphql_data_files.specs.declared.data_file_error.DataFileError.TheVariants.{Memory};

use std::alloc::{AllocError, AllocFailed};

/// Why a file has no records. The first that stands is told, in this order.
#[derive(Clone, Copy, Debug, PartialEq, Eq)]
pub enum DataFileError {
    /// It is not UTF-8, or no JSON that `serde_json` reads.
    NotJson,

    /// A member is missing that has to be there, or is of another kind.
    BadShape,

    /// A number in a field is not whole, or does not fit 32 bits.
    BadNumber,

    /// Two records have one id.
    DuplicateId,

    /// A record's type is no object type of the schema (GraphQL October 2021, 3.6 Objects).
    UnknownType,

    /// A record has a field that its type lacks.
    UnknownField,

    /// A text at a field of a composite type is the id of no record.
    BadLink,

    /// There is no record of the query type under the root's id.
    BadRoot,

    /// Memory ran out, which tells nothing of the file.
    Memory,
}

impl From<AllocError> for DataFileError {
    ghost from_gives = { λ _ e. e ≡ Memory };

    fn from(_error: AllocError) -> DataFileError {
        DataFileError::Memory
    }
}

impl<T: Drop> From<AllocFailed<T>> for DataFileError {
    ghost from_gives = { λ _ e. e ≡ Memory };

    fn from(_error: AllocFailed<T>) -> DataFileError {
        DataFileError::Memory
    }
}
