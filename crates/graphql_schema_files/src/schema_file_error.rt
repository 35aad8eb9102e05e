//! Why a file has no schema.

ghost use Rattle.std.specs.Prelude.{◌≡◌};
ghost use Rattle.graphql_schema_files.specs.Refusals.{refusal_of};
ghost use Rattle.graphql_schema_files.specs.declared.schema_file_error.SchemaFileError.TheVariants.{Memory};

use crate::declaration_place::DeclarationPlace;
use graphql_schema::SchemaError;
use std::alloc::{AllocError, AllocFailed};
use std::fmt;

/// Why a file has no schema. The first that stands is told, in this order.
#[derive(Debug, Drop)]
pub enum SchemaFileError {
    /// It is not UTF-8, or no JSON that `serde_json` reads.
    NotJson,

    /// A member is missing that has to be there, or is of another kind.
    BadShape,

    /// A type, a field or an argument has a name that is none (GraphQL October 2021, 2.1.9 Names).
    BadName,

    /// The type of a field or an argument is no type reference (2.11 Type References).
    BadTypeText,

    /// A default is no constant literal (2.9 Input Values).
    BadDefault,

    /// The types make no schema. It is never `SchemaError::Memory`.
    Schema(SchemaError),

    /// A default does not conform to its argument's type (5.6.1 Values of Correct Type): the first,
    /// which stands here.
    UnfitDefault(DeclarationPlace),

    /// Memory ran out, which tells nothing of the file.
    Memory,
}

impl From<AllocError> for SchemaFileError {
    ghost from_gives = { λ _ e. e ≡ Memory };

    fn from(_error: AllocError) -> SchemaFileError {
        SchemaFileError::Memory
    }
}

impl<T: Drop> From<AllocFailed<T>> for SchemaFileError {
    ghost from_gives = { λ _ e. e ≡ Memory };

    fn from(_error: AllocFailed<T>) -> SchemaFileError {
        SchemaFileError::Memory
    }
}

/// A fault of the schema, or want of memory.
impl From<SchemaError> for SchemaFileError {
    ghost from_gives = { λ fault e. e ≡ refusal_of fault };

    fn from(fault: SchemaError) -> SchemaFileError {
        match fault {
            SchemaError::Memory => SchemaFileError::Memory,
            other => SchemaFileError::Schema(other),
        }
    }
}

/// Writes the fault in one word, which of both faults of a default is `BadDefault`; behind `Schema`
/// stands the fault of the types.
impl fmt::Display for SchemaFileError {
    fn fmt<W: fmt::Write>(&self, f: &mut fmt::Formatter<W>) -> fmt::Result {
        match self {
            SchemaFileError::NotJson => f.write_str("NotJson"),
            SchemaFileError::BadShape => f.write_str("BadShape"),
            SchemaFileError::BadName => f.write_str("BadName"),
            SchemaFileError::BadTypeText => f.write_str("BadTypeText"),
            SchemaFileError::BadDefault | SchemaFileError::UnfitDefault(_) => f.write_str(
                "BadDefault",
            ),
            SchemaFileError::Schema(error) => write!(f, "Schema({error:?})"),
            SchemaFileError::Memory => f.write_str("Memory"),
        }
    }
}
