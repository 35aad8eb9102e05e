//! Why files are not served, or not to the end of the input.

ghost use Rattle.std.specs.Prelude.{◌≡◌};
ghost use Rattle.graphql_file_service.specs.Programs.{status_of_fault};

use graphql_data_files::DataFileError;
use graphql_schema_files::SchemaFileError;
use graphql_service::ServeError;
use std::alloc::{AllocError, AllocFailed};
use std::error::Error;
use std::fmt;

/// Why files are not served, or not to the end of the input. The first that stands is told, in this
/// order.
#[derive(Debug, Drop)]
pub enum RunFault {
    /// The file of the schema has none.
    Schema(SchemaFileError),

    /// A type of the schema does not keep what it promises (GraphQL October 2021, 3.6 Objects: Type
    /// Validation).
    NotExecutable,

    /// The file of the records has none for the schema.
    Data(DataFileError),

    /// The check that is given for `Boolean` does not take `true` (GraphQL October 2021, 3.5.4
    /// Boolean).
    OtherBoolean,

    /// A read or a write failed while lines were answered, or memory ran out.
    Serve(ServeError),

    /// Memory ran out before the first line was read, which tells nothing of the files.
    Memory,
}

impl From<SchemaFileError> for RunFault {
    ghost use Rattle.graphql_file_service.specs.declared.run_fault.RunFault.TheVariants.{Schema};

    ghost from_gives = { λ error fault. fault ≡ Schema error };

    fn from(error: SchemaFileError) -> RunFault {
        RunFault::Schema(error)
    }
}

impl From<DataFileError> for RunFault {
    ghost use Rattle.graphql_file_service.specs.declared.run_fault.RunFault.TheVariants.{Data};

    ghost from_gives = { λ error fault. fault ≡ Data error };

    fn from(error: DataFileError) -> RunFault {
        RunFault::Data(error)
    }
}

impl From<ServeError> for RunFault {
    ghost use Rattle.graphql_file_service.specs.declared.run_fault.RunFault.TheVariants.{Serve};

    ghost from_gives = { λ error fault. fault ≡ Serve error };

    fn from(error: ServeError) -> RunFault {
        RunFault::Serve(error)
    }
}

impl From<AllocError> for RunFault {
    ghost use Rattle.graphql_file_service.specs.declared.run_fault.RunFault.TheVariants.{Memory};

    ghost from_gives = { λ _ fault. fault ≡ Memory };

    fn from(_error: AllocError) -> RunFault {
        RunFault::Memory
    }
}

impl<T: Drop> From<AllocFailed<T>> for RunFault {
    ghost use Rattle.graphql_file_service.specs.declared.run_fault.RunFault.TheVariants.{Memory};

    ghost from_gives = { λ _ fault. fault ≡ Memory };

    fn from(_error: AllocFailed<T>) -> RunFault {
        RunFault::Memory
    }
}

impl RunFault {
    /// The exit status of a program whose run ended so: 1 where a file is bad, 3 where a read or a
    /// write failed, 4 where memory ran out.
    pub fn status(&self) -> u8
        ensures { result ≡ status_of_fault self.now }
    {
        match self {
            RunFault::Schema(SchemaFileError::Memory)
            | RunFault::Data(DataFileError::Memory)
            | RunFault::Serve(ServeError::Memory)
            | RunFault::Memory => 4,
            RunFault::Schema(_)
            | RunFault::NotExecutable
            | RunFault::Data(_)
            | RunFault::OtherBoolean => 1,
            RunFault::Serve(_) => 3,
        }
    }
}

/// Writes why, in one line: the file and the name of its fault, or what failed.
impl fmt::Display for RunFault {
    fn fmt<W: fmt::Write>(&self, f: &mut fmt::Formatter<W>) -> fmt::Result {
        match self {
            RunFault::Schema(SchemaFileError::Memory)
            | RunFault::Data(DataFileError::Memory)
            | RunFault::Memory => f.write_str("out of memory"),
            RunFault::Schema(error) => write!(f, "schema: {error}"),
            RunFault::NotExecutable => f.write_str("schema: NotExecutable"),
            RunFault::Data(error) => write!(f, "data: {error:?}"),
            RunFault::OtherBoolean => f.write_str("schema: OtherBoolean"),
            RunFault::Serve(error) => write!(f, "{error}"),
        }
    }
}

impl Error for RunFault {}
