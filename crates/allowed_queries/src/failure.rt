//! Why the program ended before the end of its input.

ghost use Rattle.std.specs.Prelude.{◌≡◌};
ghost use Rattle.allowed_queries.specs.Placed.{TellsPlaced};
ghost use Rattle.allowed_queries.specs.Status.{status_of};

use graphql_file_service::{PlacedFault, RunFault};
use graphql_stores::AllowedFault;
use std::alloc::{AllocError, Global};
use std::error::Error;
use std::{fmt, io};

/// Why the program ended before the end of its input.
#[derive(Debug, Drop)]
pub enum Failure {
    /// The arguments are not those of the program.
    Usage,
    /// The file at this path can't be read.
    CannotRead(String),
    /// The file of allowed queries has none.
    Allowed(AllowedFault),
    /// The files are not served, or not to the end of the input; and where in them that stands.
    Run(PlacedFault),
    /// Memory ran out.
    Memory,
}

/// Why the program ends that met this error, if it is not for want of memory.
pub(crate) fn unless_memory(error: io::Error, otherwise: Failure) -> Failure {
    if error.kind() == io::ErrorKind::OutOfMemory {
        Failure::Memory
    } else {
        otherwise
    }
}

/// Why the program ends that met this fault of a run over the files of a schema and of its records:
/// with where in them it stands, as `PlacedFault::of` tells.
pub(crate) fn failure_of(alloc: Global, schema: &[u8], records: &[u8], fault: RunFault) -> Failure
    ensures { TellsPlaced schema.now records.now fault result }
{
    Failure::Run(PlacedFault::of(alloc, schema, records, fault))
}

impl Failure {
    /// The exit status.
    pub fn status(&self) -> u8
        ensures { result ≡ status_of self.now }
    {
        match self {
            Failure::CannotRead(_) => 1,
            Failure::Usage => 2,
            Failure::Allowed(AllowedFault::Line(_)) => 1,
            Failure::Allowed(AllowedFault::Memory) => 4,
            Failure::Run(placed) => placed.fault.status(),
            Failure::Memory => 4,
        }
    }
}

/// Writes why, in one line; and in a second one where in the files, if that is known.
impl fmt::Display for Failure {
    fn fmt<W: fmt::Write>(&self, f: &mut fmt::Formatter<W>) -> fmt::Result {
        match self {
            Failure::Usage => f.write_str("usage: allowed_queries SCHEMA DATA ALLOWED"),
            Failure::CannotRead(path) => write!(f, "cannot read {path}"),
            Failure::Allowed(AllowedFault::Line(number)) => {
                write!(f, "allowed: line {number} tells no plain text")
            }
            Failure::Run(placed) => write!(f, "{placed}"),
            Failure::Allowed(AllowedFault::Memory) | Failure::Memory => f.write_str(
                "out of memory",
            ),
        }
    }
}

impl Error for Failure {}

impl From<AllowedFault> for Failure {
    ghost use Rattle.allowed_queries.specs.declared.failure.Failure.TheVariants.{Allowed};

    ghost from_gives = { λ fault failure. failure ≡ Allowed fault };

    fn from(fault: AllowedFault) -> Failure {
        Failure::Allowed(fault)
    }
}

impl From<AllocError> for Failure {
    ghost use Rattle.allowed_queries.specs.declared.failure.Failure.TheVariants.{Memory};

    ghost from_gives = { λ _ failure. failure ≡ Memory };

    fn from(_error: AllocError) -> Failure {
        Failure::Memory
    }
}
