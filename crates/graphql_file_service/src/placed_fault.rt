//! Why files are not served, and where in them that stands.

ghost use Rattle.graphql_file_service.specs.FaultPlaces.{IsPlaced};

use crate::fault_place::FaultPlace;
use crate::places::place_of_fault;
use crate::run_fault::RunFault;
use std::alloc::Global;
use std::error::Error;
use std::fmt;

/// Why files are not served, and where in them that stands.
#[derive(Debug, Drop)]
pub struct PlacedFault {
    /// Why they are not served.
    pub fault: RunFault,

    /// Where that stands, if it is known.
    pub place: Option<FaultPlace>,
}

impl PlacedFault {
    /// The fault of a run over the files of a schema and of its records, and where in them it
    /// stands, as [`place_of_fault`] tells. Where memory runs out meanwhile no place is told.
    pub fn of(alloc: Global, schema: &[u8], records: &[u8], fault: RunFault) -> PlacedFault
        ensures { IsPlaced schema.now records.now fault result }
    {
        match place_of_fault(alloc, schema, records, &fault) {
            Ok(place) => PlacedFault { fault, place },
            Err(_) => PlacedFault { fault, place: None },
        }
    }
}

/// Writes why, in one line, and behind it in a second one where, if that is known.
impl fmt::Display for PlacedFault {
    fn fmt<W: fmt::Write>(&self, f: &mut fmt::Formatter<W>) -> fmt::Result {
        match &self.place {
            Some(place) => write!(f, "{}\n{place}", self.fault),
            None => write!(f, "{}", self.fault),
        }
    }
}

impl Error for PlacedFault {}
