//! Why there is nothing to run.

use graphql_schema::SchemaError;
use graphql_service::ServiceFault;
use std::alloc::{AllocError, AllocFailed};

/// Why there is nothing to run.
#[derive(Clone, Copy, Debug, PartialEq, Eq)]
pub enum Unmade {
    /// Memory ran out.
    Memory,

    /// Memory ran out while requests were spent before the run.
    Unspent,

    /// The schema or the service is refused, or no run has the name that is asked for.
    Refused,
}

impl From<AllocError> for Unmade {
    fn from(_error: AllocError) -> Unmade {
        Unmade::Memory
    }
}

impl<T: Drop> From<AllocFailed<T>> for Unmade {
    fn from(_error: AllocFailed<T>) -> Unmade {
        Unmade::Memory
    }
}

impl From<SchemaError> for Unmade {
    fn from(error: SchemaError) -> Unmade {
        match error {
            SchemaError::Memory => Unmade::Memory,
            _ => Unmade::Refused,
        }
    }
}

impl From<ServiceFault> for Unmade {
    fn from(fault: ServiceFault) -> Unmade {
        match fault {
            ServiceFault::Memory => Unmade::Memory,
            _ => Unmade::Refused,
        }
    }
}
