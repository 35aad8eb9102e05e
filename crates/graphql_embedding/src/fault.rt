//! Why a schema in rows is not served.

ghost use Rattle.std.specs.Prelude.{◌≡◌};
ghost use Rattle.graphql_embedding.specs.declared.fault.ServeRowsFault.TheVariants.{
  Memory,
  Row,
  Schema,
  Serve,
  Service,
};

use graphql_schema::SchemaError;
use graphql_schema_rows::RowFault;
use graphql_service::{ServeError, ServiceFault};
use graphql_text::Text;
use std::alloc::{AllocError, AllocFailed};
use thiserror::Error;

/// Why a schema in rows is not served, or was served no longer.
#[derive(Debug, Drop, Error)]
pub enum ServeRowsFault {
    /// A row makes no type; or memory ran out while rows were read.
    #[error("{0}")]
    Row(RowFault),

    /// The types make no schema; or memory ran out while it was made.
    #[error("{0}")]
    Schema(SchemaError),

    /// In the type of this name a default does not conform to the type of its argument or input
    /// field.
    #[error("Type \"{0}\": a default does not conform to its type")]
    BadDefault(Text),

    /// The schema makes no service; or memory ran out while its `Boolean` was asked.
    #[error("{0}")]
    Service(ServiceFault),

    /// A line could not be read, answered or written.
    #[error("{0}")]
    Serve(ServeError),

    /// Memory ran out before a line was read.
    #[error("out of memory")]
    Memory,
}

impl From<AllocError> for ServeRowsFault {
    ghost from_gives = { λ _ fault. fault ≡ Memory };

    fn from(_error: AllocError) -> ServeRowsFault {
        ServeRowsFault::Memory
    }
}

impl<T: Drop> From<AllocFailed<T>> for ServeRowsFault {
    ghost from_gives = { λ _ fault. fault ≡ Memory };

    fn from(_error: AllocFailed<T>) -> ServeRowsFault {
        ServeRowsFault::Memory
    }
}

impl From<RowFault> for ServeRowsFault {
    ghost from_gives = { λ told fault. fault ≡ Row told };

    fn from(told: RowFault) -> ServeRowsFault {
        ServeRowsFault::Row(told)
    }
}

impl From<SchemaError> for ServeRowsFault {
    ghost from_gives = { λ told fault. fault ≡ Schema told };

    fn from(told: SchemaError) -> ServeRowsFault {
        ServeRowsFault::Schema(told)
    }
}

impl From<ServiceFault> for ServeRowsFault {
    ghost from_gives = { λ told fault. fault ≡ Service told };

    fn from(told: ServiceFault) -> ServeRowsFault {
        ServeRowsFault::Service(told)
    }
}

impl From<ServeError> for ServeRowsFault {
    ghost from_gives = { λ told fault. fault ≡ Serve told };

    fn from(told: ServeError) -> ServeRowsFault {
        ServeRowsFault::Serve(told)
    }
}
