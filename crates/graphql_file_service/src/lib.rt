//! A service over files: one that declares a schema, and one that has its records.
#![tactic(auto)]

mod data_file;
mod fault_place;
mod placed_fault;
mod places;
mod run_fault;
mod running;
pub mod sample;

pub use data_file::DataFile;
pub use fault_place::{FaultPlace, PromisePlace, TextPlace};
pub use graphql_data_files::{DataFileError, RecordPlace};
pub use graphql_schema::TypeCheck;
pub use graphql_schema_files::{DeclarationPlace, FieldPlace, SchemaFile, SchemaFileError};
pub use graphql_service as service;
pub use graphql_service::{
    ByteSink, ByteSource, IntrospectionChecks, Piped, ServeError, Service, StandardChecks,
    scalar_checks,
};
pub use graphql_table::{FieldValue, Fields, Record, Records, TableNode, TableResolver};
pub use placed_fault::PlacedFault;
pub use places::place_of_fault;
pub use run_fault::RunFault;
pub use running::{LINE_LIMIT, SELECTION_LIMIT, run_files};
