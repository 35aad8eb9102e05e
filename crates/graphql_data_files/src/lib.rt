//! The file that has records: JSON that gives each record's id, its type and its fields. Or the
//! first fault of such a file.
#![tactic(auto)]

mod data_file_error;
mod drafts;
pub mod laws;
mod links;
mod misshapen;
mod places;
mod reading;
mod record_place;
mod records;
mod shape_place;
mod values;

pub use data_file_error::DataFileError;
pub use places::place_of_fault;
pub use reading::read_records;
pub use record_place::RecordPlace;
pub use shape_place::ShapePlace;
