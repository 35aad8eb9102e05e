//! A resolver over a table of records: queries are answered from the records, and the fields of a
//! mutation's root set fields of them.
#![tactic(auto)]

mod resolver;
mod types;

pub use graphql_records::{FieldValue, Fields, Record, Records, TableField, TableNode, TableType};
pub use resolver::TableResolver;
pub use types::table_types;
