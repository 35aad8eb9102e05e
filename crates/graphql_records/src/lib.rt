//! A table of records that lead to each other by their ids: what a record's fields answer, and what
//! the fields of a mutation's root set in records.
#![tactic(auto)]

mod asked;
mod field_value;
pub mod laws;
mod lookups;
mod mutating;
mod node_answers;
mod record;
mod records;
mod setting;
mod table_node;
mod table_type;
mod value_answers;

pub use field_value::FieldValue;
pub use lookups::{is_possible, known_field};
pub use mutating::set_asked;
pub use node_answers::{node_answer, type_of};
pub use record::{Fields, Record};
pub use records::Records;
pub use table_node::TableNode;
pub use table_type::{TableField, TableType};
pub use value_answers::Answer;
