//! Fields that merge (GraphQL October 2021, 5.3.2 Field Selection Merging): the definition, its
//! laws, what two fields of one response key have to have alike, and what an execution takes from
//! selection sets that merge (6.3.2 Field Collection).
#![tactic(auto)]

mod arguments;
mod declarations;
mod difference;
pub mod laws;
mod selected;
mod table;
mod wraps;

pub use difference::{Difference, first_difference, is_excused};
pub use selected::SelectedField;
pub use table::{SetTable, WrittenField, WrittenSet};
