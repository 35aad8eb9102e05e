//! The selection sets of a document by numbers, a fragment's once (GraphQL October 2021, 2.4
//! Selection Sets, 2.8 Fragments): what the rule that fields merge goes through.
#![tactic(auto)]

mod open_set;
mod reading;
mod scopes;
mod table;

pub use table::{let_go, numbered_sets};
