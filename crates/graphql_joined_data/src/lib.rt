//! The join of the data of two answers, as gateways need it that send parts of a selection set to
//! several services (GraphQL October 2021, 6.4.3 Value Completion, MergeSelectionSets).
#![tactic(auto)]

mod join_fault;
mod joining;
pub mod laws;

pub use join_fault::JoinFault;
pub use joining::join_data;
