//! The rule that fields merge (GraphQL October 2021, 5.3.2 Field Selection Merging): bundles of
//! selection sets decide it, and where there are too many of them which pairs of sets are compared.
#![tactic(auto)]

mod agenda;
mod alone;
mod begin;
mod classes;
mod field_numbers;
mod fields;
mod finish;
pub mod laws;
mod numbers;
mod order;
pub mod overlapping_fields_can_be_merged;
mod progress;
mod queue;
mod sets;

pub use overlapping_fields_can_be_merged::OverlappingFieldsCanBeMerged;
