//! What merging and execution take from plain selection sets (GraphQL October 2021, 5.3.2 Field
//! Selection Merging, 6.3 Executing Selection Sets).
#![tactic(auto)]

pub mod laws;
