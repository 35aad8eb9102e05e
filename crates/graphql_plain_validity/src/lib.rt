//! Plain documents of valid documents are valid, and so are the texts of plain operations (GraphQL
//! October 2021, 5 Validation): rule by rule, and since the selection sets of a valid document have
//! selections also once its fragments are written out (2.4 Selection Sets, 2.8 Fragments).
#![tactic(auto)]

pub mod laws;
pub mod merging;
pub mod parts;
pub mod rules;
pub mod variables;
