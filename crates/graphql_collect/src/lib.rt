//! The fields of selection sets that apply to an object type, by their response keys (GraphQL
//! October 2021, 6.3.2 Field Collection).
#![tactic(auto)]

mod collecting;
mod few;
mod grouping;
mod open_set;

pub use collecting::{fields_below, fields_of_set};
pub use few::Few;
pub use grouping::{Group, grouped};
