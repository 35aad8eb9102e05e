//! Bundles of selection sets: their fields are grouped by response key, and each is compared with
//! one of its class (GraphQL October 2021, 5.3.2 Field Selection Merging).
//!
//! The definitions, their laws, and going through all bundles, by which fields that do not merge
//! are told in time near the size of a document.
#![tactic(auto)]

mod bundle;
mod closed;
mod conflict;
mod definitions;
mod direct;
mod groups;
mod heads;
pub mod laws;
mod messages;
mod outcome;
mod parts;
mod pass;
mod stop;
mod telling;
mod visits;

pub use conflict::Conflict;
pub use heads::{is_declared, object_name};
pub use outcome::{Outcome, told_by_bundles};
pub use telling::{count_comparison, tell};
