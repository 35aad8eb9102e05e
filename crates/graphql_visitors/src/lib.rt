//! Visitors of a document, and what they report: the errors of rules (GraphQL October 2021, 5
//! Validation).
#![tactic(auto)]

mod context;
pub mod laws;
mod multi;
mod pushed;
mod rules;
mod visitor;

pub use context::ValidatorContext;
pub use multi::{MultiVisitorCons, MultiVisitorNil};
pub use rules::{Local, LocalRule, Relational, RelationalRule};
pub use visitor::Visitor;
