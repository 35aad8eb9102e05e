//! A walk over a document, event by event, with the types around each: what is entered and left,
//! from the document itself to each value (GraphQL October 2021, 2 Language, 5 Validation);
//! and [`visit`], by which a visitor steps over a document.
#![tactic(auto)]

mod one_pass;
mod walk;

pub use one_pass::visit;
pub use walk::Walk;
