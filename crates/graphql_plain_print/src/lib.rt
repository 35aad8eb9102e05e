//! The plain text of an operation, printed while the document is walked: its fragments written out,
//! without what is left out, without directives and without variables that are no longer used, each
//! token in the spelling of the source (GraphQL October 2021, 2 Language).
#![tactic(auto)]

mod operation;
mod plan;
mod print_error;
mod printed;
mod printing;
mod variables;
mod words;
mod written;

pub use operation::print_operation;
pub use print_error::PrintError;
pub use printed::Printed;
