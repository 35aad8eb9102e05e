//! The syntax trees of GraphQL documents, which borrow the names of the text that they were read
//! from.
//!
//! Two trees that differ in places alone are one by `specs/Unlocated.antt`.
#![tactic(auto)]

mod directive;
mod document;
mod selection;
mod variable;

pub use directive::{Arguments, Directive, arguments_in};
pub use document::{Definition, Fragment, Operation, OperationType, OwnedDocument};
pub use selection::{Field, FragmentSpread, InlineFragment, Selection};
pub use variable::{VariableDefinition, VariableDefinitions};
