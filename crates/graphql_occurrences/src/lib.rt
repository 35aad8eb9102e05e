//! The parts of a document of which the rules of validation speak, its occurrences, each with what
//! the schema declares there of fields, arguments and operations; and the events of a walk over a
//! document, which tell them (GraphQL October 2021, 2 Language, 3 Type System, 5 Validation).
#![tactic(auto)]

mod arguments;
mod around;
mod event;
mod fields;
pub mod laws;
mod literal;
mod place;
mod roots;

pub use arguments::{DeclaredArguments, declared_by_directive};
pub use around::Around;
pub use event::{Event, Node, Owner, Seen};
pub use fields::{KnownField, arguments_of_field, field_of, type_of_field};
pub use graphql_schema::SchemaType;
pub use literal::TypeLiteral;
pub use place::{InputPlace, place_of_argument, place_of_field, place_of_items};
pub use roots::root_of;
