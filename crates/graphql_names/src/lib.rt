//! The names of GraphQL, items that are found by their names, and references to types by name
//! (GraphQL October 2021, 2.1.9 Names, 2.11 Type References).
#![tactic(auto)]

pub mod laws;
mod name;
mod name_map;
mod named;
mod named_items;
mod repeated;
mod type_modifier;
mod type_reference;

pub use name::{Name, NameParseError};
pub use name_map::{NameMap, NameMapError};
pub use named::Named;
pub use named_items::{NamedItems, same_name};
pub use repeated::repeated_name;
pub use type_modifier::{TypeModifier, TypeModifiers};
pub use type_reference::{BorrowedType, Type};
