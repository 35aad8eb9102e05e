//! A schema in rows of text: each type by its name and a row for each field, argument or value, as
//! a user writes them (GraphQL October 2021, 3.4 Types): `friends(first: Int = 10): [Human!]!`. A
//! description may stand before each, and `@deprecated` behind a field or a value (3.2
//! Descriptions, 3.13.3 @deprecated). Which tokens spell which definition is said by the relations
//! in `specs/Definitions.antt`, in the words of the standard's grammar (3.6 Objects, 3.6.1 Field
//! Arguments, 3.9 Enums, 3.10 Input Objects), and what a definition tells of itself in
//! `specs/Notes.antt`.
#![tactic(auto)]

mod definitions;
mod head;
mod items;
mod note_fault;
mod notes;
mod row_fault;
mod rows;
mod standard_types;
mod texts;
mod told;
mod type_row;
mod types;
mod written;

pub use head::Head;
pub use note_fault::NoteFault;
pub use row_fault::RowFault;
pub use standard_types::built_ins;
pub use texts::{argument_of_text, field_of_text, head_of_text, value_of_text};
pub use type_row::{CheckedRow, TypeRow, names_of_rows, type_of_row, types_of_rows};
pub use types::{enumeration, input_object, interface, object, one_of, union_type};
pub use written::{ArgumentDefinition, FieldDefinition, HeadDefinition, ValueDefinition};
