//! The file that has a schema: JSON that declares objects, interfaces and unions, with the names of
//! the roots; or the first fault of such a file. Drafts are what stands in the JSON, the texts of
//! names, types and defaults among it; the metadata of the types that they describe are made once
//! these texts are read.
#![tactic(auto)]

mod builtin;
mod declaration_place;
mod drafts;
pub mod laws;
mod metadata;
mod misshapen;
mod named;
mod outlines;
mod places;
mod reading;
mod rule;
mod schema_file_error;
mod shape_text;
mod shapes;
mod texts;
mod typed;
mod unfit;
mod wanted;

pub use declaration_place::{DeclarationPlace, FieldPlace};
pub use drafts::{ArgumentDraft, DraftKind, FieldDraft, SchemaDraft, TypeDraft};
pub use metadata::add_types;
pub use misshapen::shape_fault;
pub use named::are_named;
pub use outlines::{Outline, outline};
pub use places::place_of_fault;
pub use reading::SchemaFile;
pub use schema_file_error::SchemaFileError;
pub use shapes::schema_of;
pub use texts::{literal_of_text, type_of_text};
pub use typed::have_types;
pub use wanted::{Member, ShapeFault, Wanted};
