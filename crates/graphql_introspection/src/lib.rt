//! What a schema tells of itself (GraphQL October 2021, 4 Introspection): its parts, what each part
//! answers for a field, and the metadata of the types of introspection.
#![tactic(auto)]

mod answers;
mod directive_answers;
mod given;
mod leaves;
mod lent;
mod member_answers;
mod metadata;
mod names;
mod nodes;
mod part;
mod rows;
mod schema_answers;
mod told;
mod type_answers;

pub use answers::{answer_of, part_type_name, type_asked};
pub use lent::{Lent, LentWraps};
pub use metadata::{introspection_metadata, type_reference};
pub use names::{kind_name, location_name};
pub use nodes::SchemaAnswer;
pub use part::{PartKind, SchemaPart};
