//! JSON texts: what is written of values, and texts and lists under the keys of objects that are
//! read (GraphQL October 2021, 7.2 Serialization Format; RFC 8259).
#![tactic(auto)]

pub mod laws;
mod parts;
mod to_json;

pub use parts::{list_at, text_at, text_if, texts_at, texts_if};
pub use to_json::{text_to_json, value_to_json};
