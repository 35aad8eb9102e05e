//! What requests are answered, as JSON (GraphQL October 2021, 7 Response).
#![tactic(auto)]

pub mod laws;
mod places;
mod plain;
mod refusals;
mod responses;

pub use plain::plain_to_json;
pub use refusals::{errors_to_json, refusal_to_json};
pub use responses::response_to_json;
