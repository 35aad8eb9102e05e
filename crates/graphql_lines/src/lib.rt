//! Request lines: what a client sends (GraphQL October 2021, 7.2 Serialization Format; RFC 8259).
#![tactic(auto)]

pub mod laws;
mod refusal;
mod request;
mod variables;

pub use refusal::LineRefusal;
pub use request::{GraphQLRequest, json_of_line, request_from_line, request_in};
pub use variables::{variables_from_json, variables_of_json, whole};
