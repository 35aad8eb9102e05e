//! GraphQL over HTTP: which requests of HTTP ask for an answer, and what they are answered, over
//! an engine that answers request lines.
#![tactic(auto)]

mod accept;
mod answering;
mod content_type;
mod endpoint;
mod engine;
mod fields;
pub mod laws;
mod media;
mod page;
mod pieces;
mod query_line;
mod refusal;
mod route;
mod serving;
mod weights;

pub use endpoint::Endpoint;
pub use engine::RequestEngine;
pub use media::Media;
pub use query_line::{LineFault, line_of_query};
pub use refusal::HttpRefusal;
pub use route::{Route, route_of};
pub use serving::{config_of_limit, serve_http};
