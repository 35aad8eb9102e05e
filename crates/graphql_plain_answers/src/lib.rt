//! What a request and its plain operation are answered (GraphQL October 2021, 6.2 Executing
//! Operations, 6.3 Executing Selection Sets).
#![tactic(auto)]

pub mod laws;
