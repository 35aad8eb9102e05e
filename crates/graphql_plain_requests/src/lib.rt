//! The plain text of a request: one operation without named fragments, without what is left out,
//! without directives and without unused variables, for stores of allowed queries, and as a key of
//! caches (GraphQL October 2021, 2.3 Operations, 2.8 Fragments, 3.13 Directives). Plain texts are a
//! normal form: asked again they are their own plain texts, and requests whose texts have the same
//! tokens have one (2.1.7 Ignored Tokens, 6.1 Executing Requests).
#![tactic(auto)]

mod boolean;
pub mod laws;
mod plain_error;
mod request;

pub use boolean::boolean_takes_true;
pub use plain_error::PlainError;
pub use request::{Printed, operation_name_of, plain_of_chosen, plain_request};
