//! What the selections of a request stand on: the schema, fragments and variables, what directives
//! leave out, and fields where they apply (GraphQL October 2021, 6.3.2 Field Collection).
#![tactic(auto)]

mod collected_field;
mod leaving_out;
mod request;

pub use collected_field::CollectedField;
pub use leaving_out::drops;
pub use request::Request;
