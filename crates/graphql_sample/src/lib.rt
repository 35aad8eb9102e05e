//! A sample: a few records, a resolver over them with a mutation, and a schema (GraphQL October
//! 2021, 3.3 Schema, 6.2.2 Mutation, 6.4.2 Value Resolution).
#![tactic(auto)]

mod given;
mod records;
mod renaming;
mod resolver;
mod schema;

pub use records::{SampleRecord, SampleRecords, sample_records};
pub use resolver::{SampleNode, SampleResolver};
pub use schema::{schema_by, schema_s};
