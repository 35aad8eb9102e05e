//! Resolvers, and the walk over a document that answers its selections with what they say (GraphQL
//! October 2021, 6.3 Executing Selection Sets, 6.4 Executing Fields).
#![tactic(auto)]

mod asked;
mod asking;
mod beginning;
mod completing;
mod context;
mod evaluating;
mod executor;
mod failing;
mod field_path;
mod fields;
mod frame_parts;
mod frames;
mod graphql_value;
mod groups;
mod parts;
mod prepared;
mod report;
mod selected;
mod selections;
mod shared;
mod stack;
mod steps;

pub use asked::{Asked, of_resolver, of_schema};
pub use asking::{arguments_of, told_of_itself};
pub use context::{Context, FromContext};
pub use evaluating::Evaluating;
pub use executor::Executor;
pub use field_path::FieldPath;
pub use fields::{declared_arguments, declared_type, query_root_name};
pub use graphql_look_ahead::Selected;
pub use graphql_value::GraphQLValue;
pub use parts::{is_required, or_null, shown};
pub use report::Report;
pub use selections::answer_selections;
