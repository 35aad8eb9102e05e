//! Types of the program as types of a schema, values of the program as answers of fields, and the
//! registry in which the metadata of a schema's types are gathered (GraphQL October 2021, 3 Type
//! System).
#![tactic(auto)]

mod empty_operations;
mod graphql_type;
mod into_resolvable;
mod registry;

pub use empty_operations::{EmptyMutation, EmptySubscription};
pub use graphql_type::GraphQLType;
pub use into_resolvable::{AnswersByClones, IntoResolvable};
pub use registry::Registry;
