//! Mutations: resolvers that change their context, and the fields of a mutation's root, answered
//! one after the other (GraphQL October 2021, 6.2.2 Mutation, 6.3.1 Normal and Serial Execution).
#![tactic(auto)]

mod asking;
mod groups;
pub mod laws;
mod mutation_value;
mod root_fields;
mod serially;
mod without_mutations;

pub use graphql_execution_walk::{Executor, GraphQLValue};
pub use mutation_value::GraphQLMutationValue;
pub use serially::answer_serially;
pub use without_mutations::WithoutMutations;
