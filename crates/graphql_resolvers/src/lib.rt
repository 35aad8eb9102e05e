//! What a user's resolver names: the traits, which owe no law ([`Resolver`], [`MutationResolver`]);
//! what is given to arguments, asked for by a name and a kind ([`Given`]); and what fields are
//! answered, in short ([`text`], [`node`], [`each`], [`nodes_where`] and their kin), or why they
//! have no answer ([`fails`], [`fails_with`]) (GraphQL October 2021, 6.4 Executing Fields).
#![tactic(auto)]

mod answer;
mod answers;
mod asks;
mod failure;
mod given;
pub mod laws;
mod leaf_lists;
mod leaves;
mod lists;
mod mutation_resolver;
mod needs;
mod queries_only;
mod refusals;
mod resolver;

pub use answer::{Answer, Reply, into_field_result};
pub use answers::{
    boolean, each, fails, fails_with, int, node, node_or_null, nodes, null, text, text_or_null,
    texts,
};
pub use asks::Asked;
pub use failure::Failure;
pub use given::Given;
pub use graphql_text::Text;
pub use leaves::is_among;
pub use lists::{first, nodes_where, skip};
pub use mutation_resolver::MutationResolver;
pub use queries_only::QueriesOnly;
pub use resolver::Resolver;
