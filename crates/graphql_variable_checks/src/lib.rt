//! The values of a request's variables: whether an operation accepts them (GraphQL October 2021,
//! 6.1.2 Coercing Variable Values). What they are in the end is `FinalVariables` of
//! `graphql_written_out`.
#![tactic(auto)]

pub mod laws;
mod validate;

pub use validate::validate_input_values;
