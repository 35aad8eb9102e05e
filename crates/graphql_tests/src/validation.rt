//! Tests of metadata, checks, schemas and contexts.
//!
//! They show what no run of a program says either.

mod boxed_checks;
mod checks;
mod directives;
mod examples;
mod executable;
mod lookups;
mod metadata;
mod pushed;
mod scalar_checks;
mod type_types;
