//! Tests of the registry, of types of the program as types of a schema, and of values of the
//! program as answers of fields.
//!
//! `rows` has the worked rows, as functions whose contracts are the rows. The tests run each public
//! call of the registry once at a concrete type.

#[cfg(test)]
mod answers;
#[cfg(test)]
mod metadata;
#[cfg(test)]
mod references;
pub mod rows;
