//! Look-ahead: what a resolver of the tests' own sees below the field that it is asked for.

#[cfg(test)]
mod asked;
pub mod look;
#[cfg(test)]
mod rows;
#[cfg(test)]
mod schema;
pub mod watcher;
