//! Tests of execution: what requests are answered over a resolver of the tests' own.

#[cfg(test)]
pub mod answered;
pub mod answered_alone;
pub mod beings;
mod completed;
#[cfg(test)]
mod costly;
pub mod counter;
mod kennel;
pub mod look_ahead;
#[cfg(test)]
mod rows;
#[cfg(test)]
pub mod schemas;
mod told;
