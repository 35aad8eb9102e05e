//! Tests of the layers below execution: of the base (`base`), the language (`language`), validation
//! (`validation`) and the registry (`registry`).
//!
//! They show what no contract says: printed texts, tables of rows, each call that takes memory once
//! on its happy path, generic code at a concrete type. They stand apart from the crates that they
//! test, as a crate with tests of its own is proved twice, and in one crate, as each crate of tests
//! costs something before its first function.
//!
//! They stand in a program that does nothing, since what a library stands on is read by the gate
//! along every way that leads there.
#![tactic(auto)]

#[cfg(test)]
mod base;
#[cfg(test)]
mod language;
pub mod registry;
#[cfg(test)]
mod told;
#[cfg(test)]
mod validation;

fn main() {}
