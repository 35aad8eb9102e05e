//! Tests of execution (`executor`) and of the service layer (`service`).
//!
//! They stand in a program that does nothing, since what a library stands on is read by the gate
//! along every way that leads there.
#![tactic(auto)]

pub mod executor;
pub mod service;

fn main() {}
