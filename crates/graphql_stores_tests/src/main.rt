//! Callers of laws and contracts of stores of allowed queries, of caches of answers and of joined
//! data.
//!
//! They stand in a program that does nothing, since what a library stands on is read by the gate
//! along every way that leads there.
#![tactic(auto)]

pub mod cached;
pub mod joined;
pub mod spelled;
pub mod stored;

fn main() {}
