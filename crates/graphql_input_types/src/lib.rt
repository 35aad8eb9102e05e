//! Types whose values are read from input values: what may be null, and identifiers.
#![tactic(auto)]

mod id;
pub mod laws;
mod nullable;

pub use id::ID;
pub use nullable::Nullable;
