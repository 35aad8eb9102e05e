//! Laws where their premises are met: small functions that call a law with a premise and draw its
//! conclusion at a value, of a sample or of what a call has given.
//!
//! A law whose premise nothing meets says nothing. The laws with a premise that no other crate
//! calls at a value are called here. Tests alone stand on this crate.
#![tactic(auto)]

pub mod documents;
pub mod failures;
pub mod literals;
pub mod parsers;
pub mod rules;
pub mod scalars;
pub mod schemas;
pub mod tokens;
pub mod values;
pub mod visitors;
