//! How values are read, and what is made of them: arguments, directives, variables and their type
//! references (GraphQL October 2021, 2.6, 2.9 to 2.12).
//!
//! A function for each production reads it from the tokens ahead of a cursor. What tokens spell
//! which tree is said by the relations in `specs/Values.antt`, `specs/Types.antt` and
//! `specs/Directives.antt`, what is read by the definitions in the files `specs/Read*.antt`; the
//! laws in `proofs/` say that these agree.
#![tactic(auto)]

pub mod directive;
mod nested;
pub mod type_reference;
pub mod value;
pub mod variable;
