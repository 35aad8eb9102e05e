//! The rules for the definitions of a document: what operations and fragments may be named, and
//! what they use and spread (GraphQL October 2021, 5 Validation). A rule a module: its type, its
//! `factory`, which makes it as a visitor, and a function of its name, which adds its errors to a
//! list.
//!
//! Scopes are what these rules speak of: what each operation and fragment of a document holds, and
//! which fragments it reaches (2.3 Operations, 2.8 Fragments, 2.10 Variables). They are gathered
//! once for all rules.
#![tactic(auto)]

mod all_rules;
mod component_walk;
mod components;
mod document_rule;
mod first_variables;
mod fragment_index;
mod gathering;
pub mod laws;
pub mod lone_anonymous_operation;
mod names;
pub mod no_fragment_cycles;
pub mod no_undefined_variables;
pub mod no_unused_fragments;
pub mod no_unused_variables;
mod once;
mod open_fragments;
mod reached_fragments;
mod reached_uses;
mod scopes;
pub mod settled;
pub mod unique_fragment_names;
pub mod unique_operation_names;
pub mod unique_variable_names;
pub mod variables_in_allowed_position;

pub use all_rules::{document_errors, scope_errors};
pub use components::FragmentComponents;
pub use document_rule::DocumentRule;
pub use fragment_index::FragmentIndex;
pub use gathering::Gathering;
pub use lone_anonymous_operation::LoneAnonymousOperation;
pub use no_fragment_cycles::NoFragmentCycles;
pub use no_undefined_variables::NoUndefinedVariables;
pub use no_unused_fragments::NoUnusedFragments;
pub use no_unused_variables::NoUnusedVariables;
pub use once::Once;
pub use reached_fragments::ReachedFragments;
pub use scopes::{FragmentScope, OperationScope, Scopes, Spread, Use, scopes_of};
pub use unique_fragment_names::UniqueFragmentNames;
pub use unique_operation_names::UniqueOperationNames;
pub use unique_variable_names::UniqueVariableNames;
pub use variables_in_allowed_position::VariablesInAllowedPosition;
