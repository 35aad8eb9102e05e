//! What two parts of a selection set give together: the join of what each gives alone (GraphQL
//! October 2021, 5.3.2 Field Selection Merging, 6.3 Executing Selection Sets, 6.4.3 Value
//! Completion, MergeSelectionSets).
#![tactic(auto)]

pub mod laws;
