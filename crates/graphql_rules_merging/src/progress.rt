//! How far the comparing is.

use crate::agenda::Agenda;
use graphql_bundles::Conflict;
use graphql_text::Items;

/// What is told so far, and what was begun.
#[derive(Drop)]
pub(crate) struct Progress {
    /// The conflicts, in the order in which they were found.
    pub told: Items<Conflict>,

    /// The pairs of sets.
    pub agenda: Agenda,

    /// How many times two fields were compared.
    pub comparisons: u128,
}
