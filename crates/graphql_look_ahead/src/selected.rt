//! Selections that are lent.

use graphql_collected::CollectedField;
use graphql_tree::Selection;

/// What is selected from the objects of an answer (GraphQL October 2021, 6.4.3 Value Completion,
/// Merging Selection Sets), lent.
#[derive_where(Clone, Copy)]
pub enum Selected<'p, 'd, 'a, S> {
    /// The selections of a set.
    Set(&'d [Selection<'a, S>]),

    /// Those of the sets of these fields together.
    Below(&'p [CollectedField<'d, 'a, S>]),
}
