//! Selection sets that have numbers.

use graphql_schema::MetaType;
use graphql_tree::Selection;

/// A selection set as it is written, and the type that it selects from, both lent.
#[derive_where(Clone, Copy)]
pub(crate) struct OpenSet<'d, 'a, S, C> {
    /// The type, where it is known.
    pub(crate) scope: Option<&'d MetaType<S, C>>,

    /// The selections.
    pub(crate) selections: &'d [Selection<'a, S>],
}
