//! How one child of a list of selections is found.

use crate::open::Open;
use graphql_text::TextRef;

mod steps;

pub(crate) use steps::find_first;

/// What is left to be done by a search.
#[derive(Drop)]
pub(crate) enum Task<'d, 'a, S> {
    /// To search a list.
    Search(Open<'d, 'a, S>),

    /// To know of the fragment of this name, which was searched, that it has no such child.
    Searched(TextRef<'a>),
}
