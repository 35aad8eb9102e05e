//! Lists of selections that are gone through.

ghost use Rattle.std.specs.Prelude.{◌≤◌, length};

mod next;

use crate::applies::Applies;
use graphql_text::Spanning;
use graphql_tree::{Field, Fragment, FragmentSpread, InlineFragment, Selection};

/// A list of selections that is gone through, and to what it is bound.
#[derive(Drop)]
pub(crate) struct Open<'d, 'a, S> {
    /// The selections of the list.
    pub(crate) among: &'d [Selection<'a, S>],

    /// The place of the next one among them, from zero: at the end of the list their number.
    pub(crate) next: usize,

    /// To what the list is bound.
    pub(crate) applies: Applies<'d>,

    ghost inside: { next ≤ length among.now },
}

/// A selection that can have children.
#[derive(Drop)]
pub(crate) enum Met<'d, 'a, S> {
    /// A field.
    Field(&'d Spanning<Field<'a, S>>),

    /// A spread, and the fragment that it means.
    Spread(&'d Spanning<FragmentSpread<'a, S>>, &'d Fragment<'a, S>),

    /// An inline fragment.
    Inline(&'d Spanning<InlineFragment<'a, S>>),
}
