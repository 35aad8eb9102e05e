//! Selection sets that a walk is in.

ghost use Rattle.std.specs.Prelude.{◌≤◌, length};

use graphql_tree::Selection;

/// A selection set that a walk is in, lent, and how far the walk is.
#[derive(Drop)]
pub(crate) struct OpenSet<'d, 'a, S> {
    /// The selections of the set.
    pub(crate) among: &'d [Selection<'a, S>],

    /// The place of the next one among them, from zero: at the end of the set their number.
    pub(crate) next: usize,

    ghost inside: { next ≤ length among.now },
}
