//! Letting the selections within a selection go, one by one.
//!
//! What is left is always one selection, so that neither a stack nor a list is needed for what is
//! still to go. The last of its selection set is taken out, and the others are put into that one,
//! in the place of a selection that has none within it, which goes. Those gone through on the way
//! there stand first in one another from then on, and only one behind the first is gone through. So
//! each selection is gone through once.

ghost use Rattle.std.specs.Prelude.{◌≡◌, ◌+◌, MatchOption};
ghost use Rattle.graphql_tree.specs.Counts.{selection_count, set_count};

use super::{InlineFragment, Selection};
use graphql_text::{Items, Spanning};
use std::mem;

impl<'a, S: Drop> Selection<'a, S> {
    /// Lets one of the selections go that stand in this one, itself among them, and gives the
    /// others as one selection; `None` where there is no other. Takes no memory.
    pub(super) fn let_one_go(self) -> Option<Selection<'a, S>>
        ensures { MatchOption result (selection_count self.entry ≡ 1)
            (λ others. selection_count self.entry ≡ selection_count others + 1) }
    {
        let Some(mut set) = self.into_set() else {
            return None;
        };
        match set.pop() {
            Some(last) => Some(last.inside_out(set)),
            None => {
                set.into_vec().destroy_empty();
                None
            }
        }
    }

    /// The selections of the selection's set, if it has one. The rest of it is let go.
    fn into_set(self) -> Option<Items<Selection<'a, S>>>
        ensures { MatchOption result (selection_count self.entry ≡ 1)
            (λ set. selection_count self.entry ≡ 1 + set_count set) }
    {
        match self {
            Selection::Field(field) => {
                let Spanning { item, .. } = field;
                item.selection_set
            }
            Selection::FragmentSpread(_) => None,
            Selection::InlineFragment(inline) => {
                let Spanning { item, .. } = inline;
                Some(item.selection_set)
            }
        }
    }

    /// Lets the selection go that is met first without others within it, from this one down by the
    /// first of each set, and gives the others and `rest` as one selection: those of the set that
    /// held it come outermost, and each set on the way there holds in its first place what was
    /// around it; that of this selection holds `rest`. Where there is no `rest`, the selection as
    /// it is. Takes no memory.
    fn inside_out(mut self, rest: Items<Selection<'a, S>>) -> Selection<'a, S>
        ensures { selection_count result ≡ selection_count self.entry + set_count rest.entry }
    {
        if rest.is_empty() {
            rest.into_vec().destroy_empty();
            return self;
        }
        let mut around = rest;
        'inwards: loop {
            let Some(mut set) = self.into_set() else {
                return as_one(around);
            };
            if set.is_empty() {
                set.into_vec().destroy_empty();
                return as_one(around);
            }
            self = mem::replace(&mut set[0], as_one(around));
            around = set;
        }
    }
}

/// The selections as one: the inline fragment of them, without a type condition or directives.
fn as_one<'a, S>(selection_set: Items<Selection<'a, S>>) -> Selection<'a, S>
    ensures { selection_count result ≡ 1 + set_count selection_set.entry }
{
    Selection::InlineFragment(Spanning::unlocated(InlineFragment {
        type_condition: None,
        directives: None,
        selection_set,
    }))
}
