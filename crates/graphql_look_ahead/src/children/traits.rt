//! Children, taken one after the other.

ghost use Rattle.std.specs.Prelude.{◌≡◌, ◌<◌, ◌^◌, length};
ghost use Rattle.std.specs.Iterator.Runs.{EveryRun, ItemsAre};
ghost use Rattle.std.specs.Vec.Iter.{into_iter_items, into_iter_len, into_iter_steps};
ghost use Rattle.std.specs.declared.alloc.Global.{Global};
ghost use Rattle.graphql_look_ahead.specs.declared.selection.LookAheadSelection.{LookAheadSelection};

use super::LookAheadChildren;
use crate::selection::LookAheadSelection;
use std::alloc::Global;
use std::vec::IntoIter;

impl<'d, 'a, S, C> IntoIterator for LookAheadChildren<'d, 'a, S, C> {
    type Item = LookAheadSelection<'d, 'a, S, C>;

    type IntoIter = IntoIter<LookAheadSelection<'d, 'a, S, C>, Global>;

    ghost into_iter_gives = { λ children r. (into_iter_items r ≡ children.children)
        × (into_iter_len r ≡ length children.children)
        × (into_iter_len r < 2 ^ 64)
        × EveryRun (into_iter_steps {X = LookAheadSelection S C} {Z = Global})
        (λ p. ItemsAre p (into_iter_items p.from)) };

    fn into_iter(self) -> IntoIter<LookAheadSelection<'d, 'a, S, C>, Global> {
        self.children.into_iter()
    }
}
