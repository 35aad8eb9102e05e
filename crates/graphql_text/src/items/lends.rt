ghost use Rattle.std.specs.Prelude.{◌≡◌, ◌^◌, ◌<◌, length, slice_index_or, slice_get, OnSome, ◌↔◌};
ghost use Rattle.std.specs.Prelude.{IsSome};
ghost use Rattle.std.specs.Option.{option_copied_mut};
ghost use Rattle.std.specs.Borrow.{sem};
ghost use Rattle.std.specs.Slice.Iter.{iter_mut_rest, iter_mut_steps};
ghost use Rattle.std.specs.Iterator.Runs.{EveryRun, ItemsMapTo};
ghost use Rattle.graphql_text.specs.Lending.{LendsSlice, LendsIter, LendsItem, LendsGet};

use super::Items;
use std::ops::{DerefSliceMut, IndexMut};
use std::slice::IterMut;

impl<T> Items<T> {
    /// The items as a slice that can be written to.
    pub fn as_mut_slice(&mut self) -> &mut [T]
        ensures* writes_back { sem 𝓛 (LendsSlice T.row self.entry result) }
        ensures value { result.now ≡ self.old }
    {
        self.held.as_mut_slice()
    }

    /// The items in order, each to be written to.
    pub fn iter_mut(&mut self) -> IterMut<'_, T>
        ensures* writes_back { sem 𝓛 (LendsIter T.row self.entry result) }
        ensures rest { iter_mut_rest result ≡ self.old }
        ensures bound { length (iter_mut_rest result) < 2 ^ 64 }
        ensures runs { EveryRun (iter_mut_steps {A = T})
            (λ p. ItemsMapTo p (λ y. y.now) (iter_mut_rest p.from)) }
    {
        self.as_mut_slice().iter_mut()
    }

    /// The item at `index`, counted from zero, to be written to, or `None` past the end.
    pub fn get_mut(&mut self, index: usize) -> Option<&mut T>
        ensures* writes_back { sem 𝓛 (LendsGet T.row self.entry index result) }
        ensures value { option_copied_mut result ≡ slice_get self.old index }
    {
        self.held.get_mut(index)
    }
}

impl<T> DerefSliceMut for Items<T> {
    fn deref_mut(&mut self) -> &mut [T]
        ensures* writes_back { sem 𝓛 (LendsSlice T.row self.entry result) }
        ensures value { result.now ≡ self.old }
    {
        self.held.as_mut_slice()
    }
}

impl<T> IndexMut<usize> for Items<T> {
    fn index_mut(&mut self, index: usize) -> &mut T
        requires { index < length self.old }
        ensures* writes_back { sem 𝓛 (LendsItem T.row self.entry index result) }
        ensures value { result.now ≡ slice_index_or self.old index result.now }
    {
        &mut self.held[index]
    }
}

impl<'a, T> IntoIterator for &'a mut Items<T> {
    type Item = &'a mut T;

    type IntoIter = IterMut<'a, T>;

    ghost into_iter_gives = { λ items r. (iter_mut_rest r ≡ items.now)
        × (length (iter_mut_rest r) < 2 ^ 64)
        × EveryRun (iter_mut_steps {A = T})
        (λ p. ItemsMapTo p (λ y. y.now) (iter_mut_rest p.from)) };

    fn into_iter(self) -> IterMut<'a, T>
        ensures* writes_back { sem 𝓛 (LendsIter T.row self.entry result) }
        ensures into_iter_gives { (iter_mut_rest result ≡ self.old)
            × (length (iter_mut_rest result) < 2 ^ 64)
            × EveryRun (iter_mut_steps {A = T})
            (λ p. ItemsMapTo p (λ y. y.now) (iter_mut_rest p.from)) }
    {
        self.iter_mut()
    }
}
