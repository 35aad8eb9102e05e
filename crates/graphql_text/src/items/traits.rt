ghost use Rattle.std.specs.Prelude.{◌≡◌, ◌++◌, ◌^◌, ◌<◌, length, slice_index_or, IfOk};
ghost use Rattle.std.specs.Fmt.{debug_list};
ghost use Rattle.std.specs.List.{AllZip};
ghost use Rattle.std.specs.Slice.Iter.{iter_rest, iter_steps};
ghost use Rattle.std.specs.Iterator.Runs.{EveryRun, ItemsMapTo, ItemsAre};
ghost use Rattle.std.specs.declared.alloc.Global.{Global};
ghost use Rattle.std.specs.Vec.Iter.{into_iter_items, into_iter_len, into_iter_steps};

use super::Items;
use std::alloc::{AllocError, Global};
use std::convert::AsSlice;
use std::fmt::{Debug, Formatter, Write};
use std::ops::{DerefSlice, Index};
use std::slice::Iter;
use std::vec::IntoIter;

impl<T> From<Vec<T>> for Items<T> {
    ghost from_gives = { λ held items. items ≡ held.items };

    fn from(held: Vec<T>) -> Items<T> {
        Items::from_vec(held)
    }
}

impl<T> From<Items<T>> for Vec<T> {
    ghost from_gives = { λ items held. held.items ≡ items };

    fn from(items: Items<T>) -> Vec<T> {
        items.into_vec()
    }
}

impl<T> AsSlice<T> for Items<T> {
    ghost items = { λ items. items };

    fn as_slice(&self) -> &[T] {
        self.as_slice()
    }
}

impl<T> DerefSlice for Items<T> {
    type Elem = T;

    ghost deref_gives = { λ items shown. shown ≡ items };

    fn deref(&self) -> &[T] {
        self.as_slice()
    }
}

impl<T> Index<usize> for Items<T> {
    type Output = T;

    ghost can_index = { λ items index. index < length items };

    ghost index_gives = { λ items index item. item ≡ slice_index_or items index item };

    fn index(&self, index: usize) -> &T {
        &self.as_slice()[index]
    }
}

impl<T: Drop> IntoIterator for Items<T> {
    type Item = T;

    type IntoIter = IntoIter<T, Global>;

    ghost into_iter_gives = { λ items r. (into_iter_items r ≡ items)
        × (into_iter_len r ≡ length items)
        × (into_iter_len r < 2 ^ 64)
        × EveryRun
        (into_iter_steps {X = T} {Z = Global}) (λ p. ItemsAre p (into_iter_items p.from)) };

    fn into_iter(self) -> IntoIter<T, Global> {
        self.into_vec().into_iter()
    }
}

impl<'a, T> IntoIterator for &'a Items<T> {
    type Item = &'a T;

    type IntoIter = Iter<'a, T>;

    ghost into_iter_gives = { λ items r. (iter_rest r ≡ items.now)
        × (length (iter_rest r) < 2 ^ 64)
        × EveryRun (iter_steps {A = T}) (λ p. ItemsMapTo p (λ y. y.now) (iter_rest p.from)) };

    fn into_iter(self) -> Iter<'a, T> {
        self.iter()
    }
}

impl<T: Drop> Extend<T> for Items<T> {
    ghost extend_gives = { λ old more new. new ≡ old ++ more };

    fn extend<U: IntoIterator<Item = T>>(&mut self, iter: U) -> Result<(), AllocError> {
        self.held.extend(iter)
    }
}

impl<T: Drop> FromIterator<T> for Items<T> {
    type Alloc = Global;

    ghost from_iter_gives = { λ items made. made ≡ items };

    fn from_iter<U: IntoIterator<Item = T>>(
        alloc: Global,
        iter: U,
    ) -> Result<Items<T>, AllocError> {
        let held = Vec::from_iter(alloc, iter)?;
        Ok(Items { held })
    }
}

impl<T: Clone> Clone for Items<T> {
    ghost is_clone = { AllZip T.is_clone };

    /// A second list, of a clone of each item in turn. Where a clone of an item is the same item,
    /// the second list is the same list. An error is want of memory, of the list or of an item's
    /// clone.
    fn clone(&self) -> Result<Items<T>, AllocError>
        ensures clones { IfOk result (AllZip T.is_clone self.now) }
        ensures same { IfOk result
            (λ copy. ((x y : T) → T.is_clone x y → y ≡ x) → copy ≡ self.now) }
    {
        let held = self.held.clone()?;
        Ok(Items { held })
    }
}

impl<T: Debug> Debug for Items<T> {
    ghost debug_output = { debug_list T.debug_output };

    fn fmt<W: Write>(&self, f: &mut Formatter<W>) -> std::fmt::Result {
        Debug::fmt(&self.held, f)
    }
}
