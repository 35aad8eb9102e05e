//! Lists that nearly always have one item.

ghost use Rattle.std.specs.Prelude.{◌≡◌, [], ◌∷◌, ◌++◌, slice_get, OnOk, OnErr};
ghost use Rattle.std.specs.Option.{option_copied};

use graphql_text::Items;
use std::alloc::{AllocError, Global};
use std::marker::Model;

/// An owned, growing list that contracts see as the list of its items alone. One item stands in the
/// list itself, so that it takes no memory; more stand on the heap.
#[derive(Drop)]
pub struct Few<T> {
    held: Held<T>,
}

/// Where the items of a list stand.
#[derive(Drop)]
enum Held<T> {
    /// There is none.
    Empty,

    /// There is one, in the list itself.
    One([T; 1]),

    /// They stand on the heap.
    More(Items<T>),
}

impl<T> Model for Few<T> {
    ghost use Rattle.std.specs.Prelude.{List};
    ghost use Rattle.std.specs.Coded.{coded_list};
    ghost use Rattle.graphql_collect.specs.Few.{held_items};

    ghost Value = { List T };

    ghost coded = { coded_list T.code };

    ghost view = { λ few. held_items few.held };
}

impl<T> Few<T> {
    /// The empty list. Takes no memory until the second push.
    pub fn new() -> Few<T>
        ensures { result ≡ [] }
    {
        Few { held: Held::Empty }
    }

    /// The items as a slice.
    pub fn as_slice(&self) -> &[T]
        ensures { result.now ≡ self.now }
    {
        match &self.held {
            Held::Empty => &[],
            Held::One(one) => one,
            Held::More(more) => more.as_slice(),
        }
    }

    /// The first item, or `None` where there is none.
    pub fn first(&self) -> Option<&T>
        ensures { option_copied result ≡ slice_get self.now 0 }
    {
        self.as_slice().first()
    }
}

impl<T: Copy + Drop> Few<T> {
    /// Adds `item` at the end. An error is want of memory: the list stays.
    pub fn push(&mut self, alloc: Global, item: T) -> Result<(), AllocError>
        ensures ok { OnOk result (self.new ≡ self.old ++ item ∷ []) }
        ensures err { OnErr result (self.new ≡ self.old) }
    {
        match &mut self.held {
            Held::Empty => {
                self.held = Held::One([item]);
            }
            Held::One(one) => {
                let mut more = Items::new(alloc);
                more.push(one[0])?;
                more.push(item)?;
                self.held = Held::More(more);
            }
            Held::More(more) => more.push(item)?,
        }
        Ok(())
    }
}
