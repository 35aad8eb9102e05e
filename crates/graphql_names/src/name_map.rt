//! Items that are looked up by their names.

ghost use Rattle.std.specs.Prelude.{◌≡◌, ℕ, List, [], map, length, true, false, IfOk, IfErr, OnOk};
ghost use Rattle.std.specs.Prelude.{OnErr, MatchOption, IsPermutation, if◌then◌else◌, Some, None};
ghost use Rattle.std.specs.Cmp.Lexicographic.{slice_cmp};
ghost use Rattle.std.specs.List.{AllAdjacentBelow};
ghost use Rattle.std.specs.List.Sorted.{IsBinarySearchResult, IsSearchInRange};
ghost use Rattle.std.specs.Ordering.{nat_cmp};
ghost use Rattle.std.specs.Option.{option_copied};
ghost use Rattle.std.specs.Str.{bytes_eq};
ghost use Rattle.graphql_names.specs.Names.{IsByName, named, stands_twice};
ghost use Rattle.graphql_names.specs.NameMaps.{IsRepeat};
ghost use Rattle.graphql_names.specs.declared.name_map.NameMapError.TheVariants.{Memory};

use crate::named::Named;
use crate::named_items::{FEW, first_named};
use graphql_text::{Items, Text};
use std::alloc::{AllocError, AllocFailed, Global};
use std::marker::Model;
use thiserror::Error;

/// Why items make no `NameMap`, or want of memory.
#[derive(Debug, Drop, Error)]
pub enum NameMapError {
    /// More than one item has this name.
    #[error("More than one item is named \"{0}\"")]
    Repeated(Text),

    /// Memory ran out.
    #[error("Out of memory")]
    Memory,
}

impl From<AllocError> for NameMapError {
    ghost from_gives = { λ _ e. e ≡ Memory };

    fn from(_error: AllocError) -> NameMapError {
        NameMapError::Memory
    }
}

impl<T: Drop> From<AllocFailed<T>> for NameMapError {
    ghost from_gives = { λ _ e. e ≡ Memory };

    fn from(_error: AllocFailed<T>) -> NameMapError {
        NameMapError::Memory
    }
}

/// Items of different names in the order of their names, each found by its name, as the types of a
/// schema and the directives are (GraphQL October 2021, 3.3 Schema, 3.13 Directives).
#[derive(Drop)]
pub struct NameMap<T: Named> {
    items: Items<T>,
}

/// A contract sees the items, in order.
impl<T: Named> Model for NameMap<T> {
    ghost Value = { List T };

    ghost view = { λ map. map.items };

    ghost invariant = { λ map. IsByName T.name_of map.items };
}

impl<T: Named> NameMap<T> {
    /// No items. Takes no memory until the first one.
    pub fn new(alloc: Global) -> NameMap<T>
        ensures { result ≡ [] }
    {
        NameMap {
            items: Items::new(alloc),
        }
    }

    /// The items in the order of their names. An error comes exactly where a name stands twice: it
    /// tells such a name, or that there was no memory for it.
    pub fn from_items(items: Items<T>) -> Result<NameMap<T>, NameMapError>
    where
        T: Drop,
        ensures permutation { IfOk result (λ map. IsPermutation items map) }
        ensures once { IfOk result
            (λ _. (name : List ℕ) → stands_twice (map T.name_of items) name ≡ false) }
        ensures by_name { IfOk result (λ map. IsByName T.name_of map) }
        ensures repeated { IfErr result (IsRepeat (map T.name_of items)) }
    {
        let alloc = *items.allocator();
        let mut sorted = items.into_vec();
        sorted.sort_unstable_by(|item, other| item.name().cmp(other.name()));
        if let Some(name) = repeated_neighbour(&sorted) {
            let name = Text::from_str(alloc, name)?;
            return Err(NameMapError::Repeated(name));
        }
        let items = Items::from_vec(sorted);
        Ok(NameMap { items })
    }

    /// The items, in the order of their names by bytes.
    pub fn as_slice(&self) -> &[T]
        ensures items { result.now ≡ self.now }
        ensures by_name { IsByName T.name_of self.now }
    {
        self.items.as_slice()
    }

    /// The place of the item of this name, or the place at which an item of this name would stand.
    fn place_of(&self, name: &str) -> Result<usize, usize>
        ensures bound { IsSearchInRange result (length self.now) }
        ensures place { IsBinarySearchResult (λ item. slice_cmp nat_cmp (T.name_of item) name.now)
            self.now result }
    {
        self.items
            .as_slice()
            .binary_search_by(|item| item.name().cmp(name))
    }

    /// The item of this name, or `None` where no item has it.
    pub fn get(&self, name: &str) -> Option<&T>
        ensures { option_copied result ≡ named T.name_of self.now name.now }
    {
        if self.items.len() <= FEW {
            return first_named(self.items.as_slice(), name);
        }
        match self.place_of(name) {
            Ok(place) => self.items.get(place),
            Err(_) => None,
        }
    }

    /// Puts an item into the map, in the stead of the item of its name where there is one. An error
    /// is want of memory: the map stays. It comes only where no item has the name.
    pub fn put(&mut self, item: T) -> Result<(), AllocError>
    where
        T: Drop,
        ensures ok { OnOk result ((name : List ℕ) → named T.name_of self.new name ≡ (if bytes_eq
            (T.name_of item) name then Some item else named T.name_of self.old name)) }
        ensures err { OnErr result (self.new ≡ self.old) }
        ensures err_new { OnErr result (named T.name_of self.old (T.name_of item) ≡ None) }
    {
        match self.place_of(item.name()) {
            Ok(place) => {
                self.items[place] = item;
                Ok(())
            }
            Err(place) => {
                self.items.insert(place, item)?;
                Ok(())
            }
        }
    }
}

/// The first name that two neighbours have, or `None` where neighbours have different names. In
/// order, equal names are neighbours: no set of names is needed to find them, and no memory.
fn repeated_neighbour<T: Named>(items: &[T]) -> Option<&str>
    ensures { MatchOption result (AllAdjacentBelow
        (λ x y. bytes_eq (T.name_of x) (T.name_of y) ≡ false) items.now (length items.now))
        (λ name. stands_twice (map T.name_of items.now) name.now ≡ true) }
{
    for place in 1..items.len() {
        let name = items[place].name();
        if items[place - 1].name() == name {
            return Some(name);
        }
    }
    None
}
