//! Items in the order in which they were declared, found by their names.

ghost use Rattle.std.specs.Prelude.{◌≡◌, ◌↔◌, ◌++◌, ◌∷◌, ◌≤◌, List, [], length, slice_get, true};
ghost use Rattle.std.specs.Prelude.{false, IsTrue, IfOk, OnOk, OnErr};
ghost use Rattle.std.specs.Cmp.Lexicographic.{slice_cmp};
ghost use Rattle.std.specs.List.{AllZip, range_with_len};
ghost use Rattle.std.specs.List.Sorted.{IsPartitionPoint, IsPartitionedBy};
ghost use Rattle.std.specs.Option.{option_copied, option_to_list};
ghost use Rattle.std.specs.Ordering.{is_le, is_lt, nat_cmp};
ghost use Rattle.std.specs.Str.{bytes_eq};
ghost use Rattle.graphql_text.specs.Memory.{Gives};
ghost use Rattle.graphql_names.specs.Indexes.{IsIndex, name_at, place_cmp};
ghost use Rattle.graphql_names.specs.Names.{named};

use crate::named::Named;
use graphql_text::Items;
use std::alloc::{AllocError, Global};
use std::cmp::Ordering;
use std::marker::Model;

/// Items in the order in which they were declared, each found by its name, as the fields of a type
/// and the arguments of a field are (GraphQL October 2021, 3.6 Objects). A name may stand more than
/// once:
/// it finds the first of its items.
#[derive(Drop)]
pub struct NamedItems<T: Named> {
    items: Items<T>,
    by_name: Items<usize>,
}

/// A contract sees the items, as they were declared.
impl<T: Named> Model for NamedItems<T> {
    ghost Value = { List T };

    ghost view = { λ named. named.items };

    ghost invariant = { λ named. IsIndex T.name_of named.items named.by_name };
}

impl<T: Named> NamedItems<T> {
    /// No items. Takes no memory until the first one.
    pub fn new(alloc: Global) -> NamedItems<T>
        ensures { result ≡ [] }
    {
        NamedItems {
            items: Items::new(alloc),
            by_name: Items::new(alloc),
        }
    }

    /// These items. Takes the time in which their names are sorted. An error is want of memory.
    pub fn from_items(items: Items<T>) -> Result<NamedItems<T>, AllocError>
    where
        T: Drop,
        ensures { Gives result items }
    {
        let by_name = index_of(*items.allocator(), items.as_slice())?;
        Ok(NamedItems { items, by_name })
    }

    /// The items as a list. Takes no memory.
    pub fn into_items(self) -> Items<T>
        ensures { result ≡ self }
    {
        let NamedItems { items, by_name: _ } = self;
        items
    }

    /// The items, as they were declared.
    pub fn as_slice(&self) -> &[T]
        ensures { result.now ≡ self.now }
    {
        self.items.as_slice()
    }

    /// How many items there are.
    pub fn len(&self) -> usize
        ensures { result ≡ length self.now }
    {
        self.items.len()
    }

    /// Whether there is no item.
    pub fn is_empty(&self) -> bool
        ensures { IsTrue result ↔ (self.now ≡ []) }
    {
        self.items.is_empty()
    }

    /// The first item of this name, or `None` where no item has it: among few it is looked for one
    /// by one, among more by binary search.
    pub fn get(&self, name: &str) -> Option<&T>
        ensures { option_copied result ≡ named T.name_of self.now name.now }
    {
        let items = self.items.as_slice();
        if items.len() <= FEW {
            return first_named(items, name);
        }
        match self
            .by_name
            .get(begin_of(items, self.by_name.as_slice(), name))
        {
            Some(place) => item_named(items, *place, name),
            None => None,
        }
    }

    /// Adds an item behind the others. Takes time in proportion to the items. An error is want of
    /// memory: the items stay.
    pub fn push(&mut self, item: T) -> Result<(), AllocError>
    where
        T: Drop,
        ensures ok { OnOk result (self.new ≡ self.old ++ item ∷ []) }
        ensures err { OnErr result (self.new ≡ self.old) }
    {
        let place = self.items.len();
        let end = end_of(self.items.as_slice(), self.by_name.as_slice(), item.name());
        self.items.push(item)?;
        match self.by_name.insert(end, place) {
            Ok(()) => Ok(()),
            Err(refused) => {
                let _item = self.items.pop();
                Err(AllocError::from(refused))
            }
        }
    }
}

/// Among so many items a name is looked for one by one, and among more by binary search.
pub(crate) const FEW: usize = 32;

/// Whether two names are one: their lengths and then their bytes are compared, since most names
/// that differ do so in their lengths or in their first bytes.
pub fn same_name(one: &str, other: &str) -> bool
    ensures { result ≡ bytes_eq one.now other.now }
{
    let bytes = one.as_bytes();
    let others = other.as_bytes();
    if bytes.len() != others.len() {
        return false;
    }
    'bytes: for place in 0..bytes.len() {
        if bytes[place] != others[place] {
            return false;
        }
    }
    true
}

/// The first item of this name, looked for one by one.
pub(crate) fn first_named<'a, T: Named>(items: &'a [T], name: &str) -> Option<&'a T>
    ensures { option_copied result ≡ named T.name_of items.now name.now }
{
    items.iter().find(|item| same_name(item.name(), name))
}

/// The name of the item at a place; past the end the empty one.
fn name_at<T: Named>(items: &[T], place: usize) -> &str
    ensures { result.now ≡ name_at T.name_of items.now place }
{
    match items.get(place) {
        Some(item) => item.name(),
        None => "",
    }
}

/// The item at this place, where it has this name.
fn item_named<'a, T: Named>(items: &'a [T], place: usize, name: &str) -> Option<&'a T>
    ensures { option_copied result
        ≡ named T.name_of (option_to_list (slice_get items.now place)) name.now }
{
    match items.get(place) {
        Some(item) if same_name(item.name(), name) => Some(item),
        _ => None,
    }
}

/// Where in an index the places of a name begin, or would: behind those of lesser names.
fn begin_of<T: Named>(items: &[T], by_name: &[usize], name: &str) -> usize
    ensures bound { result ≤ length by_name.now }
    ensures split { IsIndex T.name_of items.now by_name.now
        → IsPartitionPoint
        (λ place. is_lt (slice_cmp nat_cmp (name_at T.name_of items.now place) name.now) ≡ true)
        (λ place. is_lt (slice_cmp nat_cmp (name_at T.name_of items.now place) name.now) ≡ false)
        by_name.now result }
{
    by_name.partition_point(|place| name_at(items, *place).cmp(name).is_lt())
}

/// Where in an index the places of a name end, or would: before those of greater names.
fn end_of<T: Named>(items: &[T], by_name: &[usize], name: &str) -> usize
    ensures bound { result ≤ length by_name.now }
    ensures split { IsIndex T.name_of items.now by_name.now
        → IsPartitionPoint
        (λ place. is_le (slice_cmp nat_cmp (name_at T.name_of items.now place) name.now) ≡ true)
        (λ place. is_le (slice_cmp nat_cmp (name_at T.name_of items.now place) name.now) ≡ false)
        by_name.now result }
{
    by_name.partition_point(|place| name_at(items, *place).cmp(name).is_le())
}

/// How two places compare: by the names that stand there, and where these are one by themselves.
fn compare<T: Named>(items: &[T], place: usize, other: usize) -> Ordering
    ensures { result ≡ place_cmp T.name_of items.now place other }
{
    name_at(items, place)
        .cmp(name_at(items, other))
        .then(place.cmp(&other))
}

/// The places from zero on, as many as are asked for. An error is want of memory.
fn places(alloc: Global, count: usize) -> Result<Vec<usize>, AllocError>
    ensures { IfOk result (λ places. places.items ≡ range_with_len 0 count) }
{
    let mut places = Vec::with_capacity(alloc, count)?;
    for place in 0..count {
        places.push(place)?;
    }
    Ok(places)
}

/// The places of the items, by the names. An error is want of memory.
fn index_of<T: Named>(alloc: Global, items: &[T]) -> Result<Items<usize>, AllocError>
    ensures { IfOk result (IsIndex T.name_of items.now) }
{
    let mut by_name = places(alloc, items.len())?;
    by_name.sort_unstable_by(|place, other| compare(items, *place, *other));
    Ok(Items::from_vec(by_name))
}

impl<T: Named + Clone + Drop> Clone for NamedItems<T> {
    ghost is_clone = { AllZip T.is_clone };

    /// A clone of each item in turn. Where a clone of an item is the same item, the clones are the
    /// same items. An error is want of memory.
    fn clone(&self) -> Result<NamedItems<T>, AllocError>
        ensures clones { IfOk result (AllZip T.is_clone self.now) }
        ensures same { IfOk result
            (λ copy. ((x y : T) → T.is_clone x y → y ≡ x) → copy ≡ self.now) }
    {
        NamedItems::from_items(self.items.clone()?)
    }
}
