ghost use Rattle.std.specs.Prelude.{◌≡◌, ◌+◌, ◌<◌, ◌%◌, ◌==◌, IfOk, length, EachIndex, filter};
ghost use Rattle.std.specs.Prelude.{slice_index, slice_set};

use crate::told::check;
use graphql_text::Items;
use std::alloc::{AllocError, Global};

/// The items from the first to the last, by a loop over a borrow.
fn copied(alloc: Global, items: &Items<u8>) -> Result<Items<u8>, AllocError>
    ensures { IfOk result (λ copy. copy ≡ items.now) }
{
    let mut copy = Items::new(alloc);
    for item in items {
        copy.push(*item)?;
    }
    Ok(copy)
}

/// The items from the first to the last, by a loop that takes them.
fn moved(alloc: Global, items: Items<u8>) -> Result<Items<u8>, AllocError>
    ensures { IfOk result (λ moved. moved ≡ items) }
{
    let mut moved = Items::new(alloc);
    for item in items {
        moved.push(item)?;
    }
    Ok(moved)
}

/// Makes each item seven.
fn set_each(items: &mut Items<u8>)
    ensures { EachIndex items.new (λ k. slice_index items.new k ≡ 7) }
{
    for item in items.as_mut_slice() {
        *item = 7;
    }
}

/// Makes the first item seven.
fn set_first(items: &mut Items<u8>)
    requires { 0 < length items.old }
    ensures { items.new ≡ slice_set items.old 0 7 }
{
    items[0] = 7;
}

/// The sum of the first two.
fn both(items: &Items<u8>) -> u16
    requires { 1 < length items.now }
    ensures { result ≡ slice_index items.now 0 + slice_index items.now 1 }
{
    items[0] as u16 + items[1] as u16
}

/// The items that are even.
fn evens(alloc: Global, items: &Items<u8>) -> Result<Items<u8>, AllocError>
    ensures { IfOk result (λ evens. evens ≡ filter (λ x. x % 2 == 0) items.now) }
{
    items.iter().copied().filter(|x| *x % 2 == 0).collect(alloc)
}

/// Adds two at the end, four at the second place, sorts all, and adds two more.
fn grow(items: &mut Items<u8>) -> Result<(), AllocError> {
    items.extend_from_slice(&[2, 5])?;
    items.insert(1, 4)?;
    items.sort()?;
    items.extend([8, 7].into_iter())
}

/// Keeps the first alone, and adds all that there were behind it.
fn begin_again(alloc: Global, items: &mut Items<u8>) -> Result<(), AllocError> {
    let mut more = moved(alloc, copied(alloc, items)?)?;
    items.truncate(1);
    items.append(&mut more)
}

/// Two items that have grown.
fn grown(alloc: Global) -> Result<String, AllocError> {
    let mut items = Items::from(vec![in alloc; 3, 1]?);
    grow(&mut items)?;
    format!(in alloc; "{items:?}")
}

/// Three items that were moved, and a copy of those that are even.
fn begun_again(alloc: Global) -> Result<String, AllocError> {
    let mut items = Items::from(vec![in alloc; 3, 4, 6]?);
    begin_again(alloc, &mut items)?;
    let copy = evens(alloc, &items)?.clone()?;
    format!(in alloc; "{items:?} {copy:?}")
}

/// Makes each item five.
fn set_fives(items: &mut Items<u8>) {
    for item in items {
        *item = 5;
    }
}

/// The sum of two items of which the first is seven, and the items, each five and then each seven.
fn written(alloc: Global) -> Result<String, AllocError> {
    let mut items = Items::with_capacity(alloc, 2)?;
    items.push(1)?;
    items.push(2)?;
    let mut sum = 0;
    if items.len() == 2 {
        set_first(&mut items);
        sum = both(&items);
    }
    set_fives(&mut items);
    let fives = format!(in alloc; "{sum} {items:?}")?;
    set_each(&mut items);
    format!(in alloc; "{fives} {:?}", items.into_vec())
}

#[test]
fn items_are_kept_and_lent(rt: HostRuntime) {
    let alloc = rt.alloc();
    check(&rt, grown(alloc), "[1, 2, 3, 4, 5, 8, 7]");
    check(&rt, begun_again(alloc), "[3, 3, 4, 6] [4, 6]");
    check(&rt, written(alloc), "9 [5, 5] [7, 7]");
}
