use crate::told::check;
use graphql_names::{NameMap, NameMapError};
use graphql_text::Items;
use std::alloc::{AllocError, Global};

/// The map of `b`, `a` and a third name.
fn map_with(alloc: Global, third: &'static str) -> Result<NameMap<&'static str>, NameMapError> {
    let items = ["b", "a", third].to_vec(alloc)?;
    NameMap::from_items(Items::from_vec(items))
}

/// The names of a map, and what stands under `b` and `d`.
fn map_text(alloc: Global, map: &NameMap<&'static str>) -> Result<String, AllocError> {
    let names = map.as_slice();
    let found = map.get("b");
    let missing = map.get("d");
    format!(in alloc; "{names:?} {found:?} {missing:?}")
}

/// The map of `b`, `a` and `B`, once `c` and `a` are put there, in words.
fn put_text(alloc: Global) -> Result<String, NameMapError> {
    let mut map = map_with(alloc, "B")?;
    map.put("c")?;
    map.put("a")?;
    Ok(map_text(alloc, &map)?)
}

#[test]
fn items_are_found_by_their_names(rt: HostRuntime) {
    let told = put_text(rt.alloc());
    check(&rt, told, "[\"B\", \"a\", \"b\", \"c\"] Some(\"b\") None");
}

/// Why `b`, `a` and `b` make no map.
fn refusal_text(alloc: Global) -> Result<String, AllocError> {
    match map_with(alloc, "b") {
        Ok(map) => map_text(alloc, &map),
        Err(refusal) => refusal.to_string(alloc),
    }
}

#[test]
fn names_that_stand_twice_are_refused(rt: HostRuntime) {
    let told = refusal_text(rt.alloc());
    check(&rt, told, "More than one item is named \"b\"");
}
