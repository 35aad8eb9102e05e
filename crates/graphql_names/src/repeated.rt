//! Names that stand twice.

ghost use Rattle.std.specs.Prelude.{map, IfOk};
ghost use Rattle.graphql_names.specs.Names.{Finds, stands_twice};

use crate::named::Named;
use std::alloc::{AllocError, Global};
use std::collections::HashSet;

/// A name that two of the items have, or `None` where their names are different. Takes time in
/// proportion to the items. An error is want of memory.
pub fn repeated_name<T: Named>(alloc: Global, items: &[T]) -> Result<Option<&str>, AllocError>
    ensures { IfOk result (Finds (stands_twice (map T.name_of items.now))) }
{
    let mut seen: HashSet<&str> = HashSet::new(alloc);
    'items: for item in items {
        let name = item.name();
        if !seen.insert(name)? {
            return Ok(Some(name));
        }
    }
    Ok(None)
}
