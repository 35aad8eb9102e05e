//! The registry of a schema's types.

mod builds;
mod fields;

ghost use Rattle.std.specs.Prelude.{◌≡◌, IfOk, OnErr};
ghost use Rattle.std.specs.BTreeMap.{IsOrdered, IsUnchanged, values};
ghost use Rattle.graphql_text.specs.Memory.{Gives};
ghost use Rattle.graphql_schema.specs.Types.{own_name};
ghost use Rattle.graphql_registry.specs.Registries.{Registers};

use graphql_names::{Name, NameParseError, Named};
use graphql_schema::{MetaType, SchemaScalar};
use graphql_text::Items;
use std::alloc::{AllocError, Global};
use std::collections::BTreeMap;

/// The metadata of a schema's types, each under its name (GraphQL October 2021, 3.3 Schema: all
/// types within a schema have unique names), in the order of the names.
#[derive(Drop)]
pub struct Registry<S, C = <S as SchemaScalar>::Check> {
    /// The metadata, by the names.
    pub types: BTreeMap<Name, MetaType<S, C>>,
}

impl<S, C> Registry<S, C> {
    /// The registry of these metadata. Takes no memory.
    pub fn new(types: BTreeMap<Name, MetaType<S, C>>) -> Registry<S, C>
        ensures { result.types ≡ types }
    {
        Registry { types }
    }

    /// Takes the metadata of a type under its name: `None`. Metadata that have no name (those of
    /// lists, of types with `null` and placeholders), or whose name is none by the standard
    /// (GraphQL October 2021, 2.1.9 Names) or is that of a type which is there (3.3 Schema), are
    /// handed back, and the registry stays. An error is want of memory: the registry stays, and the
    /// metadata are let go.
    pub fn register(
        &mut self,
        alloc: Global,
        meta: MetaType<S, C>,
    ) -> Result<Option<MetaType<S, C>>, AllocError>
    where
        S: Drop,
        C: Drop,
        ensures ok { IfOk result
            (Registers own_name ⟦<Name as Ord>⟧.cmp self.old.types meta self.new.types) }
        ensures err { OnErr result (IsUnchanged self.old.types self.new.types) }
    {
        register_named(alloc, &mut self.types, meta)
    }

    /// The metadata, in the order of their names. An error is want of memory.
    pub fn into_metadata(self, alloc: Global) -> Result<Items<MetaType<S, C>>, AllocError>
    where
        S: Drop,
        C: Drop,
        ensures metadata { Gives result (values self.types) }
        ensures by_name { IsOrdered ⟦<Name as Ord>⟧.cmp self.types }
    {
        metadata_of(alloc, self.types)
    }
}

/// Puts an item under its name: `None`. An item whose name is none by the standard, or is that of
/// an item which is there, is handed back, and the items stay. An error is want of memory: the
/// items stay.
fn register_named<T: Named + Drop>(
    alloc: Global,
    items: &mut BTreeMap<Name, T>,
    item: T,
) -> Result<Option<T>, AllocError>
    ensures ok { IfOk result (Registers T.name_of ⟦<Name as Ord>⟧.cmp items.old item items.new) }
    ensures err { OnErr result (IsUnchanged items.old items.new) }
{
    let name = match Name::new(alloc, item.name()) {
        Ok(name) => name,
        Err(NameParseError::Invalid(_)) => return Ok(Some(item)),
        Err(NameParseError::Memory) => return Err(AllocError),
    };
    if items.contains_key(&name) {
        return Ok(Some(item));
    }
    match items.insert(name, item) {
        Ok(_) => Ok(None),
        Err(_) => Err(AllocError),
    }
}

/// The items, in the order of their names. An error is want of memory.
fn metadata_of<T: Drop>(alloc: Global, items: BTreeMap<Name, T>) -> Result<Items<T>, AllocError>
    ensures { Gives result (values items) }
{
    let metadata: Vec<T> = items.into_values().collect(alloc)?;
    Ok(Items::from_vec(metadata))
}
