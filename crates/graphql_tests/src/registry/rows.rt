//! The worked rows: references to lists, and an object that is registered twice.

ghost use Rattle.std.specs.Prelude.{◌≡◌, [], ◌∷◌, None, Some, IfOk, OnErr, OnOk, codes};
ghost use Rattle.std.specs.BTreeMap.{IsUnchanged};
ghost use Rattle.graphql_text.specs.Memory.{Gives};
ghost use Rattle.graphql_names.specs.TypeReference.{written_type};
ghost use Rattle.graphql_schema.specs.declared.meta.MetaType.TheVariants as meta;
ghost use Rattle.graphql_schema.specs.Types.{own_name};
ghost use Rattle.graphql_registry.specs.Registries.{Registers};
ghost use Rattle.graphql_tests.specs.RegistryRows.{object_a};

use graphql_names::{Name, Type};
use graphql_registry::{GraphQLType, Registry};
use graphql_schema::{MetaType, ObjectMeta};
use graphql_text::{Items, Text};
use graphql_values::DefaultScalarValue;
use std::alloc::{AllocError, Global};
use std::collections::BTreeMap;

type Meta<C> = MetaType<DefaultScalarValue, C>;

/// The reference to lists of integers is `[Int!]!` (GraphQL October 2021, 2.11 Type References). An
/// error is want of memory.
pub fn lists_of_integers(alloc: Global) -> Result<Type<Text>, AllocError>
    ensures { IfOk result (λ list. written_type list.name list.modifiers ≡ codes "[Int!]!") }
{
    <Vec<i32> as GraphQLType<DefaultScalarValue>>::as_type(alloc)
}

/// The reference to lists of integers, where lists and integers may be null, is `[Int]`. An error
/// is want of memory.
pub fn lists_with_nulls(alloc: Global) -> Result<Type<Text>, AllocError>
    ensures { IfOk result (λ list. written_type list.name list.modifiers ≡ codes "[Int]") }
{
    <Option<Vec<Option<i32>>> as GraphQLType<DefaultScalarValue>>::as_type(alloc)
}

/// Registers the object `A` of a field `f: String!`. An error is want of memory.
fn register_a<C: Drop>(
    alloc: Global,
    registry: &mut Registry<DefaultScalarValue, C>,
) -> Result<Option<Meta<C>>, AllocError>
    ensures ok { IfOk result
        (Registers own_name ⟦<Name as Ord>⟧.cmp registry.old.types
        (meta.Object object_a) registry.new.types) }
    ensures err { OnErr result (IsUnchanged registry.old.types registry.new.types) }
{
    let object = a(alloc, registry)?;
    registry.register(alloc, object.into_meta())
}

/// The object `A` of a field `f: String!`. An error is want of memory.
fn a<C>(
    alloc: Global,
    registry: &Registry<DefaultScalarValue, C>,
) -> Result<ObjectMeta<DefaultScalarValue>, AllocError>
    ensures { Gives result object_a }
{
    let mut fields = Items::new(alloc);
    fields.push(registry.field::<String>(alloc, "f")?)?;
    registry.build_object_type(alloc, "A", fields)
}

/// The object `A` of a field `f: String!`, registered, then the same again, then the metadata:
/// taken; handed back; one object `A`, with the fields `f: String!` and `__typename: String!`.
/// Errors are want of memory.
pub fn object_registered_twice<C: Drop>(
    alloc: Global,
) -> (
    Result<Option<Meta<C>>, AllocError>,
    Result<Option<Meta<C>>, AllocError>,
    Result<Items<Meta<C>>, AllocError>,
)
    ensures taken { Gives result.0 None }
    ensures back { OnOk result.0 (Gives result.1 (Some (meta.Object object_a))) }
    ensures one { OnOk result.0 (Gives result.2 (meta.Object object_a ∷ [])) }
{
    let mut registry = Registry::new(BTreeMap::new(alloc));
    let first = register_a(alloc, &mut registry);
    let second = register_a(alloc, &mut registry);
    (first, second, registry.into_metadata(alloc))
}
