//! What a table keeps of a schema's types.

ghost use Rattle.std.specs.Prelude.{◌≡◌, map};
ghost use Rattle.graphql_text.specs.Memory.{Gives};
ghost use Rattle.graphql_schema.specs.Types.{own_name};
ghost use Rattle.graphql_names.specs.Names.{passes};
ghost use Rattle.graphql_schema.specs.Possible.{possible_types};
ghost use Rattle.graphql_schema.specs.Faults.{is_composite};
ghost use Rattle.graphql_schema.specs.Lookups.{is_scalar, type_named};
ghost use Rattle.graphql_table.specs.TableTypes as spec;

use graphql_names::{Named, NamedItems};
use graphql_records::{TableField, TableType};
use graphql_schema::{Field, MetaType, SchemaType};
use graphql_text::{Items, Text};
use std::alloc::{AllocError, Global};

/// Whether the type of this name is an object, an interface or a union.
fn is_composite_named<S, C>(schema: &SchemaType<S, C>, name: &str) -> bool
    ensures { result ≡ passes is_composite (type_named schema.now.types name.now) }
{
    match schema.concrete_type_by_name(name) {
        Some(MetaType::Object(_) | MetaType::Interface(_) | MetaType::Union(_)) => true,
        _ => false,
    }
}

/// Whether the type of this name is a scalar.
fn is_scalar_named<S, C>(schema: &SchemaType<S, C>, name: &str) -> bool
    ensures { result ≡ passes is_scalar (type_named schema.now.types name.now) }
{
    match schema.concrete_type_by_name(name) {
        Some(MetaType::Scalar(_)) => true,
        _ => false,
    }
}

/// What a table keeps of a field. An error is want of memory.
fn table_field<S, C>(schema: &SchemaType<S, C>, field: &Field<S>) -> Result<TableField, AllocError>
    ensures { Gives result (spec.table_field schema.now.types field.now) }
{
    let of_type = &field.field_type.name;
    let is_leaf = !is_composite_named(schema, of_type.as_str());
    let is_settable = is_scalar_named(schema, of_type.as_str()) & !field.field_type.is_list();
    Ok(TableField {
        name: field.name.clone()?,
        of_type: of_type.clone()?,
        is_leaf,
        is_settable,
    })
}

/// What a table keeps of fields. An error is want of memory.
fn table_fields<S, C>(
    alloc: Global,
    schema: &SchemaType<S, C>,
    fields: &[Field<S>],
) -> Result<NamedItems<TableField>, AllocError>
    ensures { Gives result (map (spec.table_field schema.now.types) fields.now) }
{
    let mut kept = Items::with_capacity(alloc, fields.len())?;
    'fields: for field in fields {
        kept.push(table_field(schema, field)?)?;
    }
    NamedItems::from_items(kept)
}

/// The name of what has one.
fn name_of<T: Named>(item: &T) -> &str
    ensures { result.now ≡ T.name_of item.now }
{
    item.name()
}

/// The names of types. An error is want of memory.
fn names_of<S, C>(alloc: Global, types: &[&MetaType<S, C>]) -> Result<Items<Text>, AllocError>
    ensures { Gives result (map (λ m. own_name m.now) types.now) }
{
    let mut names = Items::with_capacity(alloc, types.len())?;
    'types: for meta in types {
        names.push(Text::from_str(alloc, name_of(*meta))?)?;
    }
    Ok(names)
}

/// The names of the possible types of a type. An error is want of memory.
#[tactic(auto, using(crate::proofs::Told::told_map))]
fn possible_names<S, C>(
    alloc: Global,
    schema: &SchemaType<S, C>,
    meta: &MetaType<S, C>,
) -> Result<Items<Text>, AllocError>
    ensures { Gives result (map own_name (possible_types schema.now.types meta.now)) }
{
    let possible = schema.possible_types(alloc, meta)?;
    names_of(alloc, possible.as_slice())
}

/// What a table keeps of a type. An error is want of memory.
fn table_type<S, C>(
    alloc: Global,
    schema: &SchemaType<S, C>,
    meta: &MetaType<S, C>,
) -> Result<TableType, AllocError>
    ensures { Gives result (spec.table_type schema.now.types meta.now) }
{
    Ok(TableType {
        name: Text::from_str(alloc, name_of(meta))?,
        fields: table_fields(alloc, schema, meta.fields())?,
        possible: possible_names(alloc, schema, meta)?,
    })
}

/// What a table keeps of types. An error is want of memory.
fn types_kept<S, C>(
    alloc: Global,
    schema: &SchemaType<S, C>,
    types: &[&MetaType<S, C>],
) -> Result<Items<TableType>, AllocError>
    ensures { Gives result (map (λ m. spec.table_type schema.now.types m.now) types.now) }
{
    let mut kept = Items::with_capacity(alloc, types.len())?;
    'types: for meta in types {
        kept.push(table_type(alloc, schema, *meta)?)?;
    }
    Ok(kept)
}

/// What a table keeps of a schema's types: of each its name, its fields, and which objects can
/// stand at a place of it. Takes time in proportion to the types and fields, and for each interface
/// once to the objects. An error is want of memory.
pub fn table_types<S, C>(
    alloc: Global,
    schema: &SchemaType<S, C>,
) -> Result<NamedItems<TableType>, AllocError>
    ensures { Gives result (spec.table_types schema.now.types) }
{
    let types = schema.concrete_type_list(alloc)?;
    let kept = types_kept(alloc, schema, types.as_slice())?;
    NamedItems::from_items(kept)
}
