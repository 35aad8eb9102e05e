//! The types that metadata describe, with the fields of introspection.

ghost use Rattle.std.specs.Prelude.{◌≡◌, ◌++◌, [], ◌∷◌, None, OnOk, IsOkAnd};
ghost use Rattle.graphql_text.specs.Memory.{Gives};
ghost use Rattle.graphql_schema.specs.Completed.{schema_field, type_field, name_argument};
ghost use Rattle.graphql_schema.specs.Completed.{with_introspection, completed};
ghost use Rattle.graphql_schema.specs.declared.meta.deprecation.DeprecationStatus.TheVariants as status;

use crate::{Argument, DeprecationStatus, Field, MetaType, ObjectMeta};
use graphql_names::Type;
use graphql_text::{Items, Text};
use std::alloc::{AllocError, Global};

/// The named metadata, with the fields of introspection at the query root (GraphQL October 2021,
/// 4.2 Schema Introspection). An error is want of memory.
pub fn completed<S: Drop, C: Drop>(
    alloc: Global,
    metadata: Items<MetaType<S, C>>,
    query: &str,
) -> Result<Items<MetaType<S, C>>, AllocError>
    ensures { Gives result (completed metadata query.now) }
{
    let mut types = Items::with_capacity(alloc, metadata.len())?;
    'metadata: for meta in metadata {
        push_completed(alloc, &mut types, meta, query)?;
    }
    Ok(types)
}

/// Puts the type that one metadata describe behind the others; what has no name is passed over.
fn push_completed<S: Drop, C: Drop>(
    alloc: Global,
    types: &mut Items<MetaType<S, C>>,
    meta: MetaType<S, C>,
    query: &str,
) -> Result<(), AllocError>
    ensures { OnOk result (types.new ≡ types.old ++ completed (meta ∷ []) query.now) }
{
    if meta.name().is_some() {
        push(types, with_introspection(alloc, meta, query))
    } else {
        Ok(())
    }
}

/// Puts the item behind the others. An error is want of memory: that of the item, or one here.
fn push<T: Drop>(items: &mut Items<T>, item: Result<T, AllocError>) -> Result<(), AllocError>
    ensures { OnOk result (IsOkAnd item (λ made. items.new ≡ items.old ++ made ∷ [])) }
{
    items.push(item?)?;
    Ok(())
}

/// The object of this name with the fields of introspection; every other type as it is.
fn with_introspection<S: Drop, C: Drop>(
    alloc: Global,
    meta: MetaType<S, C>,
    query: &str,
) -> Result<MetaType<S, C>, AllocError>
    ensures { Gives result (with_introspection query.now meta) }
{
    match meta {
        MetaType::Object(object) => {
            if object.name.is(query) {
                let object = with_fields(alloc, object)?;
                return Ok(MetaType::Object(object));
            }
            Ok(MetaType::Object(object))
        }
        other => Ok(other),
    }
}

/// The object with the fields of introspection behind its own.
fn with_fields<S: Drop>(
    alloc: Global,
    mut object: ObjectMeta<S>,
) -> Result<ObjectMeta<S>, AllocError>
    ensures { Gives result
        (record object { fields = object.fields ++ schema_field ∷ type_field ∷ [] }) }
{
    object.fields.push(schema_field(alloc)?)?;
    object.fields.push(type_field(alloc)?)?;
    Ok(object)
}

/// `__schema: __Schema!`
fn schema_field<S: Drop>(alloc: Global) -> Result<Field<S>, AllocError>
    ensures { Gives result schema_field }
{
    field(
        alloc,
        "__schema",
        named(alloc, "__Schema")?.wrap_non_null()?,
    )
}

/// `__type(name: String!): __Type`
fn type_field<S: Drop>(alloc: Global) -> Result<Field<S>, AllocError>
    ensures { Gives result type_field }
{
    let field = field(alloc, "__type", named(alloc, "__Type")?)?;
    field.argument(alloc, name_argument(alloc)?)
}

/// `name: String!`
fn name_argument<S>(alloc: Global) -> Result<Argument<S>, AllocError>
    ensures { Gives result name_argument }
{
    let arg_type = named(alloc, "String")?.wrap_non_null()?;
    Ok(Argument::new(Text::from_str(alloc, "name")?, arg_type))
}

/// The field of this name and type, without arguments.
fn field<S>(alloc: Global, name: &str, field_type: Type<Text>) -> Result<Field<S>, AllocError>
    ensures { Gives result (record {
      name = name.now;
      description = None;
      arguments = None;
      field_type = field_type;
      deprecation_status = status.Current;
    }) }
{
    Ok(Field {
        name: Text::from_str(alloc, name)?,
        description: None,
        arguments: None,
        field_type,
        deprecation_status: DeprecationStatus::Current,
    })
}

/// The type of this name, with `null`.
fn named(alloc: Global, name: &str) -> Result<Type<Text>, AllocError>
    ensures { Gives result (record { name = name.now; modifiers = [] }) }
{
    Ok(Type::new(alloc, Text::from_str(alloc, name)?))
}
