//! Names that stand twice.

ghost use Rattle.std.specs.Prelude.{map, IfOk};
ghost use Rattle.std.specs.List.{list_any};
ghost use Rattle.graphql_schema.specs.Types.{arguments_of};
ghost use Rattle.graphql_names.specs.Names.{Finds, stands_twice};
ghost use Rattle.graphql_schema.specs.Faults.{scopes_of};

use crate::{Field, MetaType};
use graphql_names::repeated_name;
use std::alloc::{AllocError, Global};

/// A name that two arguments of one field have. An error is want of memory.
fn repeated_argument<S>(alloc: Global, fields: &[Field<S>]) -> Result<Option<&str>, AllocError>
    ensures { IfOk result (Finds (λ name. list_any (λ field.
        stands_twice (map (λ argument. argument.name) (arguments_of field)) name) fields.now)) }
{
    'fields: for field in fields {
        if let Some(name) = repeated_name(alloc, field.arguments())? {
            return Ok(Some(name));
        }
    }
    Ok(None)
}

/// A name that stands twice in one of the scopes of a type. An error is want of memory.
fn repeated_within<S, C>(alloc: Global, meta: &MetaType<S, C>) -> Result<Option<&str>, AllocError>
    ensures { IfOk result
        (Finds (λ name. list_any (λ names. stands_twice names name) (scopes_of meta.now))) }
{
    if let Some(name) = repeated_name(alloc, meta.fields())? {
        return Ok(Some(name));
    }
    if let Some(name) = repeated_name(alloc, meta.enum_values())? {
        return Ok(Some(name));
    }
    if let Some(name) = repeated_name(alloc, meta.input_fields())? {
        return Ok(Some(name));
    }
    repeated_argument(alloc, meta.fields())
}

/// A name that stands twice in one of the scopes of one of the types. An error is want of memory.
pub(super) fn repeated_part<S, C>(
    alloc: Global,
    types: &[MetaType<S, C>],
) -> Result<Option<&str>, AllocError>
    ensures { IfOk result (Finds (λ name.
        list_any (λ m. list_any (λ names. stands_twice names name) (scopes_of m)) types.now)) }
{
    'types: for meta in types {
        if let Some(name) = repeated_within(alloc, meta)? {
            return Ok(Some(name));
        }
    }
    Ok(None)
}
