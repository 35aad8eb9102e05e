//! What a schema answers of itself (GraphQL October 2021, 4.2.1 The __Schema Type).

ghost use Rattle.std.specs.Prelude.{◌≡◌, map};
ghost use Rattle.graphql_text.specs.Memory.{Gives, GivesBy};
ghost use Rattle.graphql_schema.specs.Lookups.{by_kind};
ghost use Rattle.graphql_introspection.specs.Answers as spec;
ghost use Rattle.graphql_introspection.specs.Nodes.{bare_types};
ghost use Rattle.graphql_introspection.specs.Told.{told_types};

use crate::leaves::text_or_null;
use crate::nodes::{SchemaAnswer, bare, bare_or_null, bare_types, directives};
use crate::told::is_told_type;
use graphql_field_results::Resolved;
use graphql_schema::{MetaType, SchemaScalar, SchemaType};
use graphql_text::Items;
use std::alloc::{AllocError, Global};

/// Those of the types that are told, lent, in order. An error is want of memory.
fn told_types<'s, S: SchemaScalar>(
    alloc: Global,
    types: &[&'s MetaType<S>],
) -> Result<Items<&'s MetaType<S>>, AllocError>
    ensures { GivesBy (map (λ m. m.now)) result (told_types (map (λ m. m.now) types.now)) }
{
    let mut told = Items::with_capacity(alloc, types.len())?;
    'types: for meta in types {
        if is_told_type(*meta) {
            told.push(*meta)?;
        }
    }
    Ok(told)
}

/// The types of the schema that are told. An error is want of memory.
fn all_types<'s, S: SchemaScalar + Drop>(
    alloc: Global,
    schema: &'s SchemaType<S>,
) -> Result<SchemaAnswer<'s, S>, AllocError>
    ensures { Gives result (bare_types (told_types (by_kind schema.now.types))) }
{
    let all = schema.concrete_type_list(alloc)?;
    let told = told_types(alloc, all.as_slice())?;
    bare_types(alloc, told.as_slice())
}

/// What a schema answers. An error is want of memory.
pub fn of_schema<'s, S: SchemaScalar + Drop>(
    alloc: Global,
    schema: &'s SchemaType<S>,
    field: &str,
) -> Result<SchemaAnswer<'s, S>, AllocError>
    ensures { Gives result (spec.of_schema S.of_text schema.now field.now) }
{
    match field {
        "description" => text_or_null(alloc, schema.description()),
        "types" => all_types(alloc, schema),
        "queryType" => Ok(bare(schema.concrete_query_type())),
        "mutationType" => Ok(bare_or_null(schema.concrete_mutation_type())),
        "subscriptionType" => Ok(bare_or_null(schema.concrete_subscription_type())),
        "directives" => directives(alloc, schema.directive_list()),
        _ => Ok(Resolved::Null),
    }
}
