//! What a schema declares of a field of an object type, and of the types of its values.

ghost use Rattle.std.specs.Prelude.{◌≡◌, [], IfSome, is_some};
ghost use Rattle.std.specs.Option.{option_map};
ghost use Rattle.graphql_occurrences.specs.DeclaredLent.{field_of_known, literal_of};
ghost use Rattle.graphql_occurrences.specs.DeclaredLookups as lookups;
ghost use Rattle.graphql_schema.specs.Types.{own_name};
ghost use Rattle.graphql_schema.specs.Lookups.{type_named};
ghost use Rattle.graphql_execution_walk.specs.FieldDeclarations as spec;

use graphql_occurrences::{KnownField, TypeLiteral, arguments_of_field, field_of, type_of_field};
use graphql_schema::{Argument, MetaType, SchemaType};

/// What the schema says of a field of the object type of this name.
fn known_field<'t, S, C>(
    schema: &'t SchemaType<S, C>,
    object: &str,
    name: &str,
) -> Option<KnownField<'t, S>>
    ensures { option_map field_of_known result
        ≡ lookups.field_of (type_named schema.now.types object.now) name.now }
{
    field_of(schema.concrete_type_by_name(object), name)
}

/// The type of a field of the object type of this name, where the schema declares it.
pub fn declared_type<'t, S, C>(
    schema: &'t SchemaType<S, C>,
    object: &str,
    name: &str,
) -> Option<TypeLiteral<'t>>
    ensures { option_map literal_of result
        ≡ spec.declared_type schema.now.types object.now name.now }
{
    type_of_field(known_field(schema, object, name))
}

/// The arguments that are declared for a field of the object type of this name.
pub fn declared_arguments<'t, S, C>(
    schema: &'t SchemaType<S, C>,
    object: &str,
    name: &str,
) -> &'t [Argument<S>]
    ensures { result.now ≡ spec.declared_arguments schema.now.types object.now name.now }
{
    match arguments_of_field(known_field(schema, object, name)) {
        Some(declared) => declared.as_slice(),
        None => &[],
    }
}

/// Whether the type of this name is a scalar or an enum.
pub(crate) fn is_leaf<S, C>(schema: &SchemaType<S, C>, name: &str) -> bool
    ensures { result ≡ spec.is_leaf_named schema.now.types name.now }
{
    match schema.concrete_type_by_name(name) {
        Some(MetaType::Scalar(_)) => true,
        Some(MetaType::Enum(_)) => true,
        _ => false,
    }
}

/// The name of a type.
fn name_of<S, C>(meta: &MetaType<S, C>) -> &str
    ensures { result.now ≡ own_name meta.now }
{
    match meta.name() {
        Some(name) => name,
        None => "",
    }
}

/// The name of the object type from which queries start (GraphQL October 2021, 3.3.1 Root Operation
/// Types).
pub fn query_root_name<S, C>(schema: &SchemaType<S, C>) -> &str
    ensures { result.now ≡ schema.now.query }
{
    name_of(schema.concrete_query_type())
}

/// The name of an object type, as the schema has it, where an object of it can stand at a place of
/// a type.
pub(crate) fn possible_name<'t, S, C>(
    schema: &'t SchemaType<S, C>,
    at: &str,
    object: &str,
) -> Option<&'t str>
    ensures possible { is_some result ≡ spec.is_possible_named schema.now.types at.now object.now }
    ensures name { IfSome result (λ name. name.now ≡ object.now) }
{
    let Some(at) = schema.concrete_type_by_name(at) else {
        return None;
    };
    let Some(object) = schema.concrete_type_by_name(object) else {
        return None;
    };
    if schema.is_possible_type(at, object) {
        Some(name_of(object))
    } else {
        None
    }
}
