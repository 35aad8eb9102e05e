//! What a schema declares of the types of fields.

ghost use Rattle.std.specs.Prelude.{◌≡◌, Some, None};
ghost use Rattle.std.specs.Option.{option_map};
ghost use Rattle.graphql_occurrences.specs.DeclaredLent.{literal_of};
ghost use Rattle.graphql_merging.specs.Members as members;
ghost use Rattle.graphql_merging.specs.Merging as merging;

use graphql_occurrences::{TypeLiteral, field_of, type_of_field};
use graphql_schema::{MetaType, SchemaType};

/// The type of the field of this name, where its parent has it.
pub(crate) fn declared_type<'t, S, C>(
    parent: &'t MetaType<S, C>,
    name: &str,
) -> Option<TypeLiteral<'t>>
    ensures { option_map literal_of result ≡ members.declared_type parent.now name.now }
{
    type_of_field(field_of(Some(parent), name))
}

/// Whether the type of this name is a scalar or an enum.
pub(crate) fn is_leaf<S, C>(schema: &SchemaType<S, C>, name: &str) -> bool
    ensures { result ≡ merging.is_leaf schema.now.types name.now }
{
    match schema.concrete_type_by_name(name) {
        Some(MetaType::Scalar(_)) => true,
        Some(MetaType::Enum(_)) => true,
        _ => false,
    }
}

/// Whether the two are different object types.
pub(crate) fn are_different_objects<S, C>(left: &MetaType<S, C>, right: &MetaType<S, C>) -> bool
    ensures { result ≡ merging.are_different_objects left.now right.now }
{
    match left {
        MetaType::Object(object) => match right {
            MetaType::Object(other) => object.name.as_str() != other.name.as_str(),
            _ => false,
        },
        _ => false,
    }
}
