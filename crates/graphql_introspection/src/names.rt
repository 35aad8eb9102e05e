//! The names of the values of the enums of introspection.

ghost use Rattle.std.specs.Prelude.{◌≡◌};
ghost use Rattle.graphql_introspection.specs.Names as spec;

use graphql_schema::{DirectiveLocation, TypeKind};

/// The value of `__TypeKind` that a kind of types is (GraphQL October 2021, 4.2.2 The __Type Type).
pub fn kind_name(kind: TypeKind) -> &'static str
    ensures { result.now ≡ spec.kind_name kind }
{
    match kind {
        TypeKind::Scalar => "SCALAR",
        TypeKind::Object => "OBJECT",
        TypeKind::Interface => "INTERFACE",
        TypeKind::Union => "UNION",
        TypeKind::Enum => "ENUM",
        TypeKind::InputObject => "INPUT_OBJECT",
        TypeKind::List => "LIST",
        TypeKind::NonNull => "NON_NULL",
    }
}

/// The value of `__DirectiveLocation` that a place of directives is (GraphQL October 2021, 4.2.6
/// The __Directive Type).
pub fn location_name(location: DirectiveLocation) -> &'static str
    ensures { result.now ≡ spec.location_name location }
{
    match location {
        DirectiveLocation::Query => "QUERY",
        DirectiveLocation::Mutation => "MUTATION",
        DirectiveLocation::Subscription => "SUBSCRIPTION",
        DirectiveLocation::Field => "FIELD",
        DirectiveLocation::Scalar => "SCALAR",
        DirectiveLocation::FragmentDefinition => "FRAGMENT_DEFINITION",
        DirectiveLocation::FieldDefinition => "FIELD_DEFINITION",
        DirectiveLocation::VariableDefinition => "VARIABLE_DEFINITION",
        DirectiveLocation::FragmentSpread => "FRAGMENT_SPREAD",
        DirectiveLocation::InlineFragment => "INLINE_FRAGMENT",
        DirectiveLocation::EnumValue => "ENUM_VALUE",
    }
}
