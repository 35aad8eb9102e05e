//! The types of introspection, in rows (GraphQL October 2021, 4.2 Schema Introspection).

ghost use Rattle.std.specs.Prelude.{◌≡◌, map};
ghost use Rattle.graphql_introspection.specs.Metadata as spec;

use crate::part::PartKind;
use graphql_names::TypeModifier;
use graphql_schema::{DirectiveLocation, TypeKind};

/// What a field of introspection takes, and whether it is deprecated.
#[derive(Clone, Copy)]
pub enum FieldForm {
    /// It takes nothing.
    Plain,

    /// It takes `includeDeprecated: Boolean = false`.
    Including,

    /// It takes nothing, and is deprecated.
    Deprecated,
}

/// A field in short: its name, the name of its type, the wraps of that, the innermost first, and
/// its form.
pub type FieldRow = (
    &'static str,
    &'static str,
    &'static [TypeModifier],
    FieldForm,
);

const NULLABLE: &[TypeModifier] = &[];

const NON_NULL: &[TypeModifier] = &[TypeModifier::NonNull];

const LIST: &[TypeModifier] = &[TypeModifier::NonNull, TypeModifier::List(None)];

const NON_NULL_LIST: &[TypeModifier] = &[
    TypeModifier::NonNull,
    TypeModifier::List(None),
    TypeModifier::NonNull,
];

const SCHEMA: &[FieldRow] = &[
    ("description", "String", NULLABLE, FieldForm::Plain),
    ("types", "__Type", NON_NULL_LIST, FieldForm::Plain),
    ("queryType", "__Type", NON_NULL, FieldForm::Plain),
    ("mutationType", "__Type", NULLABLE, FieldForm::Plain),
    ("subscriptionType", "__Type", NULLABLE, FieldForm::Plain),
    ("directives", "__Directive", NON_NULL_LIST, FieldForm::Plain),
];

const TYPE: &[FieldRow] = &[
    ("name", "String", NULLABLE, FieldForm::Plain),
    ("description", "String", NULLABLE, FieldForm::Plain),
    ("specifiedByUrl", "String", NULLABLE, FieldForm::Plain),
    ("kind", "__TypeKind", NON_NULL, FieldForm::Plain),
    ("fields", "__Field", LIST, FieldForm::Including),
    ("ofType", "__Type", NULLABLE, FieldForm::Plain),
    ("inputFields", "__InputValue", LIST, FieldForm::Plain),
    ("interfaces", "__Type", LIST, FieldForm::Plain),
    ("possibleTypes", "__Type", LIST, FieldForm::Plain),
    ("enumValues", "__EnumValue", LIST, FieldForm::Including),
    ("isOneOf", "Boolean", NULLABLE, FieldForm::Plain),
];

const FIELD: &[FieldRow] = &[
    ("name", "String", NON_NULL, FieldForm::Plain),
    ("description", "String", NULLABLE, FieldForm::Plain),
    ("args", "__InputValue", NON_NULL_LIST, FieldForm::Plain),
    ("type", "__Type", NON_NULL, FieldForm::Plain),
    ("isDeprecated", "Boolean", NON_NULL, FieldForm::Plain),
    ("deprecationReason", "String", NULLABLE, FieldForm::Plain),
];

const INPUT_VALUE: &[FieldRow] = &[
    ("name", "String", NON_NULL, FieldForm::Plain),
    ("description", "String", NULLABLE, FieldForm::Plain),
    ("type", "__Type", NON_NULL, FieldForm::Plain),
    ("defaultValue", "String", NULLABLE, FieldForm::Plain),
];

const ENUM_VALUE: &[FieldRow] = &[
    ("name", "String", NON_NULL, FieldForm::Plain),
    ("description", "String", NULLABLE, FieldForm::Plain),
    ("isDeprecated", "Boolean", NON_NULL, FieldForm::Plain),
    ("deprecationReason", "String", NULLABLE, FieldForm::Plain),
];

const DIRECTIVE: &[FieldRow] = &[
    ("name", "String", NON_NULL, FieldForm::Plain),
    ("description", "String", NULLABLE, FieldForm::Plain),
    (
        "locations",
        "__DirectiveLocation",
        NON_NULL_LIST,
        FieldForm::Plain,
    ),
    ("isRepeatable", "Boolean", NON_NULL, FieldForm::Plain),
    ("args", "__InputValue", NON_NULL_LIST, FieldForm::Plain),
    ("onOperation", "Boolean", NON_NULL, FieldForm::Deprecated),
    ("onFragment", "Boolean", NON_NULL, FieldForm::Deprecated),
    ("onField", "Boolean", NON_NULL, FieldForm::Deprecated),
];

/// The objects of introspection.
pub const OBJECTS: &[PartKind] = &[
    PartKind::Schema,
    PartKind::Type,
    PartKind::Field,
    PartKind::InputValue,
    PartKind::EnumValue,
    PartKind::Directive,
];

/// The values of `__TypeKind`.
pub const TYPE_KINDS: &[TypeKind] = &[
    TypeKind::Scalar,
    TypeKind::Object,
    TypeKind::Interface,
    TypeKind::Union,
    TypeKind::Enum,
    TypeKind::InputObject,
    TypeKind::List,
    TypeKind::NonNull,
];

/// The values of `__DirectiveLocation`.
pub const DIRECTIVE_LOCATIONS: &[DirectiveLocation] = &[
    DirectiveLocation::Query,
    DirectiveLocation::Mutation,
    DirectiveLocation::Subscription,
    DirectiveLocation::Field,
    DirectiveLocation::FragmentDefinition,
    DirectiveLocation::FragmentSpread,
    DirectiveLocation::InlineFragment,
    DirectiveLocation::VariableDefinition,
    DirectiveLocation::Scalar,
    DirectiveLocation::FieldDefinition,
    DirectiveLocation::EnumValue,
];

/// The fields of a type of introspection.
pub fn rows_of(kind: PartKind) -> &'static [FieldRow]
    ensures { map spec.row result.now ≡ spec.rows_of kind }
{
    match kind {
        PartKind::Schema => SCHEMA,
        PartKind::Type => TYPE,
        PartKind::Field => FIELD,
        PartKind::InputValue => INPUT_VALUE,
        PartKind::EnumValue => ENUM_VALUE,
        PartKind::Directive => DIRECTIVE,
    }
}
