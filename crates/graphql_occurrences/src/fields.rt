//! The fields that types have.

ghost use Rattle.std.specs.Prelude.{◌≡◌};
ghost use Rattle.std.specs.Option.{option_copied, option_map};
ghost use Rattle.graphql_schema.specs.Types.{arguments_of};
ghost use Rattle.graphql_schema.specs.Declarations.{is_composite};
ghost use Rattle.graphql_occurrences.specs.DeclaredLookups as spec;
ghost use Rattle.graphql_occurrences.specs.DeclaredLent.{arguments_lent, field_of_known};
ghost use Rattle.graphql_occurrences.specs.DeclaredLent.{literal_of};

use crate::arguments::DeclaredArguments;
use crate::literal::TypeLiteral;
use graphql_schema::{Field, MetaType};

/// A field that its parent has: one that the schema declares, or `__typename`, which is a field of
/// each object, each interface and each union (GraphQL October 2021, 4.1 Type Name Introspection).
#[derive_where(Clone, Copy)]
pub struct KnownField<'a, S> {
    /// What the schema declares; `None` of `__typename`.
    pub declared: Option<&'a Field<S>>,
}

impl<'a, S> KnownField<'a, S> {
    /// The type of the field's values.
    pub fn type_literal(self) -> TypeLiteral<'a>
        ensures { literal_of result ≡ (field_of_known self.entry).field_type }
    {
        match self.declared {
            Some(field) => TypeLiteral::of(&field.field_type),
            None => TypeLiteral::named("String"),
        }
    }

    /// The arguments that are declared for the field.
    pub fn arguments(self) -> DeclaredArguments<'a, S>
        ensures { arguments_lent result ≡ arguments_of (field_of_known self.entry) }
    {
        DeclaredArguments::of(self.declared)
    }
}

/// Whether `__typename` is a field of the type: an object, an interface or a union.
fn has_typename<S, C>(meta: &MetaType<S, C>) -> bool
    ensures { result ≡ is_composite meta.now }
{
    meta.is_composite()
}

/// The field of this name that a type has.
fn field_of_type<'a, S, C>(meta: &'a MetaType<S, C>, name: &str) -> Option<KnownField<'a, S>>
    ensures { option_map field_of_known result ≡ spec.field_in meta.now name.now }
{
    if name == "__typename" && has_typename(meta) {
        return Some(KnownField { declared: None });
    }
    match meta.field_by_name(name) {
        Some(field) => Some(KnownField {
            declared: Some(field),
        }),
        None => None,
    }
}

/// The field of this name that a type has, if the type is known.
pub fn field_of<'a, S, C>(
    parent: Option<&'a MetaType<S, C>>,
    name: &str,
) -> Option<KnownField<'a, S>>
    ensures { option_map field_of_known result
        ≡ spec.field_of (option_copied parent.entry) name.now }
{
    match parent {
        Some(meta) => field_of_type(meta, name),
        None => None,
    }
}

/// The type of a field, if the field is known.
pub fn type_of_field<'a, S>(field: Option<KnownField<'a, S>>) -> Option<TypeLiteral<'a>>
    ensures { option_map literal_of result
        ≡ spec.field_type (option_map field_of_known field.entry) }
{
    match field {
        Some(field) => Some(field.type_literal()),
        None => None,
    }
}

/// The arguments that are declared for a field, if the field is known.
pub fn arguments_of_field<'a, S>(
    field: Option<KnownField<'a, S>>,
) -> Option<DeclaredArguments<'a, S>>
    ensures { option_map arguments_lent result
        ≡ spec.field_arguments (option_map field_of_known field.entry) }
{
    match field {
        Some(field) => Some(field.arguments()),
        None => None,
    }
}
