//! The parts of a schema.

ghost use Rattle.std.specs.Prelude.{◌≡◌};
ghost use Rattle.graphql_introspection.specs.Parts as spec;

use crate::lent::{Lent, LentWraps};
use graphql_schema::{Argument, DirectiveType, EnumValue, Field, MetaType, SchemaScalar};

/// A part of a schema, of which introspection tells (GraphQL October 2021, 4.2 Schema
/// Introspection). It lends what it is.
#[derive(Drop)]
pub enum SchemaPart<'s, S, C = <S as SchemaScalar>::Check> {
    /// The schema itself.
    Schema,

    /// A type, within wraps, the innermost first. Without wraps `null` is among its values.
    Type(Lent<'s, MetaType<S, C>>, LentWraps<'s>),

    /// A field of an object or an interface.
    Field(Lent<'s, Field<S>>),

    /// An argument, or a field of an input object.
    InputValue(Lent<'s, Argument<S>>),

    /// A value of an enum.
    EnumValue(Lent<'s, EnumValue>),

    /// A directive.
    Directive(Lent<'s, DirectiveType<S>>),
}

/// The types of parts (GraphQL October 2021, 4.2 Schema Introspection).
#[derive(Clone, Copy)]
pub enum PartKind {
    /// `__Schema`.
    Schema,

    /// `__Type`.
    Type,

    /// `__Field`.
    Field,

    /// `__InputValue`.
    InputValue,

    /// `__EnumValue`.
    EnumValue,

    /// `__Directive`.
    Directive,
}

impl PartKind {
    /// The name of the type.
    pub fn name(self) -> &'static str
        ensures { result.now ≡ spec.name_of_kind self }
    {
        match self {
            PartKind::Schema => "__Schema",
            PartKind::Type => "__Type",
            PartKind::Field => "__Field",
            PartKind::InputValue => "__InputValue",
            PartKind::EnumValue => "__EnumValue",
            PartKind::Directive => "__Directive",
        }
    }
}

impl<S: SchemaScalar> SchemaPart<'_, S> {
    /// The type of a part.
    pub fn kind(&self) -> PartKind
        ensures { result ≡ spec.kind_of self.now }
    {
        match self {
            SchemaPart::Schema => PartKind::Schema,
            SchemaPart::Type(_, _) => PartKind::Type,
            SchemaPart::Field(_) => PartKind::Field,
            SchemaPart::InputValue(_) => PartKind::InputValue,
            SchemaPart::EnumValue(_) => PartKind::EnumValue,
            SchemaPart::Directive(_) => PartKind::Directive,
        }
    }
}
