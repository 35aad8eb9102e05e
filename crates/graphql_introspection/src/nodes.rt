//! Parts as answers, and lists of them.

ghost use Rattle.std.specs.Prelude.{◌≡◌, map};
ghost use Rattle.std.specs.Option.{option_copied};
ghost use Rattle.graphql_text.specs.Memory.{Gives};
ghost use Rattle.graphql_introspection.specs.Nodes as spec;
ghost use Rattle.graphql_introspection.specs.Told.{told_fields, told_values};

use crate::lent::{Lent, LentWraps};
use crate::part::SchemaPart;
use crate::told::{is_told, is_told_field};
use graphql_field_results::Resolved;
use graphql_names::{Type, TypeModifier};
use graphql_schema::{
    Argument, DirectiveType, EnumValue, Field, MetaType, SchemaScalar, SchemaType,
};
use graphql_text::{Items, Text};
use std::alloc::{AllocError, Global};

/// What a part of a schema answers for a field: a scalar, a part, a list of these, or `null`.
pub type SchemaAnswer<'s, S> = Resolved<S, SchemaPart<'s, S>>;

/// A type within wraps, the innermost first.
pub fn wrapped<'s, S: SchemaScalar>(
    meta: &'s MetaType<S>,
    wraps: &'s [TypeModifier],
) -> SchemaAnswer<'s, S>
    ensures { result ≡ spec.wrapped wraps.now meta.now }
{
    Resolved::Node(SchemaPart::Type(Lent::new(meta), LentWraps::new(wraps)))
}

/// A type without wraps: `null` is among its values.
pub fn bare<'s, S: SchemaScalar>(meta: &'s MetaType<S>) -> SchemaAnswer<'s, S>
    ensures { result ≡ spec.bare_type meta.now }
{
    wrapped(meta, &[])
}

/// A type without wraps; `null` where there is none.
pub fn bare_or_null<'s, S: SchemaScalar>(meta: Option<&'s MetaType<S>>) -> SchemaAnswer<'s, S>
    ensures { result ≡ spec.bare_or_null (option_copied meta.entry) }
{
    match meta {
        Some(meta) => bare(meta),
        None => Resolved::Null,
    }
}

/// Types without wraps, in order. An error is want of memory.
pub fn bare_types<'s, S: SchemaScalar + Drop>(
    alloc: Global,
    types: &[&'s MetaType<S>],
) -> Result<SchemaAnswer<'s, S>, AllocError>
    ensures { Gives result (spec.bare_types (map (λ m. m.now) types.now)) }
{
    let mut list = Items::with_capacity(alloc, types.len())?;
    'types: for meta in types {
        list.push(bare(*meta))?;
    }
    Ok(Resolved::List(list))
}

/// The type that a reference means, within its wraps.
pub fn referred<'s, S: SchemaScalar>(
    schema: &'s SchemaType<S>,
    reference: &'s Type<Text>,
) -> SchemaAnswer<'s, S>
    ensures { result ≡ spec.referred schema.now.types reference.now }
{
    match schema.concrete_type_by_name(reference.name.as_str()) {
        Some(meta) => wrapped(meta, reference.modifiers.as_slice()),
        None => Resolved::Null,
    }
}

/// Arguments, in order. An error is want of memory.
pub fn arguments<'s, S: SchemaScalar + Drop>(
    alloc: Global,
    arguments: &'s [Argument<S>],
) -> Result<SchemaAnswer<'s, S>, AllocError>
    ensures { Gives result (spec.argument_nodes arguments.now) }
{
    let mut list = Items::with_capacity(alloc, arguments.len())?;
    'arguments: for argument in arguments {
        list.push(Resolved::Node(SchemaPart::InputValue(Lent::new(argument))))?;
    }
    Ok(Resolved::List(list))
}

/// Those of the fields that are told, in order. An error is want of memory.
pub fn fields<'s, S: SchemaScalar + Drop>(
    alloc: Global,
    include: bool,
    fields: &'s [Field<S>],
) -> Result<SchemaAnswer<'s, S>, AllocError>
    ensures { Gives result (spec.field_nodes (told_fields include fields.now)) }
{
    let mut list = Items::new(alloc);
    'fields: for field in fields {
        if is_told_field(include, field) {
            list.push(Resolved::Node(SchemaPart::Field(Lent::new(field))))?;
        }
    }
    Ok(Resolved::List(list))
}

/// Those of the values that are told, in order. An error is want of memory.
pub fn enum_values<'s, S: SchemaScalar + Drop>(
    alloc: Global,
    include: bool,
    values: &'s [EnumValue],
) -> Result<SchemaAnswer<'s, S>, AllocError>
    ensures { Gives result (spec.enum_values (told_values include values.now)) }
{
    let mut list = Items::new(alloc);
    'values: for value in values {
        if is_told(include, &value.deprecation_status) {
            list.push(Resolved::Node(SchemaPart::EnumValue(Lent::new(value))))?;
        }
    }
    Ok(Resolved::List(list))
}

/// Directives, in order. An error is want of memory.
pub fn directives<'s, S: SchemaScalar + Drop>(
    alloc: Global,
    directives: &'s [DirectiveType<S>],
) -> Result<SchemaAnswer<'s, S>, AllocError>
    ensures { Gives result (spec.directives directives.now) }
{
    let mut list = Items::with_capacity(alloc, directives.len())?;
    'directives: for directive in directives {
        list.push(Resolved::Node(SchemaPart::Directive(Lent::new(directive))))?;
    }
    Ok(Resolved::List(list))
}
