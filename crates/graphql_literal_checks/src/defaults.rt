//! Whether defaults conform to the types of what they are given to.

ghost use Rattle.std.specs.Prelude.{◌↔◌, IfOk, IsTrue, map};
ghost use Rattle.std.specs.List.{All};
ghost use Rattle.graphql_literal_checks.specs.Conforms.{Conforms};
ghost use Rattle.graphql_literal_checks.specs.declared.source.Source.TheVariants.{Literal};
ghost use Rattle.graphql_literal_checks.specs.Defaults as spec;

use crate::validate_literal_value;
use graphql_names::Type;
use graphql_schema::{Argument, Field, Meaning, MetaType, SchemaScalar, SchemaType};
use graphql_text::Text;
use graphql_values::InputValue;
use std::alloc::{AllocError, Global};

/// Whether a value conforms to a type. An error is want of memory.
fn value_conforms<S: SchemaScalar>(
    alloc: Global,
    schema: &SchemaType<S>,
    asked: &Type<Text>,
    value: &InputValue<S>,
) -> Result<bool, AllocError>
    ensures { IfOk result (λ told.
        IsTrue told
        ↔ Conforms ⟦<S as Meaning>⟧.meaning schema.now.types Literal asked.now value.now) }
{
    match validate_literal_value(alloc, schema, asked, value)? {
        Some(_) => Ok(false),
        None => Ok(true),
    }
}

/// Whether the default of an argument or an input field, where it has one, conforms to its type. An
/// error is want of memory.
fn argument_conforms<S: SchemaScalar>(
    alloc: Global,
    schema: &SchemaType<S>,
    argument: &Argument<S>,
) -> Result<bool, AllocError>
    ensures { IfOk result (λ told.
        IsTrue told
        ↔ spec.ArgumentConforms ⟦<S as Meaning>⟧.meaning schema.now.types argument.now) }
{
    match &argument.default_value {
        Some(value) => value_conforms(alloc, schema, &argument.arg_type, value),
        None => Ok(true),
    }
}

/// Whether the defaults of these arguments conform. An error is want of memory.
fn arguments_conform<S: SchemaScalar>(
    alloc: Global,
    schema: &SchemaType<S>,
    arguments: &[Argument<S>],
) -> Result<bool, AllocError>
    ensures { IfOk result (λ told.
        IsTrue told
        ↔ All (spec.ArgumentConforms ⟦<S as Meaning>⟧.meaning schema.now.types) arguments.now) }
{
    'arguments: for argument in arguments {
        if !argument_conforms(alloc, schema, argument)? {
            return Ok(false);
        }
    }
    Ok(true)
}

/// Whether the defaults of the field's arguments conform. An error is want of memory.
fn field_conforms<S: SchemaScalar>(
    alloc: Global,
    schema: &SchemaType<S>,
    field: &Field<S>,
) -> Result<bool, AllocError>
    ensures { IfOk result (λ told.
        IsTrue told ↔ spec.FieldConforms ⟦<S as Meaning>⟧.meaning schema.now.types field.now) }
{
    arguments_conform(alloc, schema, field.arguments())
}

/// Whether the defaults of the arguments of these fields conform. An error is want of memory.
fn fields_conform<S: SchemaScalar>(
    alloc: Global,
    schema: &SchemaType<S>,
    fields: &[Field<S>],
) -> Result<bool, AllocError>
    ensures { IfOk result (λ told.
        IsTrue told
        ↔ All (spec.FieldConforms ⟦<S as Meaning>⟧.meaning schema.now.types) fields.now) }
{
    'fields: for field in fields {
        if !field_conforms(alloc, schema, field)? {
            return Ok(false);
        }
    }
    Ok(true)
}

/// Whether the defaults in the type conform: those of the arguments of its fields, and those of its
/// input fields. An error is want of memory.
fn type_conforms<S: SchemaScalar>(
    alloc: Global,
    schema: &SchemaType<S>,
    meta: &MetaType<S>,
) -> Result<bool, AllocError>
    ensures { IfOk result (λ told.
        IsTrue told ↔ spec.TypeConforms ⟦<S as Meaning>⟧.meaning schema.now.types meta.now) }
{
    if !fields_conform(alloc, schema, meta.fields())? {
        return Ok(false);
    }
    arguments_conform(alloc, schema, meta.input_fields())
}

/// Whether each default that the type of this name declares conforms to the type of its argument or
/// input field, as a literal that is written there (GraphQL October 2021, 5.6.1 Values of Correct
/// Type). A name that no type of the schema has declares none.
///
/// The only error is want of memory, which tells nothing of the defaults.
pub fn type_defaults_conform<S: SchemaScalar>(
    alloc: Global,
    schema: &SchemaType<S>,
    name: &str,
) -> Result<bool, AllocError>
    ensures { IfOk result (λ told.
        IsTrue told ↔ spec.NamedConforms ⟦<S as Meaning>⟧.meaning schema.now.types name.now) }
{
    match schema.concrete_type_by_name(name) {
        Some(meta) => type_conforms(alloc, schema, meta),
        None => Ok(true),
    }
}

/// The first of these names whose type declares a default that does not conform, as
/// [`type_defaults_conform`] says, if there is one. The only error is want of memory, which tells
/// nothing of the defaults.
pub fn first_with_bad_default<'a, S: SchemaScalar>(
    alloc: Global,
    schema: &SchemaType<S>,
    names: &[&'a str],
) -> Result<Option<&'a str>, AllocError>
    ensures { IfOk result (spec.IsFirstUnfit ⟦<S as Meaning>⟧.meaning schema.now.types
        (map (λ name. name.now) names.now)) }
{
    'names: for name in names {
        if !type_defaults_conform(alloc, schema, *name)? {
            return Ok(Some(*name));
        }
    }
    Ok(None)
}
