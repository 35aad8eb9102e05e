//! Which default of a file does not conform to the type of its argument.

ghost use Rattle.std.specs.Prelude.{IfOk};
ghost use Rattle.graphql_schema_files.specs.FirstItems.{IsFirst};
ghost use Rattle.graphql_schema_files.specs.UnfitDefaults as spec;

use crate::TypeDraft;
use crate::declaration_place::{DeclarationPlace, FieldPlace};
use graphql_literal_checks::validate_literal_value;
use graphql_schema::{Argument, Field, Meaning, MetaType, SchemaScalar, SchemaType};
use graphql_text::Text;
use std::alloc::{AllocError, Global};

/// The name of an argument, or of an input field, whose default does not conform. An error is want
/// of memory.
#[tactic(auto, using(crate::proofs::Unfitting::argument_steps))]
fn unfit_argument<S: SchemaScalar>(
    alloc: Global,
    schema: &SchemaType<S>,
    argument: &Argument<S>,
) -> Result<Option<Text>, AllocError>
    ensures { IfOk result (spec.IsUnfitArgument ⟦<S as Meaning>⟧.meaning schema.now.types
        argument.now) }
{
    let Some(value) = &argument.default_value else {
        return Ok(None);
    };
    match validate_literal_value(alloc, schema, &argument.arg_type, value)? {
        Some(_) => Ok(Some(Text::from_str(alloc, argument.name.as_str())?)),
        None => Ok(None),
    }
}

/// The name of the first of these whose default does not conform. An error is want of memory.
fn argument_among<S: SchemaScalar>(
    alloc: Global,
    schema: &SchemaType<S>,
    arguments: &[Argument<S>],
) -> Result<Option<Text>, AllocError>
    ensures { IfOk result (IsFirst
        (spec.IsUnfitArgument ⟦<S as Meaning>⟧.meaning schema.now.types) arguments.now) }
{
    'arguments: for argument in arguments {
        match unfit_argument(alloc, schema, argument)? {
            Some(name) => return Ok(Some(name)),
            None => {}
        }
    }
    Ok(None)
}

/// The place of the first argument of a field whose default does not conform. An error is want of
/// memory.
#[tactic(auto, using(crate::proofs::Unfitting::field_steps))]
fn unfit_field<S: SchemaScalar>(
    alloc: Global,
    schema: &SchemaType<S>,
    field: &Field<S>,
) -> Result<Option<FieldPlace>, AllocError>
    ensures { IfOk result (spec.IsUnfitField ⟦<S as Meaning>⟧.meaning schema.now.types
        field.now) }
{
    match argument_among(alloc, schema, field.arguments())? {
        Some(argument) => {
            let name = Text::from_str(alloc, field.name.as_str())?;
            Ok(Some(FieldPlace {
                name,
                argument: Some(argument),
            }))
        }
        None => Ok(None),
    }
}

/// The place of the first such argument of these fields. An error is want of memory.
fn field_among<S: SchemaScalar>(
    alloc: Global,
    schema: &SchemaType<S>,
    fields: &[Field<S>],
) -> Result<Option<FieldPlace>, AllocError>
    ensures { IfOk result (IsFirst
        (spec.IsUnfitField ⟦<S as Meaning>⟧.meaning schema.now.types) fields.now) }
{
    'fields: for field in fields {
        match unfit_field(alloc, schema, field)? {
            Some(place) => return Ok(Some(place)),
            None => {}
        }
    }
    Ok(None)
}

/// The place of the first argument of a type's fields, or else of the first of its input fields,
/// whose default does not conform. An error is want of memory.
#[tactic(auto, using(crate::proofs::Unfitting::meta_steps))]
fn unfit_meta<S: SchemaScalar>(
    alloc: Global,
    schema: &SchemaType<S>,
    meta: &MetaType<S>,
) -> Result<Option<FieldPlace>, AllocError>
    ensures { IfOk result (spec.IsUnfitMeta ⟦<S as Meaning>⟧.meaning schema.now.types meta.now) }
{
    if let Some(place) = field_among(alloc, schema, meta.fields())? {
        return Ok(Some(place));
    }
    match argument_among(alloc, schema, meta.input_fields())? {
        Some(name) => Ok(Some(FieldPlace {
            name,
            argument: None,
        })),
        None => Ok(None),
    }
}

/// The place of the first such default in the type that a draft declares, as the schema holds it.
/// An error is want of memory.
#[tactic(auto, using(crate::proofs::Unfitting::type_steps))]
fn unfit_type<S: SchemaScalar>(
    alloc: Global,
    schema: &SchemaType<S>,
    draft: &TypeDraft<'_>,
) -> Result<Option<DeclarationPlace>, AllocError>
    ensures { IfOk result (spec.IsUnfitType ⟦<S as Meaning>⟧.meaning schema.now.types
        draft.now) }
{
    let Some(meta) = schema.concrete_type_by_name(draft.name.as_str()) else {
        return Ok(None);
    };
    match unfit_meta(alloc, schema, meta)? {
        Some(field) => {
            let type_name = Text::from_str(alloc, draft.name.as_str())?;
            Ok(Some(DeclarationPlace {
                type_name,
                field: Some(field),
            }))
        }
        None => Ok(None),
    }
}

/// The place of the first default that does not conform in the types that these drafts declare, as
/// the schema holds them. An error is want of memory.
pub(crate) fn unfit_default<S: SchemaScalar>(
    alloc: Global,
    schema: &SchemaType<S>,
    drafts: &[TypeDraft<'_>],
) -> Result<Option<DeclarationPlace>, AllocError>
    ensures { IfOk result (IsFirst
        (spec.IsUnfitType ⟦<S as Meaning>⟧.meaning schema.now.types) drafts.now) }
{
    'drafts: for draft in drafts {
        match unfit_type(alloc, schema, draft)? {
            Some(place) => return Ok(Some(place)),
            None => {}
        }
    }
    Ok(None)
}
