//! Whether the texts of types are type references.

ghost use Rattle.std.specs.Prelude.{◌≡◌, ◌↔◌, IfOk, IsTrue};
ghost use Rattle.std.specs.List.{All};
ghost use Rattle.graphql_schema_files.specs.DraftedTypes as spec;
ghost use Rattle.graphql_schema_files.specs.SpelledTexts.{HasType};

use crate::texts::type_in;
use crate::{ArgumentDraft, FieldDraft, TypeDraft};
use graphql_text::TextRef;
use std::alloc::{AllocError, Global};

/// Whether a text is a type reference. An error is want of memory.
pub(crate) fn is_type(alloc: Global, text: &TextRef<'_>) -> Result<bool, AllocError>
    ensures { IfOk result (λ told. IsTrue told ↔ HasType text.now) }
{
    match type_in(alloc, text)? {
        Some(_) => Ok(true),
        None => Ok(false),
    }
}

/// Whether the type of each argument is a type reference. An error is want of memory.
fn arguments_have_types(alloc: Global, arguments: &[ArgumentDraft<'_>]) -> Result<bool, AllocError>
    ensures { IfOk result (λ told. IsTrue told ↔ All spec.ArgumentHasType arguments.now) }
{
    'arguments: for argument in arguments {
        if !is_type(alloc, &argument.type_text)? {
            return Ok(false);
        }
    }
    Ok(true)
}

/// Whether the types of the field and its arguments are type references. An error is want of
/// memory.
fn field_has_types(alloc: Global, field: &FieldDraft<'_>) -> Result<bool, AllocError>
    ensures { IfOk result (λ told. IsTrue told ↔ spec.FieldHasTypes field.now) }
{
    if !is_type(alloc, &field.type_text)? {
        return Ok(false);
    }
    arguments_have_types(alloc, field.arguments.as_slice())
}

/// Whether the types of each field and its arguments are type references. An error is want of
/// memory.
fn fields_have_types(alloc: Global, fields: &[FieldDraft<'_>]) -> Result<bool, AllocError>
    ensures { IfOk result (λ told. IsTrue told ↔ All spec.FieldHasTypes fields.now) }
{
    'fields: for field in fields {
        if !field_has_types(alloc, field)? {
            return Ok(false);
        }
    }
    Ok(true)
}

/// Whether the types of a type's fields and their arguments are type references. An error is want
/// of memory.
fn type_has_types(alloc: Global, draft: &TypeDraft<'_>) -> Result<bool, AllocError>
    ensures { IfOk result (λ told. IsTrue told ↔ spec.TypeHasTypes draft.now) }
{
    fields_have_types(alloc, draft.fields.as_slice())
}

/// Whether the types of all fields and arguments of these types are type references (GraphQL
/// October 2021, 2.11 Type References). An error is want of memory.
pub fn have_types(alloc: Global, types: &[TypeDraft<'_>]) -> Result<bool, AllocError>
    ensures { IfOk result (λ told. IsTrue told ↔ All spec.TypeHasTypes types.now) }
{
    'types: for draft in types {
        if !type_has_types(alloc, draft)? {
            return Ok(false);
        }
    }
    Ok(true)
}
