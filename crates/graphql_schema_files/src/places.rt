//! Where in a file of a schema its declarations break a rule.

ghost use Rattle.std.specs.Prelude.{◌↔◌, IfOk, IsTrue};
ghost use Rattle.graphql_text.specs.Memory.{Gives};
ghost use Rattle.serde_json.specs.View.{view};
ghost use Rattle.graphql_schema_files.specs.DraftedTypes.{IsDefault};
ghost use Rattle.graphql_schema_files.specs.Shapes.{schema_of};
ghost use Rattle.graphql_schema_files.specs.DeclarationPlaces as spec;

use crate::declaration_place::{DeclarationPlace, FieldPlace};
use crate::metadata::default_of;
use crate::named::is_name;
use crate::reading::json_of;
use crate::rule::Rule;
use crate::schema_file_error::SchemaFileError;
use crate::typed::is_type;
use crate::{ArgumentDraft, FieldDraft, SchemaDraft, TypeDraft, schema_of};
use graphql_text::{Text, TextRef};
use serde_json::Value;
use std::alloc::{AllocError, Global};

/// Whether a default, where there is one, is a constant literal. An error is want of memory.
#[tactic(auto, using(crate::proofs::Placing::default_told))]
fn is_default(alloc: Global, text: &Option<TextRef<'_>>) -> Result<bool, AllocError>
    ensures { IfOk result (λ told. IsTrue told ↔ IsDefault text.now) }
{
    let found = default_of(alloc, text)?;
    Ok(found.is_some())
}

/// Whether an argument keeps a rule. An error is want of memory.
#[tactic(auto, using(crate::proofs::Readings::same_test))]
fn argument_keeps(alloc: Global, rule: Rule, draft: &ArgumentDraft<'_>) -> Result<bool, AllocError>
    ensures { IfOk result (λ told. IsTrue told ↔ spec.ArgumentKeeps rule draft.now) }
{
    match rule {
        Rule::Names => Ok(is_name(draft.name.as_str())),
        Rule::Types => is_type(alloc, &draft.type_text),
        Rule::Defaults => is_default(alloc, &draft.default_text),
    }
}

/// Whether a field keeps a rule, its arguments aside. An error is want of memory.
#[tactic(auto, using(crate::proofs::Readings::same_test))]
fn field_keeps(alloc: Global, rule: Rule, draft: &FieldDraft<'_>) -> Result<bool, AllocError>
    ensures { IfOk result (λ told. IsTrue told ↔ spec.FieldKeeps rule draft.now) }
{
    match rule {
        Rule::Names => Ok(is_name(draft.name.as_str())),
        Rule::Types => is_type(alloc, &draft.type_text),
        Rule::Defaults => Ok(true),
    }
}

/// Whether a type keeps a rule, its fields aside.
#[tactic(auto, using(crate::proofs::Readings::same_test))]
fn type_keeps(rule: Rule, draft: &TypeDraft<'_>) -> bool
    ensures { IsTrue result ↔ spec.TypeKeeps rule draft.now }
{
    match rule {
        Rule::Names => is_name(draft.name.as_str()),
        Rule::Types | Rule::Defaults => true,
    }
}

/// The name of an argument that breaks a rule. An error is want of memory.
#[tactic(auto, using(crate::proofs::Placing::argument_steps))]
fn argument_place(
    alloc: Global,
    rule: Rule,
    draft: &ArgumentDraft<'_>,
) -> Result<Option<Text>, AllocError>
    ensures { IfOk result (spec.IsArgumentPlace rule draft.now) }
{
    if argument_keeps(alloc, rule, draft)? {
        Ok(None)
    } else {
        Ok(Some(Text::from_str(alloc, draft.name.as_str())?))
    }
}

/// The name of the first argument that breaks a rule. An error is want of memory.
fn argument_among(
    alloc: Global,
    rule: Rule,
    drafts: &[ArgumentDraft<'_>],
) -> Result<Option<Text>, AllocError>
    ensures { IfOk result (spec.IsFirst (spec.IsArgumentPlace rule) drafts.now) }
{
    'drafts: for draft in drafts {
        match argument_place(alloc, rule, draft)? {
            Some(name) => return Ok(Some(name)),
            None => {}
        }
    }
    Ok(None)
}

/// The place of a field that breaks a rule, or of its first argument that does. An error is want of
/// memory.
#[tactic(auto, using(crate::proofs::Placing::field_steps))]
fn field_place(
    alloc: Global,
    rule: Rule,
    draft: &FieldDraft<'_>,
) -> Result<Option<FieldPlace>, AllocError>
    ensures { IfOk result (spec.IsFieldPlace rule draft.now) }
{
    if !field_keeps(alloc, rule, draft)? {
        let name = Text::from_str(alloc, draft.name.as_str())?;
        return Ok(Some(FieldPlace {
            name,
            argument: None,
        }));
    }
    match argument_among(alloc, rule, draft.arguments.as_slice())? {
        Some(argument) => {
            let name = Text::from_str(alloc, draft.name.as_str())?;
            Ok(Some(FieldPlace {
                name,
                argument: Some(argument),
            }))
        }
        None => Ok(None),
    }
}

/// The place of the first field that breaks a rule, or in which an argument does. An error is want
/// of memory.
fn field_among(
    alloc: Global,
    rule: Rule,
    drafts: &[FieldDraft<'_>],
) -> Result<Option<FieldPlace>, AllocError>
    ensures { IfOk result (spec.IsFirst (spec.IsFieldPlace rule) drafts.now) }
{
    'drafts: for draft in drafts {
        match field_place(alloc, rule, draft)? {
            Some(place) => return Ok(Some(place)),
            None => {}
        }
    }
    Ok(None)
}

/// The place of a type that breaks a rule, or of its first field in which something does. An error
/// is want of memory.
#[tactic(auto, using(crate::proofs::Placing::type_steps))]
fn type_place(
    alloc: Global,
    rule: Rule,
    draft: &TypeDraft<'_>,
) -> Result<Option<DeclarationPlace>, AllocError>
    ensures { IfOk result (spec.IsTypePlace rule draft.now) }
{
    if !type_keeps(rule, draft) {
        let type_name = Text::from_str(alloc, draft.name.as_str())?;
        return Ok(Some(DeclarationPlace {
            type_name,
            field: None,
        }));
    }
    match field_among(alloc, rule, draft.fields.as_slice())? {
        Some(field) => {
            let type_name = Text::from_str(alloc, draft.name.as_str())?;
            Ok(Some(DeclarationPlace {
                type_name,
                field: Some(field),
            }))
        }
        None => Ok(None),
    }
}

/// The place of the first type that breaks a rule, or in which something does. An error is want of
/// memory.
fn place_among(
    alloc: Global,
    rule: Rule,
    drafts: &[TypeDraft<'_>],
) -> Result<Option<DeclarationPlace>, AllocError>
    ensures { IfOk result (spec.IsPlaceAmong rule drafts.now) }
{
    'drafts: for draft in drafts {
        match type_place(alloc, rule, draft)? {
            Some(place) => return Ok(Some(place)),
            None => {}
        }
    }
    Ok(None)
}

/// A text, if there is one. An error is want of memory.
fn text_copied(alloc: Global, text: &Option<Text>) -> Result<Option<Text>, AllocError>
    ensures { Gives result text.now }
{
    match text {
        Some(text) => Ok(Some(Text::from_str(alloc, text.as_str())?)),
        None => Ok(None),
    }
}

/// A field, or an argument of it, if there is one. An error is want of memory.
fn field_copied(alloc: Global, field: &Option<FieldPlace>) -> Result<Option<FieldPlace>, AllocError>
    ensures { Gives result field.now }
{
    match field {
        Some(field) => {
            let name = Text::from_str(alloc, field.name.as_str())?;
            let argument = text_copied(alloc, &field.argument)?;
            Ok(Some(FieldPlace { name, argument }))
        }
        None => Ok(None),
    }
}

/// A place. An error is want of memory.
fn copied(alloc: Global, place: &DeclarationPlace) -> Result<DeclarationPlace, AllocError>
    ensures { Gives result place.now }
{
    let type_name = Text::from_str(alloc, place.type_name.as_str())?;
    let field = field_copied(alloc, &place.field)?;
    Ok(DeclarationPlace { type_name, field })
}

/// Where a fault stands of a file that has been drafted. An error is want of memory.
#[tactic(auto, using(crate::proofs::Placing::fault_steps))]
fn place_in(
    alloc: Global,
    fault: &SchemaFileError,
    file: &SchemaDraft<'_>,
) -> Result<Option<DeclarationPlace>, AllocError>
    ensures { IfOk result (spec.IsPlaceIn fault.now file.now) }
{
    match fault {
        SchemaFileError::BadName => place_among(alloc, Rule::Names, file.types.as_slice()),
        SchemaFileError::BadTypeText => place_among(alloc, Rule::Types, file.types.as_slice()),
        SchemaFileError::BadDefault => place_among(alloc, Rule::Defaults, file.types.as_slice()),
        SchemaFileError::UnfitDefault(place) => Ok(Some(copied(alloc, place)?)),
        _ => Ok(None),
    }
}

/// Where a fault stands of a file that is JSON. An error is want of memory.
fn place_in_json(
    alloc: Global,
    fault: &SchemaFileError,
    json: &Value,
) -> Result<Option<DeclarationPlace>, AllocError>
    ensures { IfOk result (spec.IsPlaceOf fault.now (schema_of (view json.now))) }
{
    match schema_of(alloc, json)? {
        Some(file) => place_in(alloc, fault, &file),
        None => Ok(None),
    }
}

/// At which type, field and argument of a file the fault stands that
/// [`SchemaFile::read`](crate::SchemaFile::read) tells of it: the first, in the order of the file,
///
/// - of `BadName`, that has a name that is none;
/// - of `BadTypeText`, whose type is no type reference;
/// - of `BadDefault`, whose default is no constant literal;
/// - of `UnfitDefault`, whose default does not conform to the type of its argument: the place that
///   is told with the fault.
///
/// `None` where the file has not that fault, which may be asked of any, and of the other faults.
/// The only error is want of memory, which tells nothing of the file.
#[tactic(auto, using(crate::proofs::Placing::not_parsed))]
pub fn place_of_fault(
    alloc: Global,
    bytes: &[u8],
    fault: &SchemaFileError,
) -> Result<Option<DeclarationPlace>, AllocError>
    ensures { IfOk result (spec.IsPlace fault.now bytes.now) }
{
    match json_of(alloc, bytes) {
        Ok(json) => place_in_json(alloc, fault, &json),
        Err(SchemaFileError::Memory) => Err(AllocError),
        Err(_) => Ok(None),
    }
}
