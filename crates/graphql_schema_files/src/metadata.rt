//! The metadata that drafts describe.

ghost use Rattle.std.specs.Prelude.{◌≡◌, IfOk};
ghost use Rattle.std.specs.List.{All, AllZip};
ghost use Rattle.graphql_text.specs.Memory.{Gives};
ghost use Rattle.graphql_schema_files.specs.DraftedTypes as spec;
ghost use Rattle.graphql_schema_files.specs.SpelledTexts.{FindsMeant};

use crate::texts::{literal_in, type_in};
use crate::{ArgumentDraft, DraftKind, FieldDraft, TypeDraft};
use graphql_names::NamedItems;
use graphql_schema::{
    Argument, DeprecationStatus, Field, InterfaceMeta, MetaType, ObjectMeta, UnionMeta,
};
use graphql_text::{Items, Text, TextRef};
use graphql_values::{DefaultScalarValue, InputValue};
use std::alloc::{AllocError, Global};

/// The value of a default, which an argument may lack; `None` where its text is no constant
/// literal. An error is want of memory.
pub(crate) fn default_of(
    alloc: Global,
    text: &Option<TextRef<'_>>,
) -> Result<Option<Option<InputValue>>, AllocError>
    ensures { IfOk result (FindsMeant spec.DefaultMeans spec.IsDefault text.now) }
{
    match text {
        Some(text) => match literal_in(alloc, text)? {
            Some(value) => Ok(Some(Some(value))),
            None => Ok(None),
        },
        None => Ok(Some(None)),
    }
}

/// The argument that a draft describes, if its texts are right. An error is want of memory.
fn argument_of(
    alloc: Global,
    draft: &ArgumentDraft<'_>,
) -> Result<Option<Argument<DefaultScalarValue>>, AllocError>
    ensures { IfOk result (FindsMeant spec.ArgumentMeans spec.ArgumentIsSound draft.now) }
{
    let name = Text::from_str(alloc, draft.name.as_str())?;
    let Some(arg_type) = type_in(alloc, &draft.type_text)? else {
        return Ok(None);
    };
    match default_of(alloc, &draft.default_text)? {
        Some(default_value) => Ok(Some(Argument {
            name,
            description: None,
            arg_type,
            default_value,
        })),
        None => Ok(None),
    }
}

/// The arguments that these describe, if the texts of each are right. An error is want of memory.
fn arguments_of(
    alloc: Global,
    drafts: &[ArgumentDraft<'_>],
) -> Result<Option<Items<Argument<DefaultScalarValue>>>, AllocError>
    ensures { IfOk result
        (FindsMeant (AllZip spec.ArgumentMeans) (All spec.ArgumentIsSound) drafts.now) }
{
    let mut arguments = Items::with_capacity(alloc, drafts.len())?;
    'drafts: for draft in drafts {
        match argument_of(alloc, draft)? {
            Some(argument) => arguments.push(argument)?,
            None => return Ok(None),
        }
    }
    Ok(Some(arguments))
}

/// The arguments that a field's draft describes, if the texts of each are right. An error is want
/// of memory.
fn arguments_in(
    alloc: Global,
    draft: &FieldDraft<'_>,
) -> Result<Option<Items<Argument<DefaultScalarValue>>>, AllocError>
    ensures { IfOk result
        (FindsMeant (AllZip spec.ArgumentMeans) (All spec.ArgumentIsSound) draft.now.arguments) }
{
    arguments_of(alloc, draft.arguments.as_slice())
}

/// The field that a draft describes, if its texts are right. An error is want of memory.
fn field_of(
    alloc: Global,
    draft: &FieldDraft<'_>,
) -> Result<Option<Field<DefaultScalarValue>>, AllocError>
    ensures { IfOk result (FindsMeant spec.FieldMeans spec.FieldIsSound draft.now) }
{
    let name = Text::from_str(alloc, draft.name.as_str())?;
    let Some(field_type) = type_in(alloc, &draft.type_text)? else {
        return Ok(None);
    };
    match arguments_in(alloc, draft)? {
        Some(arguments) => Ok(Some(Field {
            name,
            description: None,
            arguments: Some(NamedItems::from_items(arguments)?),
            field_type,
            deprecation_status: DeprecationStatus::Current,
        })),
        None => Ok(None),
    }
}

/// The fields that these describe, if the texts of each are right. An error is want of memory.
fn fields_of(
    alloc: Global,
    drafts: &[FieldDraft<'_>],
) -> Result<Option<Items<Field<DefaultScalarValue>>>, AllocError>
    ensures { IfOk result (FindsMeant (AllZip spec.FieldMeans) (All spec.FieldIsSound) drafts.now) }
{
    let mut fields = Items::with_capacity(alloc, drafts.len())?;
    'drafts: for draft in drafts {
        match field_of(alloc, draft)? {
            Some(field) => fields.push(field)?,
            None => return Ok(None),
        }
    }
    Ok(Some(fields))
}

/// The fields that a type's draft describes, if the texts of each are right. An error is want of
/// memory.
fn fields_in(
    alloc: Global,
    draft: &TypeDraft<'_>,
) -> Result<Option<Items<Field<DefaultScalarValue>>>, AllocError>
    ensures { IfOk result
        (FindsMeant (AllZip spec.FieldMeans) (All spec.FieldIsSound) draft.now.fields) }
{
    fields_of(alloc, draft.fields.as_slice())
}

/// Copies of these names. An error is want of memory.
fn names_of(alloc: Global, names: &[TextRef<'_>]) -> Result<Items<Text>, AllocError>
    ensures { Gives result names.now }
{
    let mut copies = Items::with_capacity(alloc, names.len())?;
    'names: for name in names {
        copies.push(Text::from_str(alloc, name.as_str())?)?;
    }
    Ok(copies)
}

/// The type of this kind and this name, with these fields, that lists these names. An error is want
/// of memory.
fn type_of_kind<C: Drop>(
    alloc: Global,
    kind: DraftKind,
    name: Text,
    fields: Items<Field<DefaultScalarValue>>,
    listed: Items<Text>,
) -> Result<MetaType<DefaultScalarValue, C>, AllocError>
    ensures { Gives result (spec.type_of_kind kind name fields listed) }
{
    match kind {
        DraftKind::Object => {
            let fields = NamedItems::from_items(fields)?;
            Ok(
                ObjectMeta::new(alloc, name, fields)
                    .interfaces(listed)
                    .into_meta(),
            )
        }
        DraftKind::Interface => {
            let fields = NamedItems::from_items(fields)?;
            Ok(
                InterfaceMeta::new(alloc, name, fields)
                    .interfaces(listed)
                    .into_meta(),
            )
        }
        DraftKind::Union => Ok(UnionMeta::new(name, listed).into_meta()),
    }
}

/// The type that a draft describes, if the texts of its fields and arguments are right. An error is
/// want of memory.
fn type_of<C: Drop>(
    alloc: Global,
    draft: &TypeDraft<'_>,
) -> Result<Option<MetaType<DefaultScalarValue, C>>, AllocError>
    ensures { IfOk result (FindsMeant spec.TypeMeans spec.TypeIsSound draft.now) }
{
    let name = Text::from_str(alloc, draft.name.as_str())?;
    let listed = names_of(alloc, draft.listed.as_slice())?;
    match fields_in(alloc, draft)? {
        Some(fields) => Ok(Some(type_of_kind(alloc, draft.kind, name, fields, listed)?)),
        None => Ok(None),
    }
}

/// The types that these describe (GraphQL October 2021, 3.6 Objects, 3.7 Interfaces, 3.8 Unions),
/// without descriptions; `None` where the type of some field or argument in them is no type
/// reference, or some default is no constant literal. An error is want of memory.
fn types_of<C: Drop>(
    alloc: Global,
    drafts: &[TypeDraft<'_>],
) -> Result<Option<Items<MetaType<DefaultScalarValue, C>>>, AllocError>
    ensures { IfOk result (FindsMeant (AllZip spec.TypeMeans) (All spec.TypeIsSound) drafts.now) }
{
    let mut types = Items::with_capacity(alloc, drafts.len())?;
    'drafts: for draft in drafts {
        match type_of(alloc, draft)? {
            Some(made) => types.push(made)?,
            None => return Ok(None),
        }
    }
    Ok(Some(types))
}

/// Adds the types that these describe behind those that are there (GraphQL October 2021, 3.6
/// Objects, 3.7 Interfaces, 3.8 Unions), without descriptions. Answers whether it could: where the
/// type of some field or argument in them is no type reference, or some default is no constant
/// literal, it adds nothing. An error is want of memory.
pub fn add_types<C: Drop>(
    alloc: Global,
    drafts: &[TypeDraft<'_>],
    types: &mut Items<MetaType<DefaultScalarValue, C>>,
) -> Result<bool, AllocError>
    ensures { IfOk result (spec.AddsTypes drafts.now types.old types.new) }
{
    match types_of(alloc, drafts)? {
        Some(mut made) => {
            types.append(&mut made)?;
            Ok(true)
        }
        None => Ok(false),
    }
}
