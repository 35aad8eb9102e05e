//! The drafts of a file, from its JSON.

ghost use Rattle.std.specs.Prelude.{◌≡◌};
ghost use Rattle.graphql_text.specs.Memory.{Gives};
ghost use Rattle.serde_json.specs.View.{items_view, view};
ghost use Rattle.graphql_json.specs.Parts.{each_read};
ghost use Rattle.graphql_schema_files.specs.Shapes as spec;

use crate::drafts::{ArgumentDraft, DraftKind, FieldDraft, SchemaDraft, TypeDraft};
use graphql_json::{list_at, text_at, text_if, texts_at, texts_if};
use graphql_text::{Items, TextRef};
use serde_json::Value;
use std::alloc::{AllocError, Global};

/// The argument that JSON describes, if it has the shape of one.
fn argument_of(json: &Value) -> Option<ArgumentDraft<'_>>
    ensures { result ≡ spec.argument_draft (view json.now) }
{
    let name = text_at(json, "name")?;
    let type_text = text_at(json, "type")?;
    let default_text = text_if(json, "default")?;
    Some(ArgumentDraft {
        name,
        type_text,
        default_text,
    })
}

/// The arguments that these describe, if each has the shape of one. An error is want of memory.
fn arguments_of<'a>(
    alloc: Global,
    items: &'a [Value],
) -> Result<Option<Items<ArgumentDraft<'a>>>, AllocError>
    ensures { Gives result (each_read spec.argument_draft (items_view items.now)) }
{
    let mut arguments = Items::with_capacity(alloc, items.len())?;
    'items: for item in items {
        match argument_of(item) {
            Some(argument) => arguments.push(argument)?,
            None => return Ok(None),
        }
    }
    Ok(Some(arguments))
}

/// The arguments of a field, which may have none. An error is want of memory.
fn arguments_in<'a>(
    alloc: Global,
    json: &'a Value,
) -> Result<Option<Items<ArgumentDraft<'a>>>, AllocError>
    ensures { Gives result (spec.argument_drafts (view json.now)) }
{
    match json.get("args") {
        Some(value) => match value.as_array() {
            Some(items) => arguments_of(alloc, items.as_slice()),
            None => Ok(None),
        },
        None => Ok(Some(Items::new(alloc))),
    }
}

/// The field that JSON describes, if it has the shape of one. An error is want of memory.
fn field_of<'a>(alloc: Global, json: &'a Value) -> Result<Option<FieldDraft<'a>>, AllocError>
    ensures { Gives result (spec.field_draft (view json.now)) }
{
    let Some(name) = text_at(json, "name") else {
        return Ok(None);
    };
    let Some(type_text) = text_at(json, "type") else {
        return Ok(None);
    };
    match arguments_in(alloc, json)? {
        Some(arguments) => Ok(Some(FieldDraft {
            name,
            type_text,
            arguments,
        })),
        None => Ok(None),
    }
}

/// The fields that these describe, if each has the shape of one. An error is want of memory.
fn fields_of<'a>(
    alloc: Global,
    items: &'a [Value],
) -> Result<Option<Items<FieldDraft<'a>>>, AllocError>
    ensures { Gives result (each_read spec.field_draft (items_view items.now)) }
{
    let mut fields = Items::with_capacity(alloc, items.len())?;
    'items: for item in items {
        match field_of(alloc, item)? {
            Some(field) => fields.push(field)?,
            None => return Ok(None),
        }
    }
    Ok(Some(fields))
}

/// The kind of this name, if there is one.
fn kind_named(name: &str) -> Option<DraftKind>
    ensures { result ≡ spec.kind_named name.now }
{
    match name {
        "object" => Some(DraftKind::Object),
        "interface" => Some(DraftKind::Interface),
        "union" => Some(DraftKind::Union),
        _ => None,
    }
}

/// The kind of the type that JSON describes.
pub(crate) fn kind_in(json: &Value) -> Option<DraftKind>
    ensures { result ≡ spec.kind_in (view json.now) }
{
    match text_at(json, "kind") {
        Some(name) => kind_named(name.as_str()),
        None => None,
    }
}

/// The fields of a type of this kind. A union has none. An error is want of memory.
fn fields_in<'a>(
    alloc: Global,
    kind: DraftKind,
    json: &'a Value,
) -> Result<Option<Items<FieldDraft<'a>>>, AllocError>
    ensures { Gives result (spec.field_drafts kind (view json.now)) }
{
    if let DraftKind::Union = kind {
        return Ok(Some(Items::new(alloc)));
    }
    match list_at(json, "fields") {
        Some(items) => fields_of(alloc, items.as_slice()),
        None => Ok(None),
    }
}

/// The names that a type of this kind lists. An error is want of memory.
fn listed_in<'a>(
    alloc: Global,
    kind: DraftKind,
    json: &'a Value,
) -> Result<Option<Items<TextRef<'a>>>, AllocError>
    ensures { Gives result (spec.listed_in kind (view json.now)) }
{
    match kind {
        DraftKind::Union => texts_at(alloc, json, "members"),
        DraftKind::Object | DraftKind::Interface => texts_if(alloc, json, "interfaces"),
    }
}

/// The type that JSON describes, if it has the shape of one. An error is want of memory.
fn type_of<'a>(alloc: Global, json: &'a Value) -> Result<Option<TypeDraft<'a>>, AllocError>
    ensures { Gives result (spec.type_draft (view json.now)) }
{
    let Some(kind) = kind_in(json) else {
        return Ok(None);
    };
    let Some(name) = text_at(json, "name") else {
        return Ok(None);
    };
    let Some(fields) = fields_in(alloc, kind, json)? else {
        return Ok(None);
    };
    match listed_in(alloc, kind, json)? {
        Some(listed) => Ok(Some(TypeDraft {
            kind,
            name,
            fields,
            listed,
        })),
        None => Ok(None),
    }
}

/// The types that these describe, if each has the shape of one. An error is want of memory.
fn types_of<'a>(
    alloc: Global,
    items: &'a [Value],
) -> Result<Option<Items<TypeDraft<'a>>>, AllocError>
    ensures { Gives result (each_read spec.type_draft (items_view items.now)) }
{
    let mut types = Items::with_capacity(alloc, items.len())?;
    'items: for item in items {
        match type_of(alloc, item)? {
            Some(draft) => types.push(draft)?,
            None => return Ok(None),
        }
    }
    Ok(Some(types))
}

/// The types of a schema. An error is want of memory.
fn types_in<'a>(alloc: Global, json: &'a Value) -> Result<Option<Items<TypeDraft<'a>>>, AllocError>
    ensures { Gives result (spec.types_in (view json.now)) }
{
    match list_at(json, "types") {
        Some(items) => types_of(alloc, items.as_slice()),
        None => Ok(None),
    }
}

/// The schema that JSON describes, `None` where it has not the shape of one: a member is missing
/// that has to be there, or is of another kind. Members of other keys are passed over. An error is
/// want of memory.
pub fn schema_of<'a>(alloc: Global, json: &'a Value) -> Result<Option<SchemaDraft<'a>>, AllocError>
    ensures { Gives result (spec.schema_of (view json.now)) }
{
    let Some(query) = text_at(json, "query") else {
        return Ok(None);
    };
    let Some(mutation) = text_if(json, "mutation") else {
        return Ok(None);
    };
    match types_in(alloc, json)? {
        Some(types) => Ok(Some(SchemaDraft {
            query,
            mutation,
            types,
        })),
        None => Ok(None),
    }
}
