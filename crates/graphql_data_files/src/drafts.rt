//! What a file of records says, lent from its JSON, and the records of that.

ghost use Rattle.std.specs.Prelude.{◌≡◌, map, option_map};
ghost use Rattle.graphql_text.specs.Memory.{Gives, GivesBy};
ghost use Rattle.serde_json.specs.View.{items_view, members_view, view};
ghost use Rattle.graphql_json.specs.Parts.{each_read};
ghost use Rattle.graphql_data_files.specs.Drafts as spec;
ghost use Rattle.graphql_data_files.specs.LentDrafts.{draft_told, file_told};

use crate::values::{fields_have_shape, fields_of};
use graphql_json::{list_at, text_at};
use graphql_names::Named;
use graphql_records::Record;
use graphql_text::{Items, Text, TextRef};
use serde_json::{Map, Value};
use std::alloc::{AllocError, Global};

/// A record.
#[derive(Drop)]
pub(crate) struct Draft<'a> {
    /// The id.
    pub(crate) id: TextRef<'a>,

    /// The name of the type.
    pub(crate) type_name: TextRef<'a>,

    /// The fields, as they stand in the file. Each has the shape of a value.
    pub(crate) fields: &'a Map<String, Value>,
}

/// A record is named by its id.
impl Named for Draft<'_> {
    ghost name_of = { λ draft. draft.id };

    fn name(&self) -> &str {
        self.id.as_str()
    }
}

/// A file.
#[derive(Drop)]
pub(crate) struct Drafts<'a> {
    /// The id of the record from which queries start.
    pub(crate) root: TextRef<'a>,

    /// The records, in order.
    pub(crate) records: Items<Draft<'a>>,
}

/// The members of the object `fields`, if each is a value of a field.
fn fields_in(json: &Value) -> Option<&Map<String, Value>>
    ensures { let told = option_map (λ members. members_view members.now.entries) result in
        told ≡ spec.fields_member (view json.now) }
{
    let members = json.get("fields")?.as_object()?;
    if fields_have_shape(members) {
        Some(members)
    } else {
        None
    }
}

/// The record that JSON describes, if it has the shape of one.
fn draft_of<'a>(json: &'a Value) -> Option<Draft<'a>>
    ensures { option_map draft_told result ≡ spec.draft_of (view json.now) }
{
    let id = text_at(json, "id")?;
    let type_name = text_at(json, "type")?;
    let fields = fields_in(json)?;
    Some(Draft {
        id,
        type_name,
        fields,
    })
}

/// The records that these describe, if each has the shape of one. An error is want of memory.
fn drafts_of<'a>(alloc: Global, items: &'a [Value]) -> Result<Option<Items<Draft<'a>>>, AllocError>
    ensures { GivesBy (option_map (map draft_told)) result
        (each_read spec.draft_of (items_view items.now)) }
{
    let mut drafts = Items::with_capacity(alloc, items.len())?;
    'items: for item in items {
        match draft_of(item) {
            Some(draft) => drafts.push(draft)?,
            None => return Ok(None),
        }
    }
    Ok(Some(drafts))
}

/// The text `query` in the object `roots`.
fn root_in(json: &Value) -> Option<TextRef<'_>>
    ensures { result ≡ spec.root_in (view json.now) }
{
    text_at(json.get("roots")?, "query")
}

/// The records of a file, if each has the shape of one. An error is want of memory.
fn drafts_in<'a>(alloc: Global, json: &'a Value) -> Result<Option<Items<Draft<'a>>>, AllocError>
    ensures { GivesBy (option_map (map draft_told)) result (spec.drafts_in (view json.now)) }
{
    match list_at(json, "records") {
        Some(items) => drafts_of(alloc, items.as_slice()),
        None => Ok(None),
    }
}

/// The file that JSON describes, if it has the shape of one. Members of other keys are passed over.
/// An error is want of memory.
pub(crate) fn file_of<'a>(alloc: Global, json: &'a Value) -> Result<Option<Drafts<'a>>, AllocError>
    ensures { GivesBy (option_map file_told) result (spec.file_of (view json.now)) }
{
    let Some(root) = root_in(json) else {
        return Ok(None);
    };
    match drafts_in(alloc, json)? {
        Some(records) => Ok(Some(Drafts { root, records })),
        None => Ok(None),
    }
}

/// The record of a draft, with its id; `None` where a number in it is no whole one of 32 bits. An
/// error is want of memory.
fn record_of(alloc: Global, draft: &Draft<'_>) -> Result<Option<(Text, Record)>, AllocError>
    ensures { Gives result (spec.record_of (draft_told draft.now)) }
{
    let id = Text::from_str(alloc, draft.id.as_str())?;
    let type_name = Text::from_str(alloc, draft.type_name.as_str())?;
    match fields_of(alloc, draft.fields)? {
        Some(fields) => Ok(Some((id, Record { type_name, fields }))),
        None => Ok(None),
    }
}

/// The records of drafts, with their ids; `None` where a number in one is no whole one of 32 bits.
/// An error is want of memory.
pub(crate) fn records_of(
    alloc: Global,
    drafts: &[Draft<'_>],
) -> Result<Option<Items<(Text, Record)>>, AllocError>
    ensures { Gives result (spec.records_of (map draft_told drafts.now)) }
{
    let mut records = Items::with_capacity(alloc, drafts.len())?;
    'drafts: for draft in drafts {
        match record_of(alloc, draft)? {
            Some(made) => records.push(made)?,
            None => return Ok(None),
        }
    }
    Ok(Some(records))
}
