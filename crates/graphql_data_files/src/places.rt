//! Where in a file of records its faults stand.

ghost use Rattle.std.specs.Prelude.{◌≡◌, map, not, is_some, option_map, Some, IfOk};
ghost use Rattle.std.specs.List.{find};
ghost use Rattle.std.specs.Option.{option_copied};
ghost use Rattle.graphql_text.specs.Memory.{Gives};
ghost use Rattle.serde_json.specs.View.{items_view, members_view, view};
ghost use Rattle.graphql_data_files.specs.DataFiles.{has_fields, is_of_object_type};
ghost use Rattle.graphql_data_files.specs.Drafts.{file_of, records_of};
ghost use Rattle.graphql_data_files.specs.Links.{record_leads};
ghost use Rattle.graphql_data_files.specs.LentDrafts.{draft_told, file_told};
ghost use Rattle.graphql_data_files.specs.RecordPlaces as spec;
ghost use Rattle.graphql_data_files.specs.RecordShapes.{fault_in};
ghost use Rattle.graphql_data_files.specs.declared.record_place.RecordPlace.TheVariants as place;

use crate::data_file_error::DataFileError;
use crate::drafts::{Draft, Drafts, file_of, records_of};
use crate::links::{field_leads, record_leads};
use crate::misshapen::shape_fault;
use crate::reading::json_of;
use crate::record_place::RecordPlace;
use crate::records::{has_field, has_fields, is_of_object_type};
use graphql_lines::whole;
use graphql_names::{Named, NamedItems, repeated_name};
use graphql_records::{FieldValue, Record, Records, TableType};
use graphql_text::{Items, Text};
use serde_json::{Map, Value};
use std::alloc::{AllocError, Global};

/// Whether each number in JSON, in its lists too, is a whole one of 32 bits. Takes stack for each
/// level that lists nest, of which `serde_json` reads 127 at most.
#[cycle(numbers)]
fn is_whole(json: &Value) -> bool
    ensures { result ≡ spec.is_whole (view json.now) }
{
    match json {
        Value::Null => true,
        Value::Bool(_) => true,
        Value::Number(number) => whole(number).is_some(),
        Value::String(_) => true,
        Value::Array(items) => are_whole(items.as_slice()),
        Value::Object(_) => true,
    }
}

/// Whether each number in each of these is a whole one of 32 bits.
#[cycle(numbers)]
fn are_whole(items: &[Value]) -> bool
    ensures { result ≡ spec.are_whole (items_view items.now) }
{
    'items: for item in items {
        if !is_whole(item) {
            return false;
        }
    }
    true
}

/// The name of the first member in which a number is no whole one of 32 bits.
fn misnumbered(members: &Map<String, Value>) -> Option<&str>
    ensures { option_copied result ≡ spec.misnumbered (members_view members.now.entries) }
{
    'members: for (key, member) in members.iter() {
        if !is_whole(member) {
            return Some(key.as_str());
        }
    }
    None
}

/// Whether a record has a number that is no whole one of 32 bits.
fn has_bad_number(draft: &Draft<'_>) -> bool
    ensures { result ≡ is_some (spec.misnumbered (draft_told draft.now).fields) }
{
    misnumbered(draft.fields).is_some()
}

/// The first record with a number that is no whole one of 32 bits.
fn misnumbered_record<'s, 'a>(drafts: &'s [Draft<'a>]) -> Option<&'s Draft<'a>>
    ensures { option_copied result
        ≡ find (λ d. is_some (spec.misnumbered (draft_told d).fields)) drafts.now }
{
    drafts.iter().find(|draft| has_bad_number(draft))
}

/// The field of a record, if one is to blame. An error is want of memory.
fn at_field(alloc: Global, id: &str, field: Option<&str>) -> Result<Option<RecordPlace>, AllocError>
    ensures { Gives result (spec.field_place id.now (option_copied field.entry)) }
{
    match field {
        Some(field) => {
            let id = Text::from_str(alloc, id)?;
            let field = Text::from_str(alloc, field)?;
            Ok(Some(RecordPlace::Field(id, field)))
        }
        None => Ok(None),
    }
}

/// The first field with a number that is no whole one of 32 bits. An error is want of memory.
fn bad_number(alloc: Global, drafts: &[Draft<'_>]) -> Result<Option<RecordPlace>, AllocError>
    ensures { Gives result (spec.bad_number (map draft_told drafts.now)) }
{
    match misnumbered_record(drafts) {
        Some(draft) => at_field(alloc, draft.id.as_str(), misnumbered(draft.fields)),
        None => Ok(None),
    }
}

/// The first record whose type is no object type.
fn untyped<'s>(
    types: &NamedItems<TableType>,
    records: &'s [(Text, Record)],
) -> Option<&'s (Text, Record)>
    ensures { option_copied result ≡ find (λ r. not (is_of_object_type types.now r)) records.now }
{
    records
        .iter()
        .find(|record| !is_of_object_type(types, record))
}

/// The first record whose type lacks one of its fields.
fn lacking<'s>(
    types: &NamedItems<TableType>,
    records: &'s [(Text, Record)],
) -> Option<&'s (Text, Record)>
    ensures { option_copied result ≡ find (λ r. not (has_fields types.now r)) records.now }
{
    records.iter().find(|record| !has_fields(types, record))
}

/// A record's first field that its type lacks.
fn lacked<'s>(
    types: &NamedItems<TableType>,
    record: &'s (Text, Record),
) -> Option<&'s (Text, FieldValue)>
    ensures { option_copied result ≡ spec.lacked_field types.now record.now.1 }
{
    let object = record.1.type_name.as_str();
    record
        .1
        .fields
        .as_slice()
        .iter()
        .find(|field| !has_field(types, object, field))
}

/// The first record with a link that leads to no record.
fn astray<'s>(
    types: &NamedItems<TableType>,
    table: &Records,
    records: &'s [(Text, Record)],
) -> Option<&'s (Text, Record)>
    ensures { option_copied result
        ≡ find (λ r. not (record_leads table.now.entries types.now r.1)) records.now }
{
    records
        .iter()
        .find(|record| !record_leads(types, table, &record.1))
}

/// A record's first field with a link that leads to no record.
fn leading_astray<'s>(
    types: &NamedItems<TableType>,
    table: &Records,
    record: &'s (Text, Record),
) -> Option<&'s (Text, FieldValue)>
    ensures { option_copied result ≡ spec.stray_field types.now table.now.entries record.now.1 }
{
    let object = record.1.type_name.as_str();
    record
        .1
        .fields
        .as_slice()
        .iter()
        .find(|field| !field_leads(types, table, object, field))
}

/// The name of a field, if there is one.
fn name_of(field: Option<&(Text, FieldValue)>) -> Option<&str>
    ensures { option_copied result ≡ option_map (λ f. f.0) (option_copied field.entry) }
{
    match field {
        Some(field) => Some(field.0.as_str()),
        None => None,
    }
}

/// The first record whose type is no object type. An error is want of memory.
fn unknown_type(
    alloc: Global,
    types: &NamedItems<TableType>,
    records: &[(Text, Record)],
) -> Result<Option<RecordPlace>, AllocError>
    ensures { Gives result (spec.unknown_type types.now records.now) }
{
    match untyped(types, records) {
        Some(record) => {
            let id = Text::from_str(alloc, record.0.as_str())?;
            Ok(Some(RecordPlace::Record(id)))
        }
        None => Ok(None),
    }
}

/// The first field that its record's type lacks. An error is want of memory.
fn unknown_field(
    alloc: Global,
    types: &NamedItems<TableType>,
    records: &[(Text, Record)],
) -> Result<Option<RecordPlace>, AllocError>
    ensures { Gives result (spec.unknown_field types.now records.now) }
{
    match lacking(types, records) {
        Some(record) => at_field(alloc, record.0.as_str(), name_of(lacked(types, record))),
        None => Ok(None),
    }
}

/// The first field with a link that leads to no record of the table that the records make. An error
/// is want of memory.
fn dead_link(
    alloc: Global,
    types: &NamedItems<TableType>,
    table: &Records,
    records: &[(Text, Record)],
) -> Result<Option<RecordPlace>, AllocError>
    ensures { table.now.entries ≡ records.now
        → Gives result (spec.dead_link types.now records.now) }
{
    match astray(types, table, records) {
        Some(record) => {
            let field = name_of(leading_astray(types, table, record));
            at_field(alloc, record.0.as_str(), field)
        }
        None => Ok(None),
    }
}

/// The same where no two records have one id, of which these are the copies. An error is want of
/// memory.
fn bad_link(
    alloc: Global,
    types: &NamedItems<TableType>,
    records: &[(Text, Record)],
    copies: Items<(Text, Record)>,
) -> Result<Option<RecordPlace>, AllocError>
    ensures { copies ≡ records.now → Gives result (spec.bad_link types.now records.now) }
{
    match Records::from_items(alloc, copies)? {
        Some(table) => dead_link(alloc, types, &table, records),
        None => Ok(None),
    }
}

/// The table's own bad link, of drafts. An error is want of memory.
fn bad_link_in(
    alloc: Global,
    types: &NamedItems<TableType>,
    drafts: &[Draft<'_>],
    records: &[(Text, Record)],
) -> Result<Option<RecordPlace>, AllocError>
    ensures { records_of (map draft_told drafts.now) ≡ Some records.now
        → Gives result (spec.bad_link types.now records.now) }
{
    match records_of(alloc, drafts)? {
        Some(copies) => bad_link(alloc, types, records, copies),
        None => Ok(None),
    }
}

/// Where a fault stands that records have by the types that a table knows. An error is want of
/// memory.
fn place_among(
    alloc: Global,
    types: &NamedItems<TableType>,
    fault: DataFileError,
    drafts: &[Draft<'_>],
) -> Result<Option<RecordPlace>, AllocError>
    ensures { Gives result (spec.place_of_drafts types.now fault (map draft_told drafts.now)) }
{
    let Some(records) = records_of(alloc, drafts)? else {
        return Ok(None);
    };
    match fault {
        DataFileError::UnknownType => unknown_type(alloc, types, records.as_slice()),
        DataFileError::UnknownField => unknown_field(alloc, types, records.as_slice()),
        DataFileError::BadLink => bad_link_in(alloc, types, drafts, records.as_slice()),
        _ => Ok(None),
    }
}

/// A record whose id another one has. An error is want of memory.
fn repeat(alloc: Global, drafts: &[Draft<'_>]) -> Result<Option<RecordPlace>, AllocError>
    ensures { IfOk result (spec.IsRepeat (map (λ d. d.id) (map draft_told drafts.now))) }
{
    match repeated_name(alloc, drafts)? {
        Some(id) => Ok(Some(RecordPlace::Record(Text::from_str(alloc, id)?))),
        None => Ok(None),
    }
}

/// Where a fault stands of a file that has been drafted. An error is want of memory.
#[tactic(auto, using(crate::proofs::Placing::rest_placed))]
fn place_in(
    alloc: Global,
    types: &NamedItems<TableType>,
    fault: DataFileError,
    file: &Drafts<'_>,
) -> Result<Option<RecordPlace>, AllocError>
    ensures { IfOk result (spec.IsPlaceIn types.now fault (file_told file.now)) }
{
    match fault {
        DataFileError::BadNumber => bad_number(alloc, file.records.as_slice()),
        DataFileError::DuplicateId => repeat(alloc, file.records.as_slice()),
        DataFileError::BadRoot => {
            let id = Text::from_str(alloc, file.root.as_str())?;
            Ok(Some(RecordPlace::Root(id)))
        }
        _ => place_among(alloc, types, fault, file.records.as_slice()),
    }
}

/// Where a fault stands of a file that is JSON. An error is want of memory.
fn place_in_json(
    alloc: Global,
    types: &NamedItems<TableType>,
    fault: DataFileError,
    json: &Value,
) -> Result<Option<RecordPlace>, AllocError>
    ensures { IfOk result (spec.IsPlaceOf types.now fault (file_of (view json.now))) }
{
    match file_of(alloc, json)? {
        Some(file) => place_in(alloc, types, fault, &file),
        None => Ok(None),
    }
}

/// Where a fault stands of a file, its shape aside. An error is want of memory.
#[tactic(auto, using(crate::proofs::Placing::not_parsed))]
fn place_in_bytes(
    alloc: Global,
    bytes: &[u8],
    types: &NamedItems<TableType>,
    fault: DataFileError,
) -> Result<Option<RecordPlace>, AllocError>
    ensures { IfOk result (spec.IsPlaceInBytes types.now fault bytes.now) }
{
    match json_of(alloc, bytes) {
        Ok(json) => place_in_json(alloc, types, fault, &json),
        Err(DataFileError::Memory) => Err(AllocError),
        Err(_) => Ok(None),
    }
}

/// The member at which a file has not its shape, if it has not. An error is want of memory.
fn shape_place(alloc: Global, bytes: &[u8]) -> Result<Option<RecordPlace>, AllocError>
    ensures { Gives result (option_map place.Shape (fault_in bytes.now)) }
{
    match shape_fault(alloc, bytes)? {
        Some(place) => Ok(Some(RecordPlace::Shape(place))),
        None => Ok(None),
    }
}

/// At which record and field of a file the fault stands that [`read_records`](crate::read_records)
/// tells of it, by what a table knows of a schema's types. It is
///
/// - of `BadShape` the first member that is missing or of another kind than is wanted: the members
///   of an object are looked at in the order in which `read_records` names them, the fields of a
///   record and the items of a list in theirs;
/// - of `BadNumber`, `UnknownField` and `BadLink` the first field that has the fault, of the first
///   record that has such a field;
/// - of `UnknownType` the first record that has the fault;
/// - of `DuplicateId` a record whose id another one has;
/// - of `BadRoot` the root's id.
///
/// `None` of `NotJson` and `Memory`, which stand at no record; and where there is no such member,
/// field or record. Each fault may be asked of any file, whatever is told of it: the root's id is
/// given of each file that has the shape, and of one that has not a place is given of `BadShape`
/// alone. Of `UnknownType`, `UnknownField` and `BadLink` there is none either where a number is no
/// whole one of 32 bits, nor of `BadLink` where two records have one id. The only error is want of
/// memory, which tells nothing of the file.
///
/// Of the fault that is told of a file, but `NotJson` and want of memory, there is a place: the law
/// [`told_faults_have_places`](crate::laws::told_faults_have_places).
#[tactic(auto, using(crate::proofs::Placing::other_place))]
pub fn place_of_fault(
    alloc: Global,
    bytes: &[u8],
    types: &NamedItems<TableType>,
    fault: DataFileError,
) -> Result<Option<RecordPlace>, AllocError>
    ensures { IfOk result (spec.IsPlace types.now fault bytes.now) }
{
    match fault {
        DataFileError::BadShape => shape_place(alloc, bytes),
        _ => place_in_bytes(alloc, bytes, types, fault),
    }
}
