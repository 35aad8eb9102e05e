//! Which member of a file of records has not its shape.

ghost use Rattle.std.specs.Prelude.{◌≡◌, option_map};
ghost use Rattle.std.specs.Option.{option_copied};
ghost use Rattle.graphql_text.specs.Memory.{Gives};
ghost use Rattle.serde_json.specs.View.{items_view, members_view, view};
ghost use Rattle.graphql_data_files.specs.RecordShapes as spec;

use crate::data_file_error::DataFileError;
use crate::reading::json_of;
use crate::shape_place::ShapePlace;
use crate::values::has_shape;
use graphql_json::{list_at, text_at};
use graphql_text::Text;
use serde_json::{Map, Value};
use std::alloc::{AllocError, Global};

/// The name of the first member that is no value of a field.
fn misshapen(members: &Map<String, Value>) -> Option<&str>
    ensures { option_copied result ≡ spec.misshapen (members_view members.now.entries) }
{
    'members: for (key, member) in members.iter() {
        if !has_shape(member) {
            return Some(key.as_str());
        }
    }
    None
}

/// The object `fields`, if there is one.
fn members_in(json: &Value) -> Option<&Map<String, Value>>
    ensures { let told = option_map (λ members. members_view members.now.entries) result in
        told ≡ spec.members_in (view json.now) }
{
    json.get("fields")?.as_object()
}

/// The field of a record, if one is to blame. An error is want of memory.
fn field_place(
    alloc: Global,
    at: usize,
    name: Option<&str>,
) -> Result<Option<ShapePlace>, AllocError>
    ensures { Gives result (spec.field_place at (option_copied name.entry)) }
{
    match name {
        Some(name) => Ok(Some(ShapePlace::Field(at, Text::from_str(alloc, name)?))),
        None => Ok(None),
    }
}

/// The fault of the fields of the record at an index. An error is want of memory.
fn fields_fault(alloc: Global, at: usize, json: &Value) -> Result<Option<ShapePlace>, AllocError>
    ensures { Gives result (spec.fields_fault at (spec.members_in (view json.now))) }
{
    match members_in(json) {
        Some(members) => field_place(alloc, at, misshapen(members)),
        None => Ok(Some(ShapePlace::Fields(at))),
    }
}

/// The fault of the record at an index, its fields aside.
fn texts_fault(at: usize, json: &Value) -> Option<ShapePlace>
    ensures { result ≡ spec.texts_fault at (view json.now) }
{
    let id = text_at(json, "id").is_none().then_some(ShapePlace::Id(at));
    let type_name = text_at(json, "type")
        .is_none()
        .then_some(ShapePlace::Type(at));
    (!json.is_object())
        .then_some(ShapePlace::Record(at))
        .or(id.or(type_name))
}

/// The fault of the record at an index. An error is want of memory.
fn record_fault(alloc: Global, at: usize, json: &Value) -> Result<Option<ShapePlace>, AllocError>
    ensures { Gives result (spec.record_fault at (view json.now)) }
{
    match texts_fault(at, json) {
        Some(place) => Ok(Some(place)),
        None => fields_fault(alloc, at, json),
    }
}

/// The fault of the first of these records that has one. An error is want of memory.
fn first_fault(alloc: Global, items: &[Value]) -> Result<Option<ShapePlace>, AllocError>
    ensures { Gives result (spec.first_fault 0 (items_view items.now)) }
{
    'items: for (at, item) in items.iter().enumerate() {
        match record_fault(alloc, at, item)? {
            Some(place) => return Ok(Some(place)),
            None => {}
        }
    }
    Ok(None)
}

/// The fault of a file's records. An error is want of memory.
fn records_fault(alloc: Global, json: &Value) -> Result<Option<ShapePlace>, AllocError>
    ensures { Gives result (spec.records_fault (view json.now)) }
{
    match list_at(json, "records") {
        Some(items) => first_fault(alloc, items.as_slice()),
        None => Ok(Some(ShapePlace::Records)),
    }
}

/// The fault of a file's root.
fn root_fault(json: &Value) -> Option<ShapePlace>
    ensures { result ≡ spec.root_fault (view json.now) }
{
    match json.get("roots") {
        Some(roots) => {
            let query = text_at(roots, "query")
                .is_none()
                .then_some(ShapePlace::Root);
            (!roots.is_object()).then_some(ShapePlace::Roots).or(query)
        }
        None => Some(ShapePlace::Roots),
    }
}

/// The fault of a file that is JSON, its records aside.
fn front_fault(json: &Value) -> Option<ShapePlace>
    ensures { result ≡ spec.front_fault (view json.now) }
{
    (!json.is_object())
        .then_some(ShapePlace::File)
        .or(root_fault(json))
}

/// The fault of a file that is JSON. An error is want of memory.
fn file_fault(alloc: Global, json: &Value) -> Result<Option<ShapePlace>, AllocError>
    ensures { Gives result (spec.file_fault (view json.now)) }
{
    match front_fault(json) {
        Some(place) => Ok(Some(place)),
        None => records_fault(alloc, json),
    }
}

/// Which member of a file has not the shape of records: the first, where the members of an object
/// are looked at in the order in which [`read_records`](crate::read_records) names them, the fields
/// of a record in that of their names' bytes, and the items of a list in theirs. `None` where the
/// file has the shape, and where it is no JSON. An error is want of memory.
#[tactic(auto, using(crate::proofs::ShapeFaults::no_shape))]
pub(crate) fn shape_fault(alloc: Global, bytes: &[u8]) -> Result<Option<ShapePlace>, AllocError>
    ensures { Gives result (spec.fault_in bytes.now) }
{
    match json_of(alloc, bytes) {
        Ok(json) => file_fault(alloc, &json),
        Err(DataFileError::Memory) => Err(AllocError),
        Err(_) => Ok(None),
    }
}
