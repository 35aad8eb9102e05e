//! Values of records' fields from JSON.

ghost use Rattle.std.specs.Prelude.{◌≡◌, option_map};
ghost use Rattle.graphql_text.specs.Memory.{Gives};
ghost use Rattle.serde_json.specs.View.{items_view, members_view, view};
ghost use Rattle.graphql_records.specs.declared.field_value.FieldValue.TheVariants as value;
ghost use Rattle.graphql_data_files.specs.FileValues as spec;

use graphql_lines::whole;
use graphql_records::{FieldValue, Fields};
use graphql_scalars::DefaultScalarValue;
use graphql_text::{Items, Text};
use serde_json::{Map, Value};
use std::alloc::{AllocError, Global};

/// Whether JSON is null, a truth value, a number, a text, or a list of these, which may nest. Takes
/// stack for each level that lists nest, of which `serde_json` reads 127 at most.
#[cycle(shapes)]
pub(crate) fn has_shape(json: &Value) -> bool
    ensures { result ≡ spec.has_shape (view json.now) }
{
    match json {
        Value::Null => true,
        Value::Bool(_) => true,
        Value::Number(_) => true,
        Value::String(_) => true,
        Value::Array(items) => have_shape(items.as_slice()),
        Value::Object(_) => false,
    }
}

/// Whether each of these has the shape of a value.
#[cycle(shapes)]
fn have_shape(items: &[Value]) -> bool
    ensures { result ≡ spec.have_shape (items_view items.now) }
{
    'items: for item in items {
        if !has_shape(item) {
            return false;
        }
    }
    true
}

/// Whether each of these members has the shape of a value.
pub(crate) fn fields_have_shape(members: &Map<String, Value>) -> bool
    ensures { result ≡ spec.fields_have_shape (members_view members.now.entries) }
{
    'members: for (_, member) in members.iter() {
        if !has_shape(member) {
            return false;
        }
    }
    true
}

/// The value of a field that JSON is; `None` where a number in it is no whole one of 32 bits, or it
/// has not the shape. Takes stack for each level that lists nest, of which `serde_json` reads 127
/// at most. An error is want of memory.
#[cycle(values)]
fn value_of(alloc: Global, json: &Value) -> Result<Option<FieldValue>, AllocError>
    ensures { Gives result (spec.file_value (view json.now)) }
{
    match json {
        Value::Null => Ok(Some(FieldValue::Null)),
        Value::Bool(value) => Ok(Some(FieldValue::Scalar(DefaultScalarValue::Boolean(*value)))),
        Value::Number(number) => match whole(number) {
            Some(value) => Ok(Some(FieldValue::Scalar(DefaultScalarValue::Int(value)))),
            None => Ok(None),
        },
        Value::String(text) => {
            let text = Text::from_str(alloc, text.as_str())?;
            Ok(Some(FieldValue::Scalar(DefaultScalarValue::String(text))))
        }
        Value::Array(items) => list_of(alloc, items.as_slice()),
        Value::Object(_) => Ok(None),
    }
}

/// The list of the values that these are; `None` where one is none. An error is want of memory.
#[cycle(values)]
fn list_of(alloc: Global, items: &[Value]) -> Result<Option<FieldValue>, AllocError>
    ensures { Gives result (option_map value.List (spec.file_values (items_view items.now))) }
{
    let mut found = Items::with_capacity(alloc, items.len())?;
    'items: for item in items {
        match value_of(alloc, item)? {
            Some(value) => found.push(value)?,
            None => return Ok(None),
        }
    }
    Ok(Some(FieldValue::List(found)))
}

/// The fields that these members are, by their names; `None` where the value of one is none. An
/// error is want of memory.
pub(crate) fn fields_of(
    alloc: Global,
    members: &Map<String, Value>,
) -> Result<Option<Fields>, AllocError>
    ensures { Gives result (spec.file_fields (members_view members.now.entries)) }
{
    let mut found = Items::with_capacity(alloc, members.len())?;
    'members: for (key, member) in members.iter() {
        match value_of(alloc, member)? {
            Some(value) => {
                let name = Text::from_str(alloc, key.as_str())?;
                found.push((name, value))?;
            }
            None => return Ok(None),
        }
    }
    Ok(Some(found))
}
