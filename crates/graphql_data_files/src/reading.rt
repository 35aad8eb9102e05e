//! Records from their file, step by step.

ghost use Rattle.std.specs.Prelude.{◌≡◌, ok_or};
ghost use Rattle.graphql_text.specs.Memory.{Meets, MeetsBy};
ghost use Rattle.graphql_lines.specs.Request.{data_of};
ghost use Rattle.serde_json.specs.View.{view};
ghost use Rattle.graphql_data_files.specs.DataFiles as spec;
ghost use Rattle.graphql_data_files.specs.LentDrafts.{file_told};
ghost use Rattle.graphql_data_files.specs.Refusals.{fault_of};
ghost use Rattle.graphql_data_files.specs.declared.data_file_error.DataFileError.TheVariants.{Memory};
ghost use Rattle.graphql_data_files.specs.declared.data_file_error.DataFileError.TheVariants.{NotJson};

use crate::data_file_error::DataFileError;
use crate::drafts::{Drafts, file_of, records_of};
use crate::records::judged;
use graphql_lines::{LineRefusal, json_of_line};
use graphql_names::NamedItems;
use graphql_records::{Records, TableType};
use serde_json::Value;
use std::alloc::Global;

/// Why a file whose JSON is refused has no records.
fn fault_of(refusal: LineRefusal) -> DataFileError
    ensures { result ≡ fault_of refusal }
{
    match refusal {
        LineRefusal::Memory => DataFileError::Memory,
        _ => DataFileError::NotJson,
    }
}

/// The JSON of a file. `Memory` is want of memory.
pub(crate) fn json_of(alloc: Global, bytes: &[u8]) -> Result<Value, DataFileError>
    ensures { MeetsBy view (λ e. e ≡ Memory) result (ok_or (data_of bytes.now) NotJson) }
{
    match json_of_line(alloc, bytes) {
        Ok(json) => Ok(json),
        Err(refusal) => Err(fault_of(refusal)),
    }
}

/// The records of a file that has been drafted, or the first of its faults. `Memory` is want of
/// memory.
fn drafted(
    alloc: Global,
    file: &Drafts<'_>,
    types: &NamedItems<TableType>,
    query: &str,
) -> Result<Records, DataFileError>
    ensures { Meets (λ e. e ≡ Memory) result
        (spec.drafted types.now query.now (file_told file.now)) }
{
    match records_of(alloc, file.records.as_slice())? {
        Some(records) => judged(alloc, types, query, file.root.as_str(), records),
        None => Err(DataFileError::BadNumber),
    }
}

/// The records that JSON describes, or the first of its faults. `Memory` is want of memory.
fn described(
    alloc: Global,
    json: &Value,
    types: &NamedItems<TableType>,
    query: &str,
) -> Result<Records, DataFileError>
    ensures { Meets (λ e. e ≡ Memory) result (spec.described types.now query.now (view json.now)) }
{
    match file_of(alloc, json)? {
        Some(file) => drafted(alloc, &file, types, query),
        None => Err(DataFileError::BadShape),
    }
}

/// The records that a file describes, by what a table knows of a schema's types, and the name of
/// its query root (GraphQL October 2021, 3.3.1 Root Operation Types). Or the first of the file's
/// faults, in the order of [`DataFileError`], where `Memory` is want of memory, which tells nothing
/// of the file.
///
/// The file is a JSON object with the object `roots`, in which the text `query` is the id of the
/// record from which queries start, and with the list `records`. A record has the texts `id` and
/// `type`, and the object `fields` of values: null, truth values, texts, whole numbers of 32 bits,
/// and lists of these, which may nest. At a field of a composite type each text, in lists too, is a
/// link, the id of a record. Members of other names are passed over.
pub fn read_records(
    alloc: Global,
    bytes: &[u8],
    types: &NamedItems<TableType>,
    query: &str,
) -> Result<Records, DataFileError>
    ensures { Meets (λ e. e ≡ Memory) result (spec.read_of types.now query.now bytes.now) }
{
    match json_of(alloc, bytes) {
        Ok(json) => described(alloc, &json, types, query),
        Err(fault) => Err(fault),
    }
}
