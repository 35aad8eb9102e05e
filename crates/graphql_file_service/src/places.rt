//! Where in the files of a schema and of its records the fault of a run stands.

ghost use Rattle.std.specs.Prelude.{◌≡◌, IfOk, option_map};
ghost use Rattle.std.specs.Option.{option_copied};
ghost use Rattle.graphql_text.specs.Memory.{Gives};
ghost use Rattle.graphql_file_service.specs.FaultPlaces as spec;

use crate::fault_place::{FaultPlace, PromisePlace, TextPlace};
use crate::run_fault::RunFault;
use graphql_data_files::{DataFileError, place_of_fault as record_at};
use graphql_schema_files::{
    Outline, SchemaFileError, outline, place_of_fault as declaration_at, shape_fault,
};
use graphql_table::table_types;
use graphql_text::{Text, TextRef};
use serde_json::Value;
use std::alloc::{AllocError, Global};

/// Where bytes stop being JSON, if they do. An error is want of memory.
fn json_place(alloc: Global, bytes: &[u8]) -> Result<Option<FaultPlace>, AllocError>
    ensures { IfOk result (spec.IsJsonPlace bytes.now) }
{
    match Value::from_slice(alloc, bytes) {
        Ok(_json) => Ok(None),
        Err(error) if error.is_memory() => Err(AllocError),
        Err(error) => Ok(Some(FaultPlace::Json(TextPlace {
            line: error.line(),
            column: error.column(),
        }))),
    }
}

/// The declaration at which a fault of the schema's file stands, if it stands at one. An error is
/// want of memory.
fn declaration_place(
    alloc: Global,
    schema: &[u8],
    fault: &SchemaFileError,
) -> Result<Option<FaultPlace>, AllocError>
    ensures { IfOk result (spec.IsDeclarationPlace schema.now fault.now) }
{
    match declaration_at(alloc, schema, fault)? {
        Some(at) => Ok(Some(FaultPlace::Declaration(at))),
        None => Ok(None),
    }
}

/// The member of the schema's file that has not its shape, if one has not. An error is want of
/// memory.
fn shape_place(alloc: Global, schema: &[u8]) -> Result<Option<FaultPlace>, AllocError>
    ensures { IfOk result (spec.IsShapePlace schema.now) }
{
    match shape_fault(alloc, schema)? {
        Some(fault) => Ok(Some(FaultPlace::Shape(fault))),
        None => Ok(None),
    }
}

/// Where a fault of the schema's file stands. An error is want of memory.
#[tactic(auto, using(crate::proofs::Placing::schema_rest))]
fn schema_place(
    alloc: Global,
    schema: &[u8],
    fault: &SchemaFileError,
) -> Result<Option<FaultPlace>, AllocError>
    ensures { IfOk result (spec.IsSchemaPlace schema.now fault.now) }
{
    match fault {
        SchemaFileError::NotJson => json_place(alloc, schema),
        SchemaFileError::BadShape => shape_place(alloc, schema),
        _ => declaration_place(alloc, schema, fault),
    }
}

/// A lent text, if there is one. An error is want of memory.
fn owned(alloc: Global, text: Option<TextRef<'_>>) -> Result<Option<Text>, AllocError>
    ensures { Gives result text.entry }
{
    match text {
        Some(text) => Ok(Some(Text::from_str(alloc, text.as_str())?)),
        None => Ok(None),
    }
}

/// The first promise that a type of an outline does not keep. An error is want of memory.
fn promise_in(alloc: Global, outline: &Outline) -> Result<Option<FaultPlace>, AllocError>
    ensures { IfOk result (spec.IsPromisePlace outline.now) }
{
    match outline.broken_promise() {
        Some(broken) => {
            let type_name = Text::from_str(alloc, broken.type_name.as_str())?;
            let interface = Text::from_str(alloc, broken.interface.as_str())?;
            let field = owned(alloc, broken.field)?;
            Ok(Some(FaultPlace::Promise(PromisePlace {
                type_name,
                interface,
                field,
            })))
        }
        None => Ok(None),
    }
}

/// The first promise that a type of the schema's file does not keep. An error is want of memory.
#[tactic(auto, using(crate::proofs::Placing::no_outline))]
fn promise_place(alloc: Global, schema: &[u8]) -> Result<Option<FaultPlace>, AllocError>
    ensures { IfOk result (spec.IsByOutline schema.now spec.IsPromisePlace) }
{
    match outline(alloc, schema) {
        Ok(outline) => promise_in(alloc, &outline),
        Err(SchemaFileError::Memory) => Err(AllocError),
        Err(_) => Ok(None),
    }
}

/// The record at which a fault of the file of records stands, if it stands at one, by the types of
/// an outline. An error is want of memory.
fn record_in(
    alloc: Global,
    outline: &Outline,
    records: &[u8],
    fault: DataFileError,
) -> Result<Option<FaultPlace>, AllocError>
    ensures { IfOk result (spec.IsRecordPlace records.now fault outline.now) }
{
    let types = table_types(alloc, outline)?;
    match record_at(alloc, records, &types, fault)? {
        Some(at) => Ok(Some(FaultPlace::Record(at))),
        None => Ok(None),
    }
}

/// The same by the types of the schema's file. An error is want of memory.
#[tactic(auto, using(crate::proofs::Placing::no_outline))]
fn record_place(
    alloc: Global,
    schema: &[u8],
    records: &[u8],
    fault: DataFileError,
) -> Result<Option<FaultPlace>, AllocError>
    ensures { IfOk result (spec.IsByOutline schema.now (spec.IsRecordPlace records.now fault)) }
{
    match outline(alloc, schema) {
        Ok(outline) => record_in(alloc, &outline, records, fault),
        Err(SchemaFileError::Memory) => Err(AllocError),
        Err(_) => Ok(None),
    }
}

/// Where a fault of the file of records stands. An error is want of memory.
#[tactic(auto, using(crate::proofs::Placing::data_rest))]
fn data_place(
    alloc: Global,
    schema: &[u8],
    records: &[u8],
    fault: DataFileError,
) -> Result<Option<FaultPlace>, AllocError>
    ensures { IfOk result (spec.IsDataPlace schema.now records.now fault) }
{
    match fault {
        DataFileError::NotJson => json_place(alloc, records),
        _ => record_place(alloc, schema, records, fault),
    }
}

/// Where in the files of a schema and of its records the fault stands that
/// [`run_files`](crate::run_files) tells of them:
///
/// - of a file that is no JSON the line and the column at which it stops being some, as
///   `serde_json` tells;
/// - of a schema's file without the shape of one the first member that has not its shape, and what
///   is wanted there, as `shape_fault` of `graphql_schema_files` tells;
/// - of another fault of the schema's file the type, the field and the argument, as
///   `place_of_fault` of `graphql_schema_files` tells;
/// - of `NotExecutable` the first promise that a type does not keep, as
///   [`SchemaType::broken_promise`](graphql_schema::SchemaType::broken_promise) tells of the file's
///   outline;
/// - of another fault of the file of records the record and the field, or the member that has not
///   its shape, as `place_of_fault` of `graphql_data_files` tells by the types of the schema's
///   outline.
///
/// `None` where these know no place, and of the other faults. The only error is want of memory,
/// which tells nothing of the files.
pub fn place_of_fault(
    alloc: Global,
    schema: &[u8],
    records: &[u8],
    fault: &RunFault,
) -> Result<Option<FaultPlace>, AllocError>
    ensures { IfOk result (spec.IsPlaceOf schema.now records.now fault.now) }
{
    match fault {
        RunFault::Schema(fault) => schema_place(alloc, schema, fault),
        RunFault::NotExecutable => promise_place(alloc, schema),
        RunFault::Data(fault) => data_place(alloc, schema, records, *fault),
        RunFault::OtherBoolean | RunFault::Serve(_) | RunFault::Memory => Ok(None),
    }
}
