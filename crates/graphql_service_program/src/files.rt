//! The two files that are served.

ghost use Rattle.std.specs.Prelude.{◌≡◌, IfOk};
ghost use Rattle.graphql_schema_files.specs.Builtin.{builtin_types};
ghost use Rattle.graphql_service.specs.Answers.{answerer_of};
ghost use Rattle.graphql_file_service.specs.Runs as runs;
ghost use Rattle.graphql_file_service.specs.TableServices.{IsDescribed, IsDue};
ghost use Rattle.graphql_service_program.specs.Asked.{is_plain};
ghost use Rattle.graphql_service_program.specs.Placed.{TellsPlaced};

use crate::arguments::Arguments;
use crate::failure::{Failure, unless_memory};
use graphql_file_service::{
    ByteSink, ByteSource, PlacedFault, RunFault, StandardChecks, TableResolver, TypeCheck,
    run_files, sample,
};
use graphql_schema::Check;
use graphql_service::Answering;
use graphql_values::DefaultScalarValue;
use std::alloc::Global;
use std::fs;

/// What is served: the bytes of a file of a schema and of one of its records; whether plain texts
/// are asked for.
#[derive(Drop)]
pub struct Files {
    schema: Vec<u8>,
    records: Vec<u8>,
    plain: bool,
}

/// The bytes of the file at a path.
fn bytes_at(rt: &HostRuntime, path: String) -> Result<Vec<u8>, Failure> {
    match fs::read(rt, path.as_str()) {
        Ok(bytes) => Ok(bytes),
        Err(error) => Err(unless_memory(error, Failure::CannotRead(path))),
    }
}

/// The files that arguments name, or the sample's; plain texts are asked for where the arguments
/// do.
pub fn read_files(rt: &HostRuntime, arguments: Option<Arguments>) -> Result<Files, Failure>
    ensures { IfOk result (λ files. files.plain ≡ is_plain arguments) }
{
    let alloc = rt.alloc();
    match arguments {
        Some(
            Arguments {
                schema,
                records,
                plain,
            },
        ) => {
            let schema = bytes_at(rt, schema)?;
            let records = bytes_at(rt, records)?;
            Ok(Files {
                schema,
                records,
                plain,
            })
        }
        None => Ok(Files {
            schema: Vec::from_slice(alloc, sample::SCHEMA.as_bytes())?,
            records: Vec::from_slice(alloc, sample::RECORDS.as_bytes())?,
            plain: false,
        }),
    }
}

/// Answers the lines of what is read over the files, with these checks of the standard scalars, or
/// tells their plain texts where these are asked for, as `run_files` does.
pub fn serve_files<I: ByteSource, O: ByteSink>(
    alloc: Global,
    files: &Files,
    checks: StandardChecks,
    reader: &mut I,
    writer: &mut O,
) -> Result<(), RunFault>
    ensures { let types = builtin_types checks.int checks.string checks.boolean checks.id
        checks.introspection in
        let accepts = ⟦<TypeCheck as Check<DefaultScalarValue>>⟧.accepts in
        let answerer = answerer_of ⟦<TableResolver as Answering<DefaultScalarValue>>⟧.answering in
        let streams = runs.streams (I.left reader.old) (I.left reader.new)
        (O.written writer.old) (O.written writer.new)
        (O.faults writer.old) (O.faults writer.new) in
        runs.Ran answerer (IsDescribed accepts types files.now.schema.items files.now.records.items)
        (IsDue accepts types files.now.schema.items files.now.records.items) streams
        files.now.plain result }
{
    let schema = files.schema.as_slice();
    let records = files.records.as_slice();
    run_files(alloc, schema, records, checks, files.plain, reader, writer)
}

/// Why the program ends that met this fault of a run over the files: with where in them it stands,
/// as `PlacedFault::of` tells.
pub fn failure_of(alloc: Global, files: &Files, fault: RunFault) -> Failure
    ensures { TellsPlaced files.now.schema.items files.now.records.items fault result }
{
    let schema = files.schema.as_slice();
    let records = files.records.as_slice();
    Failure::Run(PlacedFault::of(alloc, schema, records, fault))
}
