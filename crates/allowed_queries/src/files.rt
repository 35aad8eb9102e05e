//! The files that are served.

ghost use Rattle.std.specs.Prelude.{◌≡◌};
ghost use Rattle.graphql_records.specs.Tables.{Table};
ghost use Rattle.graphql_schema_files.specs.Builtin.{builtin_types};
ghost use Rattle.graphql_service.specs.Answers.{answerer_of};
ghost use Rattle.graphql_streams.specs.Served.{WritesAfter, reads_after};
ghost use Rattle.graphql_file_service.specs.Runs as runs;
ghost use Rattle.graphql_file_service.specs.TableServices.{IsDescribed, IsDue, IsMadeOf, IsReady};
ghost use Rattle.allowed_queries.specs.Runs as spec;

use crate::failure::{Failure, unless_memory};
use graphql_file_service::{
    ByteSink, ByteSource, DataFile, LINE_LIMIT, Records, RunFault, SELECTION_LIMIT, SchemaFile,
    ServeError, Service, StandardChecks, TableResolver, TypeCheck,
};
use graphql_schema::{Check, RootNode};
use graphql_service::{Answering, ServiceFault};
use graphql_stores::{AllowedQueries, AllowingService};
use graphql_values::DefaultScalarValue;
use std::alloc::Global;
use std::fs;

/// The bytes of the file at a path.
pub(crate) fn bytes_at(rt: &HostRuntime, path: String) -> Result<Vec<u8>, Failure> {
    match fs::read(rt, path.as_str()) {
        Ok(bytes) => Ok(bytes),
        Err(error) => Err(unless_memory(error, Failure::CannotRead(path))),
    }
}

/// A service over a table of records.
type TableService = Service<DefaultScalarValue, TableResolver, Records>;

/// The service of a schema that can be executed, and the resolver and the records of its table.
fn service_of(
    root_node: RootNode<DefaultScalarValue>,
    resolver: TableResolver,
    records: Records,
) -> Result<TableService, RunFault>
    ensures { IsReady root_node
        → IsMadeOf ⟦<TypeCheck as Check<DefaultScalarValue>>⟧.accepts root_node resolver records
        result }
{
    match Service::new(root_node, resolver, records, LINE_LIMIT, SELECTION_LIMIT) {
        Ok(service) => Ok(service),
        Err(ServiceFault::OtherBoolean) => Err(RunFault::OtherBoolean),
        Err(ServiceFault::Memory) => Err(RunFault::Memory),
        // No schema of a file has other directives than the standard's.
        Err(_) => Err(RunFault::NotExecutable),
    }
}

/// Answers the lines of what is read by a service, where the store allows what they ask.
fn serve_allowed<I: ByteSource, O: ByteSink>(
    alloc: Global,
    service: TableService,
    allowed: AllowedQueries,
    reader: &mut I,
    writer: &mut O,
) -> Result<(), ServeError>
    ensures served { let answerer =
        answerer_of ⟦<TableResolver as Answering<DefaultScalarValue>>⟧.answering in
        let streams = runs.streams (I.left reader.old) (I.left reader.new)
        (O.written writer.old) (O.written writer.new)
        (O.faults writer.old) (O.faults writer.new) in
        (after : Table) × spec.AnsweredAllowed answerer allowed streams service after result }
    ensures reads { I.faults reader.new ≡ reads_after result (I.faults reader.old) }
    ensures writes { WritesAfter result (O.faults writer.old) (O.faults writer.new) }
{
    let mut allowing = AllowingService::new(service, allowed);
    allowing.serve(alloc, reader, writer)
}

/// Answers each line that is not empty of what is read, until it ends, where the store allows what
/// it asks, over the schema and the records that two files describe, as `run_files` of
/// `graphql_file_service` answers it; else it tells that the query is not allowed, as
/// `AllowingService::answer` says.
///
/// Errors: those of `run_files`, each where it comes there.
pub fn run_allowed<I: ByteSource, O: ByteSink>(
    alloc: Global,
    schema: &[u8],
    records: &[u8],
    allowed: AllowedQueries,
    checks: StandardChecks,
    reader: &mut I,
    writer: &mut O,
) -> Result<(), RunFault>
    ensures ran { let types = builtin_types checks.int checks.string checks.boolean checks.id
        checks.introspection in
        let accepts = ⟦<TypeCheck as Check<DefaultScalarValue>>⟧.accepts in
        let answerer = answerer_of ⟦<TableResolver as Answering<DefaultScalarValue>>⟧.answering in
        let streams = runs.streams (I.left reader.old) (I.left reader.new)
        (O.written writer.old) (O.written writer.new)
        (O.faults writer.old) (O.faults writer.new) in
        spec.RanAllowed answerer (IsDescribed accepts types schema.now records.now)
        (IsDue accepts types schema.now records.now) allowed streams result }
    ensures reads { I.faults reader.new ≡ reads_after (runs.served result) (I.faults reader.old) }
    ensures writes { WritesAfter (runs.served result) (O.faults writer.old) (O.faults writer.new) }
{
    let root_node = SchemaFile::read(alloc, schema, checks)?;
    if !root_node.schema().schema_is_executable() {
        return Err(RunFault::NotExecutable);
    }
    let resolver = TableResolver::new(alloc, root_node.schema())?;
    let table = DataFile::read(alloc, records, root_node.schema())?;
    let service = service_of(root_node, resolver, table)?;
    serve_allowed(alloc, service, allowed, reader, writer)?;
    Ok(())
}
