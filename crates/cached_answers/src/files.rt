//! The two files over which lines are answered.

ghost use Rattle.std.specs.Prelude.{◌≡◌, false};
ghost use Rattle.graphql_schema_files.specs.Builtin.{builtin_types};
ghost use Rattle.graphql_service.specs.Answers.{answerer_of};
ghost use Rattle.graphql_streams.specs.Served.{WritesAfter, reads_after};
ghost use Rattle.graphql_file_service.specs.Runs as runs;
ghost use Rattle.graphql_file_service.specs.TableServices.{IsDescribed, IsDue, IsMadeOf, IsReady};

use graphql_file_service::{
    ByteSink, ByteSource, DataFile, LINE_LIMIT, Records, RunFault, SELECTION_LIMIT, SchemaFile,
    Service, StandardChecks, TableResolver, TypeCheck,
};
use graphql_schema::{Check, RootNode};
use graphql_service::{Answering, ServiceFault};
use graphql_stores::AnswerCache;
use graphql_values::DefaultScalarValue;
use std::alloc::Global;

/// A service over a table of records.
type TableService = Service<DefaultScalarValue, TableResolver, Records>;

/// The service of a schema that can be executed, and the resolver and the records of its table.
fn service_of(
    root_node: RootNode<DefaultScalarValue>,
    resolver: TableResolver,
    records: Records,
) -> Result<TableService, RunFault>
    ensures { let accepts = ⟦<TypeCheck as Check<DefaultScalarValue>>⟧.accepts in
        IsReady root_node → IsMadeOf accepts root_node resolver records result }
{
    match Service::new(root_node, resolver, records, LINE_LIMIT, SELECTION_LIMIT) {
        Ok(service) => Ok(service),
        Err(ServiceFault::OtherBoolean) => Err(RunFault::OtherBoolean),
        Err(ServiceFault::Memory) => Err(RunFault::Memory),
        // No schema of a file has other directives than the standard's.
        Err(_) => Err(RunFault::NotExecutable),
    }
}

/// Answers each line that is not empty of what is read, until it ends, over the schema and the
/// records that two files describe, as `run_files` does, and keeps answers meanwhile, in so many
/// bytes at most.
pub fn serve_cached<I: ByteSource, O: ByteSink>(
    alloc: Global,
    schema: &[u8],
    records: &[u8],
    checks: StandardChecks,
    byte_limit: usize,
    reader: &mut I,
    writer: &mut O,
) -> Result<(), RunFault>
    ensures ran { let types = builtin_types checks.int checks.string checks.boolean checks.id
        checks.introspection in
        let accepts = ⟦<TypeCheck as Check<DefaultScalarValue>>⟧.accepts in
        let answerer = answerer_of ⟦<TableResolver as Answering<DefaultScalarValue>>⟧.answering in
        let streams = runs.streams (I.left reader.old) (I.left reader.new)
        (O.written writer.old) (O.written writer.new)
        (O.faults writer.old) (O.faults writer.new) in
        runs.Ran answerer (IsDescribed accepts types schema.now records.now)
        (IsDue accepts types schema.now records.now) streams false result }
    ensures reads { I.faults reader.new ≡ reads_after (runs.served result) (I.faults reader.old) }
    ensures writes { WritesAfter (runs.served result) (O.faults writer.old) (O.faults writer.new) }
{
    let root_node = SchemaFile::read(alloc, schema, checks)?;
    if !root_node.schema().schema_is_executable() {
        return Err(RunFault::NotExecutable);
    }
    let resolver = TableResolver::new(alloc, root_node.schema())?;
    let table = DataFile::read(alloc, records, root_node.schema())?;
    let service = service_of(root_node, resolver, table)?;
    let mut cache = AnswerCache::new(alloc, service, byte_limit);
    cache.serve(alloc, reader, writer)?;
    Ok(())
}
