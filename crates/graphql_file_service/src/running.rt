//! Lines that are answered over files.

ghost use Rattle.std.specs.Prelude.{◌≡◌};
ghost use Rattle.graphql_schema_files.specs.Builtin.{builtin_types};
ghost use Rattle.graphql_service.specs.Answers.{answerer_of};
ghost use Rattle.graphql_streams.specs.Served.{WritesAfter, reads_after};
ghost use Rattle.graphql_file_service.specs.Runs as spec;
ghost use Rattle.graphql_file_service.specs.TableServices.{IsDescribed, IsDue, IsMadeOf, IsReady};

use crate::data_file::DataFile;
use crate::run_fault::RunFault;
use graphql_scalars::DefaultScalarValue;
use graphql_schema::scalar_checks::StandardChecks;
use graphql_schema::{Check, RootNode, TypeCheck};
use graphql_schema_files::SchemaFile;
use graphql_service::{Answering, ByteSink, ByteSource, ServeError, Service, ServiceFault};
use graphql_table::{Records, TableResolver};
use std::alloc::Global;

/// The greatest length of a line, in bytes.
pub const LINE_LIMIT: usize = 65_536;

/// The greatest size of a plain text, in fields and inline fragments.
pub const SELECTION_LIMIT: usize = 10_000;

/// A service over a table of records.
type TableService = Service<DefaultScalarValue, TableResolver, Records>;

/// The service of a schema that can be executed, and the resolver and the records of its table.
fn service_of(
    root_node: RootNode<DefaultScalarValue>,
    resolver: TableResolver,
    records: Records,
) -> Result<TableService, RunFault>
    ensures { IsReady root_node
        → IsMadeOf ⟦<TypeCheck as Check<DefaultScalarValue>>⟧.accepts root_node resolver records
        result }
{
    match Service::new(root_node, resolver, records, LINE_LIMIT, SELECTION_LIMIT) {
        Ok(service) => Ok(service),
        Err(ServiceFault::OtherBoolean) => Err(RunFault::OtherBoolean),
        Err(ServiceFault::Memory) => Err(RunFault::Memory),
        // No schema of a file has other directives than the standard's.
        Err(_) => Err(RunFault::NotExecutable),
    }
}

/// Answers the lines of what is read by a service, or tells their plain texts.
fn serve_by<I: ByteSource, O: ByteSink>(
    alloc: Global,
    service: &mut TableService,
    plain: bool,
    reader: &mut I,
    writer: &mut O,
) -> Result<(), ServeError>
    ensures served { let answerer =
        answerer_of ⟦<TableResolver as Answering<DefaultScalarValue>>⟧.answering in
        let streams = spec.streams (I.left reader.old) (I.left reader.new)
        (O.written writer.old) (O.written writer.new)
        (O.faults writer.old) (O.faults writer.new) in
        spec.Served answerer streams plain service.old service.new.context result }
    ensures reads { I.faults reader.new ≡ reads_after result (I.faults reader.old) }
    ensures writes { WritesAfter result (O.faults writer.old) (O.faults writer.new) }
{
    if plain {
        service.serve_plain(alloc, reader, writer)
    } else {
        service.serve(alloc, reader, writer)
    }
}

/// Answers each line that is not empty of what is read, until it ends, over the schema and the
/// records that two files describe; or, where `plain` is asked, tells the plain text of each, with
/// [`SELECTION_LIMIT`] fields and inline fragments at most. The files are those of
/// [`SchemaFile::read`], whose scalars get the checks that are given, and of [`DataFile::read`].
/// Both are judged before the first line is read. Lines have at most [`LINE_LIMIT`] bytes. What is
/// read and written is as [`Service::serve`](graphql_service::Service::serve) says, or
/// [`Service::serve_plain`](graphql_service::Service::serve_plain), and the records that the lines
/// leave are let go at the end.
///
/// Errors: the first that stands, in the order of [`RunFault`]. `Serve` has the error of
/// that call, and what was read and written by then is what is said there. Of any other fault
/// nothing is read and nothing written, and want of memory, whichever fault has it, tells nothing
/// of the files.
pub fn run_files<I: ByteSource, O: ByteSink>(
    alloc: Global,
    schema: &[u8],
    records: &[u8],
    checks: StandardChecks,
    plain: bool,
    reader: &mut I,
    writer: &mut O,
) -> Result<(), RunFault>
    ensures ran { let types = builtin_types checks.int checks.string checks.boolean checks.id
        checks.introspection in
        let accepts = ⟦<TypeCheck as Check<DefaultScalarValue>>⟧.accepts in
        let answerer = answerer_of ⟦<TableResolver as Answering<DefaultScalarValue>>⟧.answering in
        let streams = spec.streams (I.left reader.old) (I.left reader.new)
        (O.written writer.old) (O.written writer.new)
        (O.faults writer.old) (O.faults writer.new) in
        spec.Ran answerer (IsDescribed accepts types schema.now records.now)
        (IsDue accepts types schema.now records.now) streams plain result }
    ensures reads { I.faults reader.new ≡ reads_after (spec.served result) (I.faults reader.old) }
    ensures writes { WritesAfter (spec.served result) (O.faults writer.old) (O.faults writer.new) }
{
    let root_node = SchemaFile::read(alloc, schema, checks)?;
    if !root_node.schema().schema_is_executable() {
        return Err(RunFault::NotExecutable);
    }
    let resolver = TableResolver::new(alloc, root_node.schema())?;
    let table = DataFile::read(alloc, records, root_node.schema())?;
    let mut service = service_of(root_node, resolver, table)?;
    serve_by(alloc, &mut service, plain, reader, writer)?;
    Ok(())
}
