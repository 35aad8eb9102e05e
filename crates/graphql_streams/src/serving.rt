//! Answers each line of what is read.

ghost use Rattle.std.specs.Prelude.{◌≡◌, ◌<◌, ◌∷◌, [], ℕ, List, IfErr, OnOk, length};
ghost use Rattle.graphql_streams.specs.Counts.{HasRisen};
ghost use Rattle.graphql_streams.specs.Lines.{kept_of, last_line, whole_lines};
ghost use Rattle.graphql_streams.specs.Served.{Ends, ServedAll, ServesLines, Stops, WritesAfter};
ghost use Rattle.graphql_streams.specs.Served.{reads_after};

use crate::line_engine::LineEngine;
use crate::lines::{Buffers, end_line, feed};
use crate::sending::flush;
use crate::serve_error::ServeError;
use crate::streams::{ByteSink, ByteSource};
use std::alloc::Global;

/// How many bytes are read at a time, at most.
const BLOCK: usize = 65_536;

/// Answers the lines that end in a block, and writes their answers.
fn answer_block<E: LineEngine, O: ByteSink>(
    alloc: Global,
    engine: &mut E,
    limit: usize,
    buffers: &mut Buffers,
    block: &[u8],
    writer: &mut O,
) -> Result<(), ServeError>
    requires limit { limit ≡ E.limit engine.old }
    requires holds { E.holds engine.old }
    requires none { buffers.old.answers.items ≡ [] }
    ensures ok { (begun : List ℕ) → buffers.old.line.items ≡ kept_of limit begun
        → OnOk result (ServesLines E.answers engine.old (whole_lines begun block.now)
        (O.written writer.old) (O.written writer.new) engine.new) }
    ensures kept { (begun : List ℕ) → buffers.old.line.items ≡ kept_of limit begun
        → OnOk result (buffers.new.line.items ≡ kept_of limit (last_line begun block.now)) }
    ensures err { (begun : List ℕ) → buffers.old.line.items ≡ kept_of limit begun
        → IfErr result (λ e. Stops E.answers E.breaks (HasRisen (O.faults writer.old)
        (O.faults writer.new)) e engine.old (whole_lines begun block.now)
        (O.written writer.old) (O.written writer.new) engine.new) }
    ensures none { buffers.new.answers.items ≡ [] }
    ensures limit { E.limit engine.new ≡ E.limit engine.old }
    ensures holds { E.holds engine.new }
    ensures faults { WritesAfter result (O.faults writer.old) (O.faults writer.new) }
{
    let made = feed(alloc, engine, limit, buffers, block);
    flush(made, &mut buffers.answers, writer)
}

/// Answers the line behind the last line feed, and writes its answer.
fn answer_rest<E: LineEngine, O: ByteSink>(
    alloc: Global,
    engine: &mut E,
    limit: usize,
    buffers: &mut Buffers,
    writer: &mut O,
) -> Result<(), ServeError>
    requires limit { limit ≡ E.limit engine.old }
    requires holds { E.holds engine.old }
    requires none { buffers.old.answers.items ≡ [] }
    ensures ok { (begun : List ℕ) → buffers.old.line.items ≡ kept_of limit begun
        → OnOk result (ServesLines E.answers engine.old (begun ∷ [])
        (O.written writer.old) (O.written writer.new) engine.new) }
    ensures err { (begun : List ℕ) → buffers.old.line.items ≡ kept_of limit begun
        → IfErr result (λ e. Stops E.answers E.breaks
        (HasRisen (O.faults writer.old) (O.faults writer.new)) e engine.old (begun ∷ [])
        (O.written writer.old) (O.written writer.new) engine.new) }
    ensures faults { WritesAfter result (O.faults writer.old) (O.faults writer.new) }
{
    let made = end_line(alloc, engine, limit, buffers, &[]);
    flush(made, &mut buffers.answers, writer)
}

/// Answers each line of what the reader has, until its end, by way of a block into which it is
/// read.
fn serve_over<E: LineEngine, I: ByteSource, O: ByteSink>(
    alloc: Global,
    engine: &mut E,
    reader: &mut I,
    writer: &mut O,
    block: &mut [u8],
) -> Result<(), ServeError>
    requires block { 0 < length block.old }
    requires holds { E.holds engine.old }
    ensures ok { OnOk result (ServedAll E.answers engine.old (I.left reader.old) (I.left reader.new)
        (O.written writer.old) (O.written writer.new) engine.new) }
    ensures err { IfErr result (λ e.
        Ends E.answers E.breaks (HasRisen (O.faults writer.old) (O.faults writer.new)) e engine.old
        (I.left reader.old) (I.left reader.new) (O.written writer.old) (O.written writer.new)
        engine.new) }
    ensures reads { I.faults reader.new ≡ reads_after result (I.faults reader.old) }
    ensures writes { WritesAfter result (O.faults writer.old) (O.faults writer.new) }
{
    let limit = engine.line_limit();
    let mut buffers = Buffers::new(alloc);
    'reading: loop {
        match reader.read_some(block) {
            Err(_) => return Err(ServeError::Read),
            Ok(0) => return answer_rest(alloc, engine, limit, &mut buffers, writer),
            Ok(count) => match answer_block(
                alloc,
                engine,
                limit,
                &mut buffers,
                &block[..count],
                writer,
            ) {
                Ok(()) => {}
                Err(error) => return Err(error),
            },
        }
    }
}

/// Answers each line that is not empty of what the reader has, until its end. A line ends at a line
/// feed or at the end. Bytes are read by blocks, and the answers to the lines of a block are
/// written together, before the next block is asked for. Of a line that is longer than the engine
/// takes one byte more than that is kept, and the rest is let go as it is read.
///
/// Errors: a read that failed, a write that failed or took nothing, and want of memory, each at the
/// first that comes. After a failed read the answers to the whole lines before it are written.
/// After want of memory those to the lines before the one that met it are written, and the engine
/// is as they left it, but for what that line may have changed; where a write failed after that, a
/// beginning of those answers is written. After a failed write a beginning of the answers' text is
/// written, and the engine is as the lines left it whose answers were made.
pub fn serve_lines<E: LineEngine, I: ByteSource, O: ByteSink>(
    alloc: Global,
    engine: &mut E,
    reader: &mut I,
    writer: &mut O,
) -> Result<(), ServeError>
    requires { E.holds engine.old }
    ensures ok { OnOk result (ServedAll E.answers engine.old (I.left reader.old) (I.left reader.new)
        (O.written writer.old) (O.written writer.new) engine.new) }
    ensures err { IfErr result (λ e.
        Ends E.answers E.breaks (HasRisen (O.faults writer.old) (O.faults writer.new)) e engine.old
        (I.left reader.old) (I.left reader.new) (O.written writer.old) (O.written writer.new)
        engine.new) }
    ensures reads { I.faults reader.new ≡ reads_after result (I.faults reader.old) }
    ensures writes { WritesAfter result (O.faults writer.old) (O.faults writer.new) }
{
    let mut block = vec![in alloc; 0u8; BLOCK]?;
    serve_over(alloc, engine, reader, writer, block.as_mut_slice())
}
