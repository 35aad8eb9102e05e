//! Lines that begin and end in the blocks that are read.

ghost use Rattle.std.specs.Prelude.{◌≡◌, ◌==◌, ◌<◌, ◌+◌, ◌^◌, ◌++◌, ◌∷◌, [], ℕ, List, IfSome, OnOk};
ghost use Rattle.std.specs.Prelude.{OnErr, length, position};
ghost use Rattle.graphql_streams.specs.Lines.{kept_of, last_line, whole_lines, EndsAt};
ghost use Rattle.graphql_streams.specs.Runs.{Broken};
ghost use Rattle.graphql_streams.specs.Waiting.{Made, MadePartly};

use crate::line_engine::LineEngine;
use std::alloc::{AllocError, Global};

/// The buffers of a run, which are used again from line to line.
#[derive(Drop)]
pub struct Buffers {
    /// What is kept of the line that has begun.
    pub line: Vec<u8>,

    /// The answers that wait to be written.
    pub answers: Vec<u8>,
}

impl Buffers {
    /// No line has begun, and no answer waits.
    pub fn new(alloc: Global) -> Buffers
        ensures line { result.line.items ≡ [] }
        ensures answers { result.answers.items ≡ [] }
    {
        Buffers {
            line: Vec::new(alloc),
            answers: Vec::new(alloc),
        }
    }
}

/// Adds bytes to a line that has begun. One byte more than the limit makes it too long, so no more
/// of it is kept. An error is want of memory.
fn keep(line: &mut Vec<u8>, bytes: &[u8], limit: usize) -> Result<(), AllocError>
    ensures { (begun : List ℕ) → line.old.items ≡ kept_of limit begun
        → OnOk result (line.new.items ≡ kept_of limit (begun ++ bytes.now)) }
{
    if line.len() > limit {
        return Ok(());
    }
    let room = limit - line.len();
    if room < bytes.len() {
        line.extend_from_slice(&bytes[..room + 1])
    } else {
        line.extend_from_slice(bytes)
    }
}

/// The place of the first line feed.
fn first_feed(bytes: &[u8]) -> Option<usize>
    ensures place { result ≡ position (λ b. b == 10) bytes.now }
    ensures within { IfSome result (λ end. end < length bytes.now) }
    ensures fits { IfSome result (λ end. end + 1 < 2 ^ 64) }
{
    bytes.iter().position(|byte| *byte == b'\n')
}

/// Where the line ends that has begun: at the first line feed.
fn line_end(bytes: &[u8]) -> Option<usize>
    ensures ends { EndsAt bytes.now result }
    ensures within { IfSome result (λ end. end < length bytes.now) }
    ensures fits { IfSome result (λ end. end + 1 < 2 ^ 64) }
{
    first_feed(bytes)
}

/// Answers a line behind the answers that wait, unless it is empty. An error is want of memory.
fn answer_line<E: LineEngine>(
    alloc: Global,
    engine: &mut E,
    line: &[u8],
    answers: &mut Vec<u8>,
) -> Result<(), AllocError>
    requires { E.holds engine.old }
    ensures ok { OnOk result
        (Made E.answers engine.old (line.now ∷ []) answers.old.items answers.new.items engine.new) }
    ensures err { OnErr result ((answers.new.items ≡ answers.old.items)
        × Broken E.answers E.breaks engine.old (line.now ∷ []) engine.new) }
    ensures limit { E.limit engine.new ≡ E.limit engine.old }
    ensures holds { E.holds engine.new }
{
    if line.is_empty() {
        return Ok(());
    }
    engine.append_answer(alloc, line, answers)
}

/// Answers the line that has begun, which ends with these bytes; the next has not begun then. An
/// error is want of memory.
pub fn end_line<E: LineEngine>(
    alloc: Global,
    engine: &mut E,
    limit: usize,
    buffers: &mut Buffers,
    bytes: &[u8],
) -> Result<(), AllocError>
    requires limit { limit ≡ E.limit engine.old }
    requires holds { E.holds engine.old }
    ensures ok { (begun : List ℕ) → buffers.old.line.items ≡ kept_of limit begun
        → OnOk result (Made E.answers engine.old ((begun ++ bytes.now) ∷ [])
        buffers.old.answers.items buffers.new.answers.items engine.new) }
    ensures cleared { OnOk result (buffers.new.line.items ≡ []) }
    ensures err { (begun : List ℕ) → buffers.old.line.items ≡ kept_of limit begun
        → OnErr result ((buffers.new.answers.items ≡ buffers.old.answers.items)
        × Broken E.answers E.breaks engine.old ((begun ++ bytes.now) ∷ []) engine.new) }
    ensures limit { E.limit engine.new ≡ E.limit engine.old }
    ensures holds { E.holds engine.new }
{
    let Buffers { line, answers } = buffers;
    if line.is_empty() {
        return answer_line(alloc, engine, bytes, answers);
    }
    keep(line, bytes, limit)?;
    answer_line(alloc, engine, line.as_slice(), answers)?;
    line.clear();
    Ok(())
}

/// Takes a block of what is read: answers each line that ends in it, and keeps what comes of the
/// next. An error is want of memory.
pub fn feed<E: LineEngine>(
    alloc: Global,
    engine: &mut E,
    limit: usize,
    buffers: &mut Buffers,
    block: &[u8],
) -> Result<(), AllocError>
    requires limit { limit ≡ E.limit engine.old }
    requires holds { E.holds engine.old }
    ensures ok { (begun : List ℕ) → buffers.old.line.items ≡ kept_of limit begun
        → OnOk result (Made E.answers engine.old (whole_lines begun block.now)
        buffers.old.answers.items buffers.new.answers.items engine.new) }
    ensures kept { (begun : List ℕ) → buffers.old.line.items ≡ kept_of limit begun
        → OnOk result (buffers.new.line.items ≡ kept_of limit (last_line begun block.now)) }
    ensures err { (begun : List ℕ) → buffers.old.line.items ≡ kept_of limit begun
        → OnErr result (MadePartly E.answers E.breaks engine.old (whole_lines begun block.now)
        buffers.old.answers.items buffers.new.answers.items engine.new) }
    ensures limit { E.limit engine.new ≡ E.limit engine.old }
    ensures holds { E.holds engine.new }
{
    let mut rest = block;
    'lines: while let Some(end) = line_end(rest) {
        end_line(alloc, engine, limit, buffers, &rest[..end])?;
        rest = &rest[end + 1..];
    }
    keep(&mut buffers.line, rest, limit)
}
