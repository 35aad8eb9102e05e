//! Runs over lines.

use crate::ending::{Ending, is_left, judged};
use crate::lines::{CHANGES, Lines, lines_in};
use crate::refusing::Refusing;
use crate::sink::Sink;
use crate::source::Source;
use crate::spending::spend;
use crate::unmade::Unmade;
use graphql_sample::{SampleRecords, sample_records};
use graphql_schema::RootNode;
use graphql_service::{ServeError, Service};
use graphql_values::DefaultScalarValue;
use std::alloc::Global;

/// The greatest length of a line, in bytes.
const LINE_LIMIT: usize = 65_536;

/// The greatest size of a plain text, in fields and inline fragments.
pub const SELECTION_LIMIT: usize = 10_000;

/// A service over the sample.
type SampleService = Service<DefaultScalarValue, Refusing, SampleRecords>;

/// What fails in a run.
#[derive(Clone, Copy, PartialEq, Eq)]
pub enum Failing {
    /// No call.
    None,

    /// A read.
    Read,

    /// A write.
    Write,

    /// A write, which takes nothing and tells no error.
    EmptyWrite,

    /// A call of the resolver, which is refused memory.
    Answer,
}

/// A run over lines.
#[derive(Clone, Copy)]
pub struct Run {
    /// The lines.
    pub lines: Lines,

    /// How many bytes a read gives, at most.
    pub step: usize,

    /// What fails.
    pub failing: Failing,

    /// At which of these calls, from one.
    pub number: u64,

    /// How many requests for memory are made, and what they got let go, before the first line.
    pub spent: u32,
}

/// How many calls succeed: those before the one that fails, where it is one of these; else as many
/// as there are.
fn succeeding(run: &Run, fails: bool) -> u64 {
    if fails {
        run.number.saturating_sub(1)
    } else {
        u64::MAX
    }
}

/// The resolver of a run.
fn resolver(run: &Run) -> Refusing {
    if run.failing == Failing::Answer {
        Refusing::at(run.number)
    } else {
        Refusing::never()
    }
}

/// Why a service answers no more of the lines, if not for their end.
fn why_ended(
    alloc: Global,
    run: &Run,
    service: &mut SampleService,
    source: &mut Source<'_>,
    sink: &mut Sink,
) -> Option<ServeError> {
    if run.lines.plain {
        service.serve_plain(alloc, source, sink).err()
    } else {
        service.serve(alloc, source, sink).err()
    }
}

/// How a run ended that told of a want of memory: whole answer lines are written, and the line
/// behind them has left what it does or has changed nothing.
fn memory_ending(lines: &Lines, written: &[u8], records: &SampleRecords) -> Ending {
    match lines.answered_by(written) {
        Some(count) => {
            let next = count.saturating_add(1);
            let left = is_left(records, lines, count) || is_left(records, lines, next);
            judged(true, left, Ending::Stopped)
        }
        None => Ending::OtherAnswers,
    }
}

/// How a run ended that told this, where so many lines were read to their ends.
fn told_ending(
    run: &Run,
    why: Option<ServeError>,
    read: usize,
    written: &[u8],
    records: &SampleRecords,
) -> Ending {
    let lines = &run.lines;
    let left = is_left(records, lines, read);
    match (why, run.failing) {
        (None, _) => judged(written == lines.answers, left, Ending::Answered),
        (Some(ServeError::Read), Failing::Read) => {
            let answers = lines.answered_by(written) == Some(read);
            judged(answers, left, Ending::Stopped)
        }
        (Some(ServeError::Write), Failing::Write | Failing::EmptyWrite) => {
            judged(lines.answers.starts_with(written), left, Ending::Stopped)
        }
        (Some(ServeError::Memory), Failing::None | Failing::Answer) => {
            memory_ending(lines, written, records)
        }
        _ => Ending::OtherError,
    }
}

/// The service of a run, over this root node of the sample.
fn sample_service(
    alloc: Global,
    root_node: RootNode<DefaultScalarValue>,
    resolver: Refusing,
) -> Result<SampleService, Unmade> {
    let records = sample_records(alloc)?;
    let service = Service::new(root_node, resolver, records, LINE_LIMIT, SELECTION_LIMIT)?;
    Ok(service)
}

/// How it ends that a service is made, over this root node of the sample, and room for answers.
pub fn made(alloc: Global, root_node: RootNode<DefaultScalarValue>) -> Result<Ending, Unmade> {
    let _sink = Sink::new(alloc, u64::MAX, false)?;
    let service = sample_service(alloc, root_node, Refusing::never())?;
    let left = is_left(service.context(), &CHANGES, 0);
    Ok(judged(true, left, Ending::Answered))
}

/// How a run ends, over this root node of the sample.
pub fn served(
    alloc: Global,
    root_node: RootNode<DefaultScalarValue>,
    run: &Run,
) -> Result<Ending, Unmade> {
    let silent = run.failing == Failing::EmptyWrite;
    let writing = silent || run.failing == Failing::Write;
    let reading = run.failing == Failing::Read;
    let mut sink = Sink::new(alloc, succeeding(run, writing), silent)?;
    let mut source = Source {
        left: run.lines.input,
        step: run.step,
        reads: succeeding(run, reading),
        faults: 0,
    };
    let mut service = sample_service(alloc, root_node, resolver(run))?;
    spend(alloc, run.spent)?;
    let why = why_ended(alloc, run, &mut service, &mut source, &mut sink);
    let unread = lines_in(source.left);
    let read = lines_in(run.lines.input).saturating_sub(unread);
    let written = sink.taken.as_slice();
    Ok(told_ending(run, why, read, written, service.context()))
}
