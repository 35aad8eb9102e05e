//! How lines are read and answers written.

use crate::service::served::{Asked, SampleService, over};
use graphql_file_service::service::{Piped, ServeError};
use std::alloc::Global;
use std::io::{self, ErrorKind, Read, Write};
use std::process::Abort;

/// A reader of bytes that gives a few at a time, and fails once it has given so many.
#[derive(Drop)]
struct Source<'a> {
    left: &'a [u8],
    step: usize,
    readable: usize,
}

impl Read for Source<'_> {
    fn read(&mut self, buf: &mut [u8]) -> io::Result<usize> {
        if self.readable == 0 {
            return Err(io::Error::from(ErrorKind::Other));
        }
        let most = self.step.min(self.readable).min(buf.len());
        let n = most.min(self.left.len());
        let (front, rest) = self.left.split_at(n);
        buf[..n].copy_from_slice(front);
        self.left = rest;
        self.readable -= n;
        Ok(n)
    }
}

/// A writer that takes a few bytes at a time, and fails once it has taken so many.
#[derive(Drop)]
struct Sink {
    taken: Vec<u8>,
    step: usize,
    writable: usize,
}

impl Write for Sink {
    fn write(&mut self, bytes: &[u8]) -> io::Result<usize> {
        if self.writable == 0 {
            return Err(io::Error::from(ErrorKind::Other));
        }
        let n = self.step.min(self.writable).min(bytes.len());
        if self.taken.extend_from_slice(&bytes[..n]).is_err() {
            return Err(io::Error::from(ErrorKind::OutOfMemory));
        }
        self.writable -= n;
        Ok(n)
    }

    fn flush(&mut self) -> io::Result<()> {
        Ok(())
    }
}

/// A writer that takes nothing.
#[derive(Drop)]
struct Full;

impl Write for Full {
    fn write(&mut self, _bytes: &[u8]) -> io::Result<usize> {
        Ok(0)
    }

    fn flush(&mut self) -> io::Result<()> {
        Ok(())
    }
}

/// An empty line, one of a lone carriage return, two that are no requests, and one that no line
/// feed ends.
const INPUT: &[u8] = b"\n\r\n{\"query\":5}\n\
{\"query\":\"{ hero { name } }\",\"variables\":{\"x\":1.0}}\n{\"query\":\"{ hero { name } }\"}";

const ANSWERS: &[u8] = b"{\"errors\":[{\"message\":\"Line is not a request\"}]}\n\
{\"errors\":[{\"message\":\"Line is not a request\"}]}\n\
{\"errors\":[{\"message\":\"A number in variables is not whole or does not fit 32 bits\"}]}\n\
{\"data\":{\"hero\":{\"name\":\"Ann\"}}}\n";

/// The answers to the whole lines among the first 20 bytes of that input.
const FIRST_ANSWERS: &[u8] = b"{\"errors\":[{\"message\":\"Line is not a request\"}]}\n\
{\"errors\":[{\"message\":\"Line is not a request\"}]}\n";

/// The first 60 bytes of the answers.
const BEGUN_ANSWERS: &[u8] = b"{\"errors\":[{\"message\":\"Line is not a request\"}]}\n\
{\"errors\":[";

/// What is told where plain texts are asked for.
const PLAIN: &[u8] = b"{\"errors\":[{\"message\":\"Line is not a request\"}]}\n\
{\"errors\":[{\"message\":\"Line is not a request\"}]}\n\
{\"errors\":[{\"message\":\"A number in variables is not whole or does not fit 32 bits\"}]}\n\
{\"plain\":\"query { hero { name } }\"}\n";

/// A mutation, and a query that sees what it changed.
const CHANGES: &[u8] =
    b"{\"query\":\"mutation { rename(id: \\\"h1\\\", name: \\\"Eve\\\") { name } }\"}\n\
{\"query\":\"{ hero { name } }\"}\n";

const CHANGED: &[u8] =
    b"{\"data\":{\"rename\":{\"name\":\"Eve\"}}}\n{\"data\":{\"hero\":{\"name\":\"Eve\"}}}\n";

/// More bytes than a run reads or writes.
const ALWAYS: usize = 65_536;

/// A run over input.
pub struct Run<'a> {
    input: &'a [u8],

    /// Whether plain texts are asked for.
    plain: bool,

    /// How many bytes a call reads or writes, at most.
    step: usize,

    /// After how many bytes reads fail.
    readable: usize,

    /// After how many bytes writes fail.
    writable: usize,

    /// Why it ends, if not at the end of the input.
    why: Option<ServeError>,

    /// What it writes.
    written: &'a [u8],
}

const RUNS: &[Run<'_>] = &[
    Run {
        input: INPUT,
        plain: false,
        step: 1,
        readable: ALWAYS,
        writable: ALWAYS,
        why: None,
        written: ANSWERS,
    },
    Run {
        input: INPUT,
        plain: false,
        step: ALWAYS,
        readable: ALWAYS,
        writable: ALWAYS,
        why: None,
        written: ANSWERS,
    },
    Run {
        input: INPUT,
        plain: false,
        step: 3,
        readable: 20,
        writable: ALWAYS,
        why: Some(ServeError::Read),
        written: FIRST_ANSWERS,
    },
    Run {
        input: INPUT,
        plain: false,
        step: 1,
        readable: ALWAYS,
        writable: 60,
        why: Some(ServeError::Write),
        written: BEGUN_ANSWERS,
    },
    Run {
        input: CHANGES,
        plain: false,
        step: 7,
        readable: ALWAYS,
        writable: ALWAYS,
        why: None,
        written: CHANGED,
    },
    Run {
        input: INPUT,
        plain: true,
        step: 1,
        readable: ALWAYS,
        writable: ALWAYS,
        why: None,
        written: PLAIN,
    },
    Run {
        input: INPUT,
        plain: true,
        step: 3,
        readable: 20,
        writable: ALWAYS,
        why: Some(ServeError::Read),
        written: FIRST_ANSWERS,
    },
];

/// Why it ends to answer what this reader gives, or to tell its plain texts.
fn ended<W: Write>(
    alloc: Global,
    service: &mut SampleService,
    plain: bool,
    source: Source<'_>,
    writer: &mut Piped<W>,
) -> Option<ServeError> {
    let mut reader = Piped::new(source);
    if plain {
        return service.serve_plain(alloc, &mut reader, writer).err();
    }
    service.serve(alloc, &mut reader, writer).err()
}

/// Asserts how runs end and what they write, and that a writer that takes nothing ends one.
pub fn are_served(rt: &impl Abort, alloc: Global, service: &mut SampleService, runs: &[Run<'_>]) {
    for run in runs {
        let source = Source {
            left: run.input,
            step: run.step,
            readable: run.readable,
        };
        let mut writer = Piped::new(Sink {
            taken: Vec::new(alloc),
            step: run.step,
            writable: run.writable,
        });
        let why = ended(alloc, service, run.plain, source, &mut writer);
        assert!(rt; why == run.why);
        let Sink { taken, .. } = writer.into_inner();
        assert_eq!(rt; taken.as_slice(), run.written);
    }
    let source = Source {
        left: INPUT,
        step: ALWAYS,
        readable: ALWAYS,
    };
    let why = ended(alloc, service, false, source, &mut Piped::new(Full));
    assert!(rt; why == Some(ServeError::Write));
}

#[test]
fn answers_lines_however_they_come(rt: HostRuntime) {
    over(&rt, rt.alloc(), Asked::Runs(RUNS));
}
