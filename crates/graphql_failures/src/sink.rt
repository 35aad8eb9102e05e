//! A sink of bytes that fails.

ghost use Rattle.std.specs.Prelude.{◌≡◌, Some};

use graphql_service::{ByteSink, WriteFailed};
use std::alloc::{AllocError, Global};

/// How many bytes a sink has room for.
const ROOM: usize = 1_024;

/// Memory that is there already, of which each write fills a byte, until one fails. It takes none.
#[derive(Drop)]
pub struct Sink {
    /// The bytes that were taken.
    pub taken: Vec<u8>,

    /// How many writes are still to succeed. Each one after these fails.
    pub writes: u64,

    /// Whether a write that fails takes nothing, and tells no error.
    pub silent: bool,

    /// How many writes failed or took nothing.
    pub faults: u64,
}

impl Sink {
    /// A sink of which so many writes succeed.
    pub fn new(alloc: Global, writes: u64, silent: bool) -> Result<Sink, AllocError> {
        Ok(Sink {
            taken: Vec::with_capacity(alloc, ROOM)?,
            writes,
            silent,
            faults: 0,
        })
    }
}

impl ByteSink for Sink {
    ghost written = { λ sink. Some sink.taken.items };

    ghost faults = { λ sink. sink.faults };

    fn write_some(&mut self, bytes: &[u8]) -> Result<usize, WriteFailed> {
        if self.writes > 0 {
            self.writes -= 1;
            if self.taken.extend_from_slice(&bytes[..1]).is_ok() {
                return Ok(1);
            }
        }
        self.faults = self.faults.saturating_add(1);
        if self.silent { Ok(0) } else { Err(WriteFailed) }
    }
}
