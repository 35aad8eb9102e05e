//! A source or a sink of any reader or writer.

ghost use Rattle.std.specs.Prelude.{◌≡◌, ◌-◌, ◌^◌};

use crate::streams::{ByteSink, ByteSource, ReadFailed, WriteFailed};
use std::io::{ErrorKind, Read, Write};

/// A reader or a writer of std, as a source or a sink. A call that was interrupted is made again,
/// and counts as no failure. Each read after the first 2^64 - 1 fails, so that reading ends. What a
/// writer holds back is flushed by its owner.
#[derive(Drop)]
pub struct Piped<T> {
    inner: T,
    reads: u64,
    faults: u64,
}

impl<T> Piped<T> {
    /// A source or a sink of this reader or writer, of which no call was made and none failed.
    pub fn new(inner: T) -> Piped<T>
        ensures { result ≡ record { inner = inner; reads = 0; faults = 0 } }
    {
        Piped {
            inner,
            reads: 0,
            faults: 0,
        }
    }

    /// How many calls failed, or wrote nothing: up to 2^64 - 1.
    pub fn faults(&self) -> u64
        ensures { result ≡ self.now.faults }
    {
        self.faults
    }

    /// The reader or writer.
    pub fn into_inner(self) -> T
        ensures { result ≡ self.inner }
    {
        let Piped { inner, .. } = self;
        inner
    }
}

impl<T: Read> ByteSource for Piped<T> {
    ghost left = { λ piped. T.remaining piped.inner };

    ghost faults = { λ piped. piped.faults };

    ghost bound = { λ piped. 2 ^ 64 - 1 - piped.reads };

    fn read_some(&mut self, buffer: &mut [u8]) -> Result<usize, ReadFailed> {
        'tries: while self.reads < u64::MAX {
            self.reads += 1;
            match self.inner.read(buffer) {
                Ok(count) => return Ok(count),
                Err(error) if error.kind() == ErrorKind::Interrupted => {}
                Err(_) => break 'tries,
            }
        }
        self.faults = self.faults.saturating_add(1);
        Err(ReadFailed)
    }
}

impl<T: Write> ByteSink for Piped<T> {
    ghost written = { λ piped. T.contents piped.inner };

    ghost faults = { λ piped. piped.faults };

    fn write_some(&mut self, bytes: &[u8]) -> Result<usize, WriteFailed> {
        'tries: for _ in 0..u64::MAX {
            match self.inner.write(bytes) {
                Ok(0) => break 'tries,
                Ok(count) => return Ok(count),
                Err(error) if error.kind() == ErrorKind::Interrupted => {}
                Err(_) => break 'tries,
            }
        }
        self.faults = self.faults.saturating_add(1);
        Err(WriteFailed)
    }
}
