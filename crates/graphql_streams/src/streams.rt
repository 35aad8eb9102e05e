//! Bytes from somewhere, and bytes to somewhere.

ghost use Rattle.std.specs.Prelude.{◌≡◌, ◌<◌, ◌≤◌, ℕ, List, length, codes, IfOk, OnOk, MatchResult};
ghost use Rattle.std.specs.Prelude.{Option, Some};
ghost use Rattle.std.specs.Io.KnownBytes.{ReadConsumes, WriteAppends};
ghost use Rattle.graphql_streams.specs.Counts.{risen, risen_if_none};

use std::fmt;
use thiserror::Error;

/// A read failed.
#[derive(Clone, Copy, Debug, Error, PartialEq, Eq)]
pub struct ReadFailed;

/// Writes that a read failed.
impl fmt::Display for ReadFailed {
    ghost output = { λ _. Some (codes "read failed") };

    fn fmt<W: fmt::Write>(&self, f: &mut fmt::Formatter<W>) -> fmt::Result {
        f.write_str("read failed")
    }
}

/// A write failed.
#[derive(Clone, Copy, Debug, Error, PartialEq, Eq)]
pub struct WriteFailed;

/// Writes that a write failed.
impl fmt::Display for WriteFailed {
    ghost output = { λ _. Some (codes "write failed") };

    fn fmt<W: fmt::Write>(&self, f: &mut fmt::Formatter<W>) -> fmt::Result {
        f.write_str("write failed")
    }
}

/// Where bytes come from.
pub trait ByteSource {
    /// The bytes that are still to come, where they are known.
    ghost left: { Self → Option (List ℕ) };

    /// How many of its reads failed. A count of 2^64 - 1 stays there.
    ghost faults: { Self → ℕ };

    /// A bound on how many of its reads may still succeed.
    ghost bound: { Self → ℕ };

    /// Reads some bytes to the front of a buffer that has room, and tells how many: none at the end
    /// alone. A read that fails takes no bytes.
    fn read_some(&mut self, buffer: &mut [u8]) -> Result<usize, ReadFailed>
        requires { 0 < length buffer.old }
        ensures within { IfOk result (λ count. count ≤ length buffer.new) }
        ensures bytes { ReadConsumes (left self.old) (left self.new) result buffer.new }
        ensures fewer { OnOk result (bound self.new < bound self.old) }
        ensures faults { MatchResult result (λ _. faults self.new ≡ faults self.old)
            (λ _. faults self.new ≡ risen (faults self.old)) };
}

/// Where bytes go.
pub trait ByteSink {
    /// The bytes that were taken, where they are known.
    ghost written: { Self → Option (List ℕ) };

    /// How many of its writes failed or took nothing. A count of 2^64 - 1 stays there.
    ghost faults: { Self → ℕ };

    /// Takes some bytes from the front of these, of which there are some, and tells how many. A
    /// write that fails takes none.
    fn write_some(&mut self, bytes: &[u8]) -> Result<usize, WriteFailed>
        requires { 0 < length bytes.now }
        ensures within { IfOk result (λ count. count ≤ length bytes.now) }
        ensures bytes { WriteAppends (written self.old) (written self.new) result bytes.now }
        ensures faults { MatchResult result
            (λ count. faults self.new ≡ risen_if_none count (faults self.old))
            (λ _. faults self.new ≡ risen (faults self.old)) };
}
