//! A source of bytes that fails.

ghost use Rattle.std.specs.Prelude.{◌≡◌, Some};

use graphql_service::{ByteSource, ReadFailed};

/// Bytes that are there already, of which each read gives a few, until one fails. It takes no
/// memory.
#[derive(Drop)]
pub struct Source<'a> {
    /// What is still to be read.
    pub left: &'a [u8],

    /// How many bytes a read gives, at most; at least one.
    pub step: usize,

    /// How many reads are still to succeed. Each one after these fails.
    pub reads: u64,

    /// How many reads failed.
    pub faults: u64,
}

impl ByteSource for Source<'_> {
    ghost left = { λ source. Some source.left.now };

    ghost faults = { λ source. source.faults };

    ghost bound = { λ source. source.reads };

    fn read_some(&mut self, buffer: &mut [u8]) -> Result<usize, ReadFailed> {
        if self.reads == 0 {
            self.faults = self.faults.saturating_add(1);
            return Err(ReadFailed);
        }
        self.reads -= 1;
        let count = self.step.max(1).min(buffer.len()).min(self.left.len());
        let (front, rest) = self.left.split_at(count);
        buffer[..count].copy_from_slice(front);
        self.left = rest;
        Ok(count)
    }
}
