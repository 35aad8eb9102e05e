//! Answers that wait, and are written.

ghost use Rattle.std.specs.Prelude.{◌≡◌, [], ℕ, List, IfErr, OnOk, OnErr, Ok};
ghost use Rattle.std.specs.Io.KnownBytes.{Appends};
ghost use Rattle.graphql_streams.specs.Counts.{HasRisen, risen};
ghost use Rattle.graphql_streams.specs.Served.{Sent, WritesAfter};
ghost use Rattle.graphql_streams.specs.Waiting.{WroteSome};

use crate::serve_error::ServeError;
use crate::streams::{ByteSink, WriteFailed};
use std::alloc::AllocError;

/// Writes all of the bytes.
fn send<O: ByteSink>(writer: &mut O, bytes: &[u8]) -> Result<(), WriteFailed>
    ensures ok { OnOk result (Appends (O.written writer.old) (O.written writer.new) bytes.now
        × (O.faults writer.new ≡ O.faults writer.old)) }
    ensures err { OnErr result ((more : List ℕ)
        × Sent (O.written writer.old) (O.written writer.new) bytes.now more
        × (O.faults writer.new ≡ risen (O.faults writer.old))) }
{
    let mut rest = bytes;
    'rest: while !rest.is_empty() {
        match writer.write_some(rest) {
            Ok(count) => {
                if count == 0 {
                    return Err(WriteFailed);
                }
                rest = &rest[count..];
            }
            Err(failed) => return Err(failed),
        }
    }
    Ok(())
}

/// Writes the answers that wait, and then tells whether they are all that were to be made, or
/// memory ran out, also where a write failed after that.
pub fn flush<O: ByteSink>(
    made: Result<(), AllocError>,
    answers: &mut Vec<u8>,
    writer: &mut O,
) -> Result<(), ServeError>
    ensures ok { OnOk result ((made ≡ Ok tt)
        × Appends (O.written writer.old) (O.written writer.new) answers.old.items) }
    ensures err { IfErr result (λ e.
        WroteSome (HasRisen (O.faults writer.old) (O.faults writer.new)) e made answers.old.items
        (O.written writer.old) (O.written writer.new)) }
    ensures none { answers.new.items ≡ [] }
    ensures faults { WritesAfter result (O.faults writer.old) (O.faults writer.new) }
{
    let sent = send(writer, answers.as_slice());
    answers.clear();
    match made {
        Ok(()) => match sent {
            Ok(()) => Ok(()),
            Err(_) => Err(ServeError::Write),
        },
        Err(_) => Err(ServeError::Memory),
    }
}
