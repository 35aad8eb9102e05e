//! JSON texts (RFC 8259; GraphQL October 2021, 7.2 Serialization Format).
#![tactic(auto, using(crate::proofs::Fronts::fronts))]

ghost use Rattle.std.specs.Prelude.{◌≡◌, ◌<◌, ◌≤◌, false, [], ◌∷◌, ◌++◌, length, take, OnOk};
ghost use Rattle.std.specs.List.{flat_map};
ghost use Rattle.graphql_json.specs.Json as spec;
ghost use Rattle.graphql_json.specs.Writing.{KeepsFront};
ghost use Rattle.graphql_output_values.specs.Pending.{steps_ahead, told_step};

use graphql_output_values::{Step, Value, Walk};
use graphql_scalars::ScalarValue;
use itoa::Buffer;
use std::alloc::AllocError;

fn hex_digit(n: u8) -> u8
    requires { n < 16 }
    ensures { result ≡ spec.hex_digit n }
{
    if n < 10 { b'0' + n } else { b'a' + (n - 10) }
}

fn push_escaped(out: &mut Vec<u8>, byte: u8) -> Result<(), AllocError>
    ensures written { OnOk result (out.new.items ≡ out.old.items ++ spec.escaped byte) }
    ensures front { KeepsFront out.old.items out.new.items }
{
    match byte {
        b'"' => out.extend_from_slice(b"\\\""),
        b'\\' => out.extend_from_slice(b"\\\\"),
        8 => out.extend_from_slice(b"\\b"),
        12 => out.extend_from_slice(b"\\f"),
        b'\n' => out.extend_from_slice(b"\\n"),
        b'\r' => out.extend_from_slice(b"\\r"),
        b'\t' => out.extend_from_slice(b"\\t"),
        _ if byte < 32 => out.extend_from_slice(&[
            b'\\',
            b'u',
            b'0',
            b'0',
            hex_digit(byte / 16),
            hex_digit(byte % 16),
        ]),
        _ => out.extend_from_slice(&[byte]),
    }
}

/// Whether a byte is escaped.
fn is_escaped(byte: u8) -> bool
    ensures { result ≡ false → spec.escaped byte ≡ byte ∷ [] }
{
    byte == b'"' || byte == b'\\' || byte < 32
}

/// How many bytes at the front are not escaped.
fn plain_len(bytes: &[u8]) -> usize
    ensures within { result ≤ length bytes.now }
    ensures plain { flat_map spec.escaped (take result bytes.now) ≡ take result bytes.now }
{
    'bytes: for (index, byte) in bytes.iter().enumerate() {
        if is_escaped(*byte) {
            return index;
        }
    }
    bytes.len()
}

/// Writes a text between quotes, at the end of `out`. The quote, the backslash and the characters
/// below the space are escaped, and no others. An error is want of memory: then `out` may hold a
/// part of it, behind what it held.
pub fn text_to_json(out: &mut Vec<u8>, text: &str) -> Result<(), AllocError>
    ensures written { OnOk result (out.new.items ≡ out.old.items ++ spec.json_text text.now) }
    ensures front { KeepsFront out.old.items out.new.items }
{
    out.extend_from_slice(b"\"")?;
    let mut rest = text.as_bytes();
    'runs: while let Some((first, behind)) = rest.split_first() {
        let (plain, others) = rest.split_at(plain_len(rest));
        if plain.is_empty() {
            push_escaped(out, *first)?;
            rest = behind;
        } else {
            out.extend_from_slice(plain)?;
            rest = others;
        }
    }
    out.extend_from_slice(b"\"")
}

/// Writes a scalar by what it answers: an integer, else a boolean, else a text, else `null`.
fn scalar_to_json<S: ScalarValue>(out: &mut Vec<u8>, scalar: &S) -> Result<(), AllocError>
    ensures written { OnOk result
        (out.new.items ≡ out.old.items ++ spec.scalar_json S.answer scalar.now) }
    ensures front { KeepsFront out.old.items out.new.items }
{
    if let Some(value) = scalar.try_to_int() {
        let mut digits = Buffer::new();
        return out.extend_from_slice(digits.format(value).as_bytes());
    }
    if let Some(value) = scalar.try_to_bool() {
        let word: &[u8] = if value { b"true" } else { b"false" };
        return out.extend_from_slice(word);
    }
    match scalar.try_as_str() {
        Some(text) => text_to_json(out, text),
        None => out.extend_from_slice(b"null"),
    }
}

/// Writes what a walk tells next.
fn step_to_json<S: ScalarValue>(out: &mut Vec<u8>, step: Step<'_, S>) -> Result<(), AllocError>
    ensures written { OnOk result
        (out.new.items ≡ out.old.items ++ spec.step_json S.answer (told_step step.entry)) }
    ensures front { KeepsFront out.old.items out.new.items }
{
    match step {
        Step::Null => out.extend_from_slice(b"null"),
        Step::Scalar(scalar) => scalar_to_json(out, scalar),
        Step::ListOpens => out.extend_from_slice(b"["),
        Step::ListCloses => out.extend_from_slice(b"]"),
        Step::ObjectOpens => out.extend_from_slice(b"{"),
        Step::ObjectCloses => out.extend_from_slice(b"}"),
        Step::Key(key) => {
            text_to_json(out, key)?;
            out.extend_from_slice(b":")
        }
        Step::Gap => out.extend_from_slice(b","),
    }
}

/// Writes what a walk has yet to tell.
fn steps_to_json<S: ScalarValue>(out: &mut Vec<u8>, walk: Walk<'_, S>) -> Result<(), AllocError>
    ensures written { OnOk result
        (out.new.items ≡ out.old.items
        ++ flat_map (spec.step_json S.answer) (steps_ahead walk.entry)) }
    ensures front { KeepsFront out.old.items out.new.items }
{
    let mut walk = walk;
    'steps: while let Some(step) = walk.next()? {
        step_to_json(out, step)?;
    }
    Ok(())
}

/// Writes a value as JSON, at the end of `out`: without spaces, the fields of an object in their
/// order, a scalar by what it answers (an integer, else a boolean, else a text). What is yet to be
/// written stands on the heap, so a deep value takes no more stack. An error is want of memory:
/// then `out` may hold a part of it, behind what it held.
pub fn value_to_json<S: ScalarValue>(out: &mut Vec<u8>, value: &Value<S>) -> Result<(), AllocError>
    ensures written { OnOk result (out.new.items ≡ out.old.items ++ spec.json S.answer value.now) }
    ensures front { KeepsFront out.old.items out.new.items }
{
    let walk = Walk::new(*out.allocator(), value)?;
    steps_to_json(out, walk)
}
