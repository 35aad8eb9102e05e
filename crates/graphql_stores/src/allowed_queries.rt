//! Stores of allowed queries.

ghost use Rattle.std.specs.Prelude.{◌≡◌, ◌==◌, ◌<◌, ◌+◌, ◌^◌, false, IfOk, IfSome, length};
ghost use Rattle.std.specs.Prelude.{option_map, option_and_then, position, string_bytes};
ghost use Rattle.serde_json.specs.Find.{as_str, get_member};
ghost use Rattle.serde_json.specs.View.{members_view, view};
ghost use Rattle.graphql_names.specs.Names.{Bytes};
ghost use Rattle.graphql_streams.specs.Lines.{EndsAt};
ghost use Rattle.graphql_stores.specs.Stores.{ReadsFile, TakesLine, is_allowed};
ghost use Rattle.graphql_stores.specs.Told.{plain_in as plain_of_data};
ghost use Rattle.graphql_lines.specs.Request.{data_of};

use crate::allowed_fault::AllowedFault;
use graphql_lines::{LineRefusal, json_of_line};
use serde_json::{Map, Value};
use std::alloc::{AllocError, Global};
use std::collections::HashSet;

/// The plain texts of the requests that are allowed.
#[derive(Drop)]
pub struct AllowedQueries {
    texts: HashSet<String>,
}

impl AllowedQueries {
    /// A store that allows nothing.
    pub fn new(alloc: Global) -> AllowedQueries
        ensures { (plain : Bytes) → is_allowed result plain ≡ false }
    {
        AllowedQueries {
            texts: HashSet::new(alloc),
        }
    }

    /// A store that allows the plain texts which the lines of a file tell, each as
    /// `{"plain":TEXT}`; members of other names are passed over, and so are empty lines.
    ///
    /// An error is the first other line, by its number, or want of memory.
    pub fn read(alloc: Global, file: &[u8]) -> Result<AllowedQueries, AllowedFault>
        ensures { ReadsFile file.now result }
    {
        let mut store = AllowedQueries::new(alloc);
        let mut rest = file;
        let mut before: usize = 0;
        'lines: while let Some(end) = line_end(rest) {
            store.take_line(alloc, &rest[..end], before)?;
            rest = &rest[end + 1..];
            before += 1;
        }
        store.take_line(alloc, rest, before)?;
        Ok(store)
    }

    /// Whether requests of this plain text are allowed.
    pub fn allows(&self, plain: &str) -> bool
        ensures { result ≡ is_allowed self.now plain.now }
    {
        self.texts.contains(plain)
    }

    /// Allows the plain text that a line tells, before which so many lines stand; an empty line
    /// tells none.
    fn take_line(&mut self, alloc: Global, line: &[u8], before: usize) -> Result<(), AllowedFault>
        requires { before + length line.now < 2 ^ 64 }
        ensures { TakesLine self.old line.now before self.new result }
    {
        if line.is_empty() {
            return Ok(());
        }
        match plain_of(alloc, line)? {
            Some(plain) => match self.texts.insert(plain) {
                Ok(_) => Ok(()),
                Err(_) => Err(AllowedFault::Memory),
            },
            None => Err(AllowedFault::Line(before + 1)),
        }
    }
}

/// The plain text that a line tells, if it tells one. An error is want of memory.
fn plain_of(alloc: Global, line: &[u8]) -> Result<Option<String>, AllocError>
    ensures { IfOk result (λ plain. option_map (λ text. string_bytes text) plain
        ≡ option_and_then plain_of_data (data_of line.now)) }
{
    match json_of_line(alloc, line) {
        Ok(value) => Ok(plain_in(value)),
        Err(LineRefusal::Memory) => Err(AllocError),
        Err(_) => Ok(None),
    }
}

/// The text under `plain` in a JSON object.
fn plain_in(value: Value) -> Option<String>
    ensures { option_map (λ text. string_bytes text) result ≡ plain_of_data (view value) }
{
    match value {
        Value::Object(mut members) => text_of(taken(&mut members, "plain")),
        Value::Null | Value::Bool(_) | Value::Number(_) | Value::String(_) | Value::Array(_) => {
            None
        }
    }
}

/// Takes the value of this name out of an object's members.
fn taken(members: &mut Map<String, Value>, name: &str) -> Option<Value>
    ensures { option_map view result ≡ get_member name.now (members_view members.old.entries) }
{
    members.remove(name)
}

/// The text that a value is.
fn text_of(value: Option<Value>) -> Option<String>
    ensures { option_map (λ text. string_bytes text) result
        ≡ option_and_then as_str (option_map view value) }
{
    match value {
        Some(Value::String(text)) => Some(text),
        _ => None,
    }
}

/// The place of the first line feed.
fn first_feed(bytes: &[u8]) -> Option<usize>
    ensures place { result ≡ position (λ b. b == 10) bytes.now }
    ensures within { IfSome result (λ end. end < length bytes.now) }
    ensures fits { IfSome result (λ end. end + 1 < 2 ^ 64) }
{
    bytes.iter().position(|byte| *byte == b'\n')
}

/// Where the line ends that stands first: at the first line feed.
fn line_end(bytes: &[u8]) -> Option<usize>
    ensures ends { EndsAt bytes.now result }
    ensures within { IfSome result (λ end. end < length bytes.now) }
    ensures fits { IfSome result (λ end. end + 1 < 2 ^ 64) }
{
    first_feed(bytes)
}
