//! The request line that a target's query asks (GraphQL over HTTP, GET).

ghost use Rattle.std.specs.Prelude.{◌≡◌, IfErr, IfOk, MatchResult, OnOk, Some};
ghost use Rattle.std.specs.Prelude.{option_copied, string_bytes};
ghost use Rattle.serde_json.specs.Data.{put};
ghost use Rattle.serde_json.specs.View.{view, members_view};
ghost use Rattle.graphql_http.specs.QueryLine as spec;

use crate::refusal::HttpRefusal;
use form_urlencoded::{decode, raw_pairs};
use serde_json::{Map, Value};
use std::alloc::{AllocError, Global};

/// Why there is no request line.
#[derive(Clone, Copy, Debug, PartialEq, Eq)]
pub enum LineFault {
    /// The query asks for none.
    Refused(HttpRefusal),
    /// Memory ran out.
    Memory,
}

impl From<AllocError> for LineFault {
    ghost use Rattle.std.specs.Prelude.{◌≡◌};
    ghost use Rattle.graphql_http.specs.declared.query_line.LineFault.TheVariants.{Memory};

    ghost from_gives = { λ _ fault. fault ≡ Memory };

    fn from(_error: AllocError) -> LineFault {
        LineFault::Memory
    }
}

/// Whether a pair is a parameter of this name, and not empty.
fn is_told(wanted: &[u8], name: &[u8], value: &[u8]) -> bool
    ensures { result ≡ spec.is_told wanted.now name.now value.now }
{
    name == wanted && !value.is_empty()
}

/// The first parameter of a name that is not empty, still encoded.
fn parameter<'a>(query: &'a [u8], wanted: &[u8]) -> Option<&'a [u8]>
    ensures { option_copied result ≡ spec.parameter query.now wanted.now }
{
    for (name, value) in raw_pairs(query) {
        if is_told(wanted, name, value) {
            return Some(value);
        }
    }
    None
}

/// Sets a member of an object.
fn set(
    alloc: Global,
    members: &mut Map<String, Value>,
    name: &str,
    value: Value,
) -> Result<(), AllocError>
    ensures { OnOk result (members_view members.new.entries
        ≡ put name.now (view value) (members_view members.old.entries)) }
{
    let key = String::from_str(alloc, name)?;
    match members.insert(key, value) {
        Ok(_) => Ok(()),
        Err(_) => Err(AllocError),
    }
}

/// Adds the member that a parameter tells as a text, where there is such a parameter.
fn add_text(
    alloc: Global,
    members: &mut Map<String, Value>,
    query: &[u8],
    name: &str,
) -> Result<(), AllocError>
    ensures { OnOk result (members_view members.new.entries
        ≡ spec.with_text name.now (spec.parameter query.now name.now)
        (members_view members.old.entries)) }
{
    match parameter(query, name.as_bytes()) {
        None => Ok(()),
        Some(raw) => {
            let text = decode(alloc, raw)?;
            let text = String::from_str(alloc, text.as_str())?;
            set(alloc, members, name, Value::String(text))
        }
    }
}

/// The JSON value that an encoded text stands for; `refusal` where it stands for none.
fn json_of(alloc: Global, raw: &[u8], refusal: HttpRefusal) -> Result<Value, LineFault>
    ensures { MatchResult result (λ value. spec.json_of raw.now ≡ Some (view value))
        (spec.IsNoJson refusal raw.now) }
{
    let text = decode(alloc, raw)?;
    match Value::from_str(alloc, text.as_str()) {
        Ok(value) => Ok(value),
        Err(error) if error.is_memory() => Err(LineFault::Memory),
        Err(_) => Err(LineFault::Refused(refusal)),
    }
}

/// Adds the member that a parameter tells as JSON, where there is such a parameter; `refusal` where
/// it is no JSON.
fn add_json(
    alloc: Global,
    members: &mut Map<String, Value>,
    query: &[u8],
    name: &str,
    refusal: HttpRefusal,
) -> Result<(), LineFault>
    ensures ok { OnOk result (spec.AddsJson name.now (spec.parameter query.now name.now)
        (members_view members.old.entries) (members_view members.new.entries)) }
    ensures fault { IfErr result (spec.IsBadJson refusal (spec.parameter query.now name.now)) }
{
    match parameter(query, name.as_bytes()) {
        None => Ok(()),
        Some(raw) => {
            let value = json_of(alloc, raw, refusal)?;
            Ok(set(alloc, members, name, value)?)
        }
    }
}

/// The request line that a target's query asks: the JSON of an object of `query`, and of
/// `operationName`, `variables` and `extensions` where the query has such parameters. An empty
/// parameter is taken for a missing one.
///
/// `NoQuery` where there is no `query`, `BadVariables` and `BadExtensions` where one of these is no
/// JSON, in this order.
pub fn line_of_query(alloc: Global, query: &[u8]) -> Result<String, LineFault>
    ensures line { IfOk result (λ line. spec.IsLineOf query.now (string_bytes line)) }
    ensures fault { IfErr result (spec.IsFaultOf query.now) }
{
    if parameter(query, b"query").is_none() {
        return Err(LineFault::Refused(HttpRefusal::NoQuery));
    }
    let mut members = Map::new(alloc);
    add_text(alloc, &mut members, query, "query")?;
    add_text(alloc, &mut members, query, "operationName")?;
    add_json(
        alloc,
        &mut members,
        query,
        "variables",
        HttpRefusal::BadVariables,
    )?;
    add_json(
        alloc,
        &mut members,
        query,
        "extensions",
        HttpRefusal::BadExtensions,
    )?;
    Ok(Value::Object(members).to_string(alloc)?)
}
