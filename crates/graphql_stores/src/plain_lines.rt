//! The request line of a plain text.

ghost use Rattle.std.specs.Prelude.{◌≡◌, ◌≤◌, codes, nat_eq, Some, option_map, string_bytes};
ghost use Rattle.std.specs.Prelude.{IfOk, IfSome, OnOk};
ghost use Rattle.std.specs.List.{starts_with};
ghost use Rattle.serde_json.specs.Data as json;
ghost use Rattle.serde_json.specs.Data.{depth, object};
ghost use Rattle.serde_json.specs.Find.{as_object};
ghost use Rattle.serde_json.specs.Read.{max_depth};
ghost use Rattle.serde_json.specs.View.{members_view, view};
ghost use Rattle.graphql_lines.specs.Request.{data_of, request_in, request_of, variables_in};
ghost use Rattle.graphql_stores.specs.PlainLines.{AsksPlain, KeepsMembers, depth_of};
ghost use Rattle.graphql_stores.specs.PlainLines.{members_of_plain, put_given};
ghost use Rattle.graphql_stores.specs.Stored as spec;

use graphql_plain_requests::Printed;
use serde_json::{Map, Value};
use std::alloc::{AllocError, Global};

/// The members of a JSON object.
type Members = Map<String, Value>;

/// The line that asks for a plain text with the operation name that a line gives, and its values
/// for the variables that the plain text uses: a JSON object with these alone. Lines that differ
/// only in the spelling of their requests have one, and so have those that differ in values that no
/// field uses.
///
/// None where the line is no request, or memory ran out.
pub(crate) fn plain_line_of(alloc: Global, line: &[u8], printed: Printed<'_>) -> Option<String>
    ensures { IfSome result
        (λ key. AsksPlain (request_of line.now) (string_bytes printed.entry.text)
        printed.entry.used.keys (string_bytes key)) }
{
    let Ok(value) = Value::from_slice(alloc, line) else {
        return None;
    };
    match members_of(value) {
        Some(members) => line_of_members(alloc, members, printed),
        None => None,
    }
}

/// The members of a JSON object; none where the value is no object.
fn members_of(value: Value) -> Option<Members>
    ensures { option_map (λ members. members_view members.entries) result ≡ as_object (view value) }
{
    match value {
        Value::Object(members) => Some(members),
        Value::Null | Value::Bool(_) | Value::Number(_) | Value::String(_) | Value::Array(_) => {
            None
        }
    }
}

/// The line of a plain text with what these members of a line give.
fn line_of_members(alloc: Global, members: Members, printed: Printed<'_>) -> Option<String>
    ensures { let d = object (members_view members.entries) in
        IfSome result (λ key. depth d ≤ max_depth → AsksPlain (request_in d)
        (string_bytes printed.entry.text) printed.entry.used.keys (string_bytes key)) }
{
    let mut members = members;
    let Some(Value::String(_query)) = members.remove("query") else {
        return None;
    };
    let name = members.remove("operationName");
    let given = members.remove("variables");
    let variables = used_values(given, &printed);
    match plain_members(alloc, printed.text, name, variables) {
        Ok(asked) => text_of_members(alloc, asked),
        Err(_) => None,
    }
}

/// Of the values for variables those that a plain text uses; none where it uses none of them.
fn used_values(given: Option<Value>, printed: &Printed<'_>) -> Option<Value>
    ensures values { KeepsMembers printed.now.used.keys (option_map view given)
        (option_map view result) }
    ensures nests { depth_of (option_map view result) ≤ depth_of (option_map view given) }
{
    match given {
        Some(value) => used_of(value, printed),
        None => None,
    }
}

/// The same of what a line gives for them.
fn used_of(value: Value, printed: &Printed<'_>) -> Option<Value>
    ensures values { KeepsMembers printed.now.used.keys (Some (view value))
        (option_map view result) }
    ensures nests { depth_of (option_map view result) ≤ depth (view value) }
{
    match members_of(value) {
        Some(members) => used_members(members, printed),
        None => None,
    }
}

/// The object of the members whose variables a plain text uses; none where there is none.
fn used_members(members: Members, printed: &Printed<'_>) -> Option<Value>
    ensures values { variables_in (option_map view result)
        ≡ Some (spec.members_named printed.now.used.keys (members_view members.entries)) }
    ensures nests { depth_of (option_map view result)
        ≤ depth (object (members_view members.entries)) }
{
    let mut members = members;
    members.retain(|name, _| printed.uses(name.as_str()));
    if members.is_empty() {
        return None;
    }
    Some(Value::Object(members))
}

/// The text of a JSON object; none where memory ran out.
fn text_of_members(alloc: Global, members: Members) -> Option<String>
    ensures { let d = object (members_view members.entries) in
        IfSome result (λ text. depth d ≤ max_depth → data_of (string_bytes text) ≡ Some d) }
{
    match Value::Object(members).to_string(alloc) {
        Ok(text) => Some(text),
        Err(_) => None,
    }
}

/// The members of the line of a plain text, with an operation name and values for variables. An
/// error is want of memory.
fn plain_members(
    alloc: Global,
    plain: String,
    name: Option<Value>,
    variables: Option<Value>,
) -> Result<Members, AllocError>
    ensures { IfOk result (λ members. members_view members.entries
        ≡ members_of_plain (string_bytes plain) (option_map view name)
        (option_map view variables)) }
{
    let mut members = Map::new(alloc);
    put(alloc, &mut members, "query", Value::String(plain))?;
    put_unless_null(alloc, &mut members, "operationName", name)?;
    put_unless_null(alloc, &mut members, "variables", variables)?;
    Ok(members)
}

/// Puts a value under a name, unless it is null or missing. An error is want of memory.
fn put_unless_null(
    alloc: Global,
    members: &mut Members,
    name: &str,
    value: Option<Value>,
) -> Result<(), AllocError>
    ensures { OnOk result (members_view members.new.entries
        ≡ put_given name.now (option_map view value) (members_view members.old.entries)) }
{
    let Some(value) = value else {
        return Ok(());
    };
    if value.is_null() {
        return Ok(());
    }
    put(alloc, members, name, value)
}

/// Puts a value under a name. An error is want of memory.
fn put(alloc: Global, members: &mut Members, name: &str, value: Value) -> Result<(), AllocError>
    ensures { OnOk result (members_view members.new.entries
        ≡ json.put name.now (view value) (members_view members.old.entries)) }
{
    let name = String::from_str(alloc, name)?;
    match members.insert(name, value) {
        Ok(_) => Ok(()),
        Err(refused) => Err(AllocError::from(refused)),
    }
}

/// Whether a plain text is that of a query: it begins with the operation's type (GraphQL October
/// 2021, 2.3 Operations).
pub(crate) fn is_query(plain: &[u8]) -> bool
    ensures { result ≡ starts_with nat_eq plain.now (codes "query") }
{
    plain.starts_with(b"query")
}
