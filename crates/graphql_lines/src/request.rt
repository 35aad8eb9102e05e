//! Requests, one a line.

ghost use Rattle.std.specs.Prelude.{◌≡◌, option_map, option_and_then, Some, IsNone, string_bytes};
ghost use Rattle.graphql_text.specs.Memory.{Answers};
ghost use Rattle.serde_json.specs.Find.{as_object, as_str, get_member};
ghost use Rattle.serde_json.specs.View.{view, members_view};
ghost use Rattle.graphql_lines.specs.declared.refusal.LineRefusal.TheVariants.{NotARequest, Memory};
ghost use Rattle.graphql_lines.specs.Variables.{AnswersVariables};
ghost use Rattle.graphql_lines.specs.Request as spec;

use crate::refusal::LineRefusal;
use crate::variables::variables_of_json;
use graphql_values::{DefaultScalarValue, ScalarValue, Variables};
use serde_json::{Map, Value};
use std::alloc::Global;
use std::collections::HashMap;

/// What a client asks (GraphQL October 2021, 6.1 Executing Requests).
#[derive(Drop)]
pub struct GraphQLRequest<S = DefaultScalarValue> {
    /// The text of the document.
    pub query: String,

    /// The name of the operation, where one was given.
    pub operation_name: Option<String>,

    /// The values of the variables, by name. None of them holds a variable.
    pub variables: Variables<S>,
}

/// The JSON value of a line.
///
/// `NotARequest` where the line is not UTF-8, or no JSON that `serde_json` reads; `Memory` where
/// memory ran out.
pub fn json_of_line(alloc: Global, line: &[u8]) -> Result<Value, LineRefusal>
    ensures { Answers (λ value. Some (view value) ≡ spec.data_of line.now)
        (λ e. (e ≡ NotARequest) × IsNone (spec.data_of line.now)) (λ e. e ≡ Memory) result }
{
    match Value::from_slice(alloc, line) {
        Ok(value) => Ok(value),
        Err(error) if error.is_memory() => Err(LineRefusal::Memory),
        Err(_) => Err(LineRefusal::NotARequest),
    }
}

/// The members of a JSON object; none where the value is no object.
fn members_of(value: Value) -> Option<Map<String, Value>>
    ensures { option_map (λ members. members_view members.entries) result ≡ as_object (view value) }
{
    match value {
        Value::Object(members) => Some(members),
        Value::Null | Value::Bool(_) | Value::Number(_) | Value::String(_) | Value::Array(_) => {
            None
        }
    }
}

/// Takes the value of this name out of an object's members, which keep the values of other names.
fn taken(members: &mut Map<String, Value>, name: &str) -> Option<Value>
    ensures value { option_map view result
        ≡ get_member name.now (members_view members.old.entries) }
    ensures others { spec.KeepsOthers name.now (members_view members.old.entries)
        (members_view members.new.entries) }
{
    members.remove(name)
}

/// The text of a query, of which there must be one.
fn query_in(value: Option<Value>) -> Option<String>
    ensures { option_map (λ text. string_bytes text) result
        ≡ option_and_then as_str (option_map view value) }
{
    match value {
        Some(Value::String(query)) => Some(query),
        _ => None,
    }
}

/// The name of an operation, which may be missing or null; `NotARequest` where it is of another
/// kind.
fn name_in(value: Option<Value>) -> Result<Option<String>, LineRefusal>
    ensures { let asked = spec.name_in (option_map view value) in
        Answers (λ name. Some (option_map (λ text. string_bytes text) name) ≡ asked)
        (λ e. (e ≡ NotARequest) × IsNone asked) (λ e. ⊥) result }
{
    match value {
        None | Some(Value::Null) => Ok(None),
        Some(Value::String(name)) => Ok(Some(name)),
        Some(_) => Err(LineRefusal::NotARequest),
    }
}

/// The values of variables, which may be missing or null. They take over the texts of the JSON
/// value.
fn variables_in<S: ScalarValue>(
    alloc: Global,
    value: Option<Value>,
) -> Result<Variables<S>, LineRefusal>
    ensures { AnswersVariables S.of_bool S.of_int S.of_text result
        (spec.variables_in (option_map view value)) }
{
    match value {
        None => Ok(HashMap::new(alloc)),
        Some(value) => variables_of_json(alloc, value),
    }
}

/// The request that a JSON value describes, of which it takes the texts over: the query, the
/// operation's name, what stands in the variables. Members of other names are passed over.
///
/// `NotARequest` where the value is no object, its `query` is missing or no text, its
/// `operationName` neither text nor null, or its `variables` neither object nor null; else
/// `BadNumber` where a number anywhere in `variables` is not held as a whole one, or lies outside
/// 32 bits; `Memory` where memory ran out, which only values of variables take.
pub fn request_in<S: ScalarValue>(
    alloc: Global,
    value: Value,
) -> Result<GraphQLRequest<S>, LineRefusal>
    ensures { spec.AnswersRequest S.of_bool S.of_int S.of_text result
        (spec.request_in (view value)) }
{
    let Some(mut members) = members_of(value) else {
        return Err(LineRefusal::NotARequest);
    };
    let Some(query) = query_in(taken(&mut members, "query")) else {
        return Err(LineRefusal::NotARequest);
    };
    let operation_name = name_in(taken(&mut members, "operationName"))?;
    match variables_in(alloc, taken(&mut members, "variables")) {
        Ok(variables) => Ok(GraphQLRequest {
            query,
            operation_name,
            variables,
        }),
        Err(refusal) => Err(refusal),
    }
}

/// The request that a line describes, as `serde_json` reads the line (RFC 8259): a JSON object with
/// the text `query` and, where they are not missing or null, the text `operationName` and the
/// object `variables`. Members of other names are passed over; of members of one name the last
/// counts.
///
/// The first refusal that stands: `NotARequest` where the line is not UTF-8, no JSON, nested deeper
/// than 127, no object, or a member is of another kind; `BadNumber` where a number anywhere in
/// `variables` is not held as a whole one, or lies outside 32 bits. `Memory` where memory ran out,
/// which tells nothing of the line. `LineTooLong` is never answered: a line's length is its
/// caller's to judge.
pub fn request_from_line<S: ScalarValue>(
    alloc: Global,
    line: &[u8],
) -> Result<GraphQLRequest<S>, LineRefusal>
    ensures { spec.AnswersRequest S.of_bool S.of_int S.of_text result (spec.request_of line.now) }
{
    let value = json_of_line(alloc, line)?;
    request_in(alloc, value)
}
