//! Answers to requests that are executed.
#![tactic(auto, using(graphql_json::proofs::Fronts::fronts))]

ghost use Rattle.std.specs.Prelude.{◌≡◌, [], ◌++◌, map, OnOk};
ghost use Rattle.graphql_answers.specs.Lines.{answer_json};
ghost use Rattle.graphql_answers.specs.Responses.{response_of};
ghost use Rattle.graphql_answers.specs.Texts as spec;
ghost use Rattle.graphql_json.specs.Json.{joined, json_text};
ghost use Rattle.graphql_json.specs.Writing.{KeepsFront};

use crate::places::push_location;
use graphql_field_results::ExecutionError;
use graphql_json::{text_to_json, value_to_json};
use graphql_output_values::Value;
use graphql_scalars::ScalarValue;
use graphql_text::Text;
use std::alloc::AllocError;

/// Writes response keys, with a comma between any two.
fn push_path(out: &mut Vec<u8>, path: &[Text]) -> Result<(), AllocError>
    ensures written { OnOk result
        (out.new.items ≡ out.old.items ++ joined [] (map json_text path.now)) }
    ensures front { KeepsFront out.old.items out.new.items }
{
    let mut gap: &[u8] = b"";
    'keys: for key in path {
        out.extend_from_slice(gap)?;
        text_to_json(out, key.as_str())?;
        gap = b",";
    }
    Ok(())
}

/// Writes the member of what is told beside an error, unless that is null.
fn push_extensions<S: ScalarValue>(out: &mut Vec<u8>, beside: &Value<S>) -> Result<(), AllocError>
    ensures written { OnOk result
        (out.new.items ≡ out.old.items ++ spec.extensions_text S.answer beside.now) }
    ensures front { KeepsFront out.old.items out.new.items }
{
    if beside.is_null() {
        return Ok(());
    }
    out.extend_from_slice(b",\"extensions\":")?;
    value_to_json(out, beside)
}

/// Writes where a field without a value starts, and its path.
fn push_where<S: ScalarValue>(
    out: &mut Vec<u8>,
    error: &ExecutionError<S>,
) -> Result<(), AllocError>
    ensures written { OnOk result (out.new.items ≡ out.old.items ++ spec.where_text error.now) }
    ensures front { KeepsFront out.old.items out.new.items }
{
    out.extend_from_slice(b",\"locations\":[")?;
    push_location(out, error.location())?;
    out.extend_from_slice(b"],\"path\":[")?;
    push_path(out, error.path())?;
    out.extend_from_slice(b"]")
}

/// Writes a field without a value.
fn push_field_error<S: ScalarValue>(
    out: &mut Vec<u8>,
    error: &ExecutionError<S>,
) -> Result<(), AllocError>
    ensures written { OnOk result
        (out.new.items ≡ out.old.items ++ spec.field_error_text S.answer error.now) }
    ensures front { KeepsFront out.old.items out.new.items }
{
    out.extend_from_slice(b"{\"message\":")?;
    text_to_json(out, error.error().message())?;
    push_where(out, error)?;
    push_extensions(out, error.error().extensions())?;
    out.extend_from_slice(b"}")
}

/// Writes fields without a value, with a comma between any two.
fn push_field_errors<S: ScalarValue>(
    out: &mut Vec<u8>,
    errors: &[ExecutionError<S>],
) -> Result<(), AllocError>
    ensures written { OnOk result (out.new.items
        ≡ out.old.items
        ++ joined [] (map (spec.field_error_text S.answer) errors.now)) }
    ensures front { KeepsFront out.old.items out.new.items }
{
    let mut gap: &[u8] = b"";
    'errors: for error in errors {
        out.extend_from_slice(gap)?;
        push_field_error(out, error)?;
        gap = b",";
    }
    Ok(())
}

/// Writes the member of errors, unless there is none.
fn push_errors<S: ScalarValue>(
    out: &mut Vec<u8>,
    errors: &[ExecutionError<S>],
) -> Result<(), AllocError>
    ensures written { OnOk result
        (out.new.items ≡ out.old.items ++ spec.errors_text S.answer errors.now) }
    ensures front { KeepsFront out.old.items out.new.items }
{
    if errors.is_empty() {
        return Ok(());
    }
    out.extend_from_slice(b",\"errors\":[")?;
    push_field_errors(out, errors)?;
    out.extend_from_slice(b"]")
}

/// Writes the answer to a request that is executed, at the end of `out`, as JSON without spaces
/// (GraphQL October 2021, 7.1 Response Format): the value as its data and, where there are any, its
/// errors, each with what it says, the line and the column of its field from one, the response keys
/// down to that field and, unless that is null, what is told beside it. An error of the call is
/// want of memory: then `out` may hold a part of it, behind what it held.
pub fn response_to_json<S: ScalarValue>(
    out: &mut Vec<u8>,
    value: &Value<S>,
    errors: &[ExecutionError<S>],
) -> Result<(), AllocError>
    ensures written { OnOk result
        (out.new.items ≡ out.old.items ++ answer_json (response_of S.answer value.now errors.now)) }
    ensures front { KeepsFront out.old.items out.new.items }
{
    out.extend_from_slice(b"{\"data\":")?;
    value_to_json(out, value)?;
    push_errors(out, errors)?;
    out.extend_from_slice(b"}")
}
