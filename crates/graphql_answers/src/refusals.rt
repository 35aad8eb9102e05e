//! Answers to requests that are not executed.
#![tactic(auto, using(graphql_json::proofs::Fronts::fronts))]

ghost use Rattle.std.specs.Prelude.{◌≡◌, ◌∷◌, [], ◌++◌, map, OnOk};
ghost use Rattle.graphql_answers.specs.Lines.{answer_json};
ghost use Rattle.graphql_answers.specs.Responses.{refusal_response};
ghost use Rattle.graphql_answers.specs.Texts as spec;
ghost use Rattle.graphql_json.specs.Json.{joined};
ghost use Rattle.graphql_json.specs.Writing.{KeepsFront};

use crate::places::push_locations;
use graphql_json::text_to_json;
use graphql_rule_errors::RuleError;
use graphql_text::SourcePosition;
use std::alloc::AllocError;

/// Writes an error, by what is said and where it points.
fn push_request_error(
    out: &mut Vec<u8>,
    message: &str,
    places: &[SourcePosition],
) -> Result<(), AllocError>
    ensures written { OnOk result (out.new.items
        ≡ out.old.items
        ++ spec.request_error_text (record { locations = places.now; message = message.now })) }
    ensures front { KeepsFront out.old.items out.new.items }
{
    out.extend_from_slice(b"{\"message\":")?;
    text_to_json(out, message)?;
    push_locations(out, places)?;
    out.extend_from_slice(b"}")
}

/// Writes errors, with a comma between any two.
fn push_request_errors(out: &mut Vec<u8>, errors: &[RuleError]) -> Result<(), AllocError>
    ensures written { OnOk result
        (out.new.items ≡ out.old.items ++ joined [] (map spec.request_error_text errors.now)) }
    ensures front { KeepsFront out.old.items out.new.items }
{
    let mut gap: &[u8] = b"";
    'errors: for error in errors {
        out.extend_from_slice(gap)?;
        push_request_error(out, error.message(), error.locations())?;
        gap = b",";
    }
    Ok(())
}

/// Writes the answer to a request that is refused with these errors, at the end of `out`, as JSON
/// without spaces (GraphQL October 2021, 7.1.2 Errors): what each says and, where it has places,
/// their lines and columns from one. An error is want of memory: then `out` may hold a part of it,
/// behind what it held.
pub fn errors_to_json(out: &mut Vec<u8>, errors: &[RuleError]) -> Result<(), AllocError>
    ensures written { OnOk result
        (out.new.items ≡ out.old.items ++ answer_json (refusal_response errors.now)) }
    ensures front { KeepsFront out.old.items out.new.items }
{
    out.extend_from_slice(b"{\"errors\":[")?;
    push_request_errors(out, errors)?;
    out.extend_from_slice(b"]}")
}

/// Writes the answer to a request that is refused with one error, which says this and points at
/// these places, as `errors_to_json` does.
pub fn refusal_to_json(
    out: &mut Vec<u8>,
    message: &str,
    places: &[SourcePosition],
) -> Result<(), AllocError>
    ensures written { OnOk result (out.new.items
        ≡ out.old.items
        ++ answer_json
        (refusal_response (record { locations = places.now; message = message.now } ∷ []))) }
    ensures front { KeepsFront out.old.items out.new.items }
{
    out.extend_from_slice(b"{\"errors\":[")?;
    push_request_error(out, message, places)?;
    out.extend_from_slice(b"]}")
}
