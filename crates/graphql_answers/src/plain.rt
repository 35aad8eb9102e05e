//! Answers that tell a plain text.
#![tactic(auto, using(graphql_json::proofs::Fronts::fronts))]

ghost use Rattle.std.specs.Prelude.{◌≡◌, ◌++◌, OnOk};
ghost use Rattle.graphql_answers.specs.Lines.{answer_json};
ghost use Rattle.graphql_answers.specs.Responses.{plain_answer_of};
ghost use Rattle.graphql_json.specs.Writing.{KeepsFront};

use graphql_json::text_to_json;
use std::alloc::AllocError;

/// Writes the answer that tells a plain text, at the end of `out`, as JSON without spaces: an
/// object whose member `plain` is the text. An error is want of memory: then `out` may hold a part
/// of it, behind what it held.
pub fn plain_to_json(out: &mut Vec<u8>, plain: &str) -> Result<(), AllocError>
    ensures written { OnOk result
        (out.new.items ≡ out.old.items ++ answer_json (plain_answer_of plain.now)) }
    ensures front { KeepsFront out.old.items out.new.items }
{
    out.extend_from_slice(b"{\"plain\":")?;
    text_to_json(out, plain)?;
    out.extend_from_slice(b"}")
}
