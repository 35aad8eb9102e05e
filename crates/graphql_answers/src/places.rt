//! Where errors point.
#![tactic(auto, using(graphql_json::proofs::Fronts::fronts))]

ghost use Rattle.std.specs.Prelude.{◌≡◌, [], ◌++◌, map, OnOk};
ghost use Rattle.std.specs.Fmt.{decimal};
ghost use Rattle.graphql_answers.specs.Texts as spec;
ghost use Rattle.graphql_json.specs.Json.{joined};
ghost use Rattle.graphql_json.specs.Writing.{KeepsFront};

use graphql_text::SourcePosition;
use itoa::Buffer;
use std::alloc::AllocError;

/// Writes a number in decimal.
fn push_number(out: &mut Vec<u8>, number: u128) -> Result<(), AllocError>
    ensures written { OnOk result (out.new.items ≡ out.old.items ++ decimal number) }
    ensures front { KeepsFront out.old.items out.new.items }
{
    let mut digits = Buffer::new();
    out.extend_from_slice(digits.format(number).as_bytes())
}

/// Writes a place, its line and its column from one.
pub fn push_location(out: &mut Vec<u8>, place: &SourcePosition) -> Result<(), AllocError>
    ensures written { OnOk result (out.new.items ≡ out.old.items ++ spec.location_text place.now) }
    ensures front { KeepsFront out.old.items out.new.items }
{
    out.extend_from_slice(b"{\"line\":")?;
    push_number(out, place.line() as u128 + 1)?;
    out.extend_from_slice(b",\"column\":")?;
    push_number(out, place.column() as u128 + 1)?;
    out.extend_from_slice(b"}")
}

/// Writes places, with a comma between any two.
pub fn push_each_location(out: &mut Vec<u8>, places: &[SourcePosition]) -> Result<(), AllocError>
    ensures written { OnOk result
        (out.new.items ≡ out.old.items ++ joined [] (map spec.location_text places.now)) }
    ensures front { KeepsFront out.old.items out.new.items }
{
    let mut gap: &[u8] = b"";
    'places: for place in places {
        out.extend_from_slice(gap)?;
        push_location(out, place)?;
        gap = b",";
    }
    Ok(())
}

/// Writes the member that says where an error points, if it points at a place.
pub fn push_locations(out: &mut Vec<u8>, places: &[SourcePosition]) -> Result<(), AllocError>
    ensures written { OnOk result
        (out.new.items ≡ out.old.items ++ spec.locations_text places.now) }
    ensures front { KeepsFront out.old.items out.new.items }
{
    if places.is_empty() {
        return Ok(());
    }
    out.extend_from_slice(b",\"locations\":[")?;
    push_each_location(out, places)?;
    out.extend_from_slice(b"]")
}
