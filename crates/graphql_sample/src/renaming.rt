//! What the mutation of the sample changes.

ghost use Rattle.std.specs.Prelude.{◌≡◌, OnErr, OnOk};
ghost use Rattle.std.specs.Option.{option_copied};
ghost use Rattle.graphql_text.specs.Memory.{Gives};
ghost use Rattle.graphql_arguments.specs.GivenValues.{arguments_told};
ghost use Rattle.graphql_sample.specs.Sample as spec;

use crate::given::text_given;
use crate::records::SampleRecord;
use crate::resolver::{Answer, SampleNode, place_of};
use graphql_arguments::Arguments;
use graphql_field_results::Resolved;
use graphql_text::{Items, Text};
use graphql_values::DefaultScalarValue;
use std::alloc::AllocError;

/// A copy of the text, if there is one. An error is want of memory.
fn copy_of(text: Option<&Text>) -> Result<Option<Text>, AllocError>
    ensures { Gives result (option_copied text.entry) }
{
    match text {
        Some(text) => Ok(Some(text.clone()?)),
        None => Ok(None),
    }
}

/// Gives the human at this place, if there is one, this name.
fn set_name(records: &mut Items<SampleRecord>, name: Option<Text>, place: usize)
    ensures { records.new ≡ spec.named_at records.old name place }
{
    if let Some(human) = records.get_mut(place) {
        human.name = name;
    }
}

/// Gives the first human whose `id` is the argument `id` the name that the argument `name` is, or
/// none where that is no text; and answers this human. Where there is none, or `id` is no text, it
/// answers `Null`, and nothing changes. An error is want of memory, and changes nothing.
pub(crate) fn rename(
    records: &mut Items<SampleRecord>,
    arguments: &Arguments<'_, DefaultScalarValue>,
) -> Result<Answer, AllocError>
    ensures answer { Gives result (spec.renamed_answer records.old (arguments_told arguments.now)) }
    ensures after { OnOk result
        (records.new ≡ spec.renamed records.old (arguments_told arguments.now)) }
    ensures kept { OnErr result (records.new ≡ records.old) }
{
    let Some(id) = text_given(arguments, "id") else {
        return Ok(Resolved::Null);
    };
    let Some(place) = place_of(records.as_slice(), id.as_str()) else {
        return Ok(Resolved::Null);
    };
    let name = copy_of(text_given(arguments, "name"))?;
    set_name(records, name, place);
    Ok(Resolved::Node(SampleNode::Human(place)))
}
