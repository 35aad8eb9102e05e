//! The records from which the sample is answered.

ghost use Rattle.std.specs.Prelude.{Some, None};
ghost use Rattle.std.specs.Option.{option_map};
ghost use Rattle.graphql_text.specs.Memory.{Gives};
ghost use Rattle.graphql_sample.specs.Sample as spec;

use graphql_text::{Items, Text};
use std::alloc::{AllocError, Global};

/// What is known of a human.
#[derive(Drop)]
pub struct SampleRecord {
    /// By what it is found.
    pub id: Text,

    /// The name, if it is known. A mutation may change it.
    pub name: Option<Text>,

    /// The `id` of a friend, if there is one.
    pub friend: Option<Text>,
}

/// The humans, in order, and how often fields of mutations were resolved. A mutation changes both.
#[derive(Drop)]
pub struct SampleRecords {
    /// The humans. Of those with one `id` the first is found.
    pub records: Items<SampleRecord>,

    /// How often a field of a mutation was resolved, up to the greatest number of 32 bits, at which
    /// it stays.
    pub root_calls: u32,
}

/// A text, if there is one. An error is want of memory.
fn text_or_none(alloc: Global, words: Option<&str>) -> Result<Option<Text>, AllocError>
    ensures { Gives result (option_map (λ word. word.now) words.entry) }
{
    match words {
        Some(words) => Ok(Some(Text::from_str(alloc, words)?)),
        None => Ok(None),
    }
}

/// A human of this name. An error is want of memory.
fn human(
    alloc: Global,
    id: &str,
    name: &str,
    friend: Option<&str>,
) -> Result<SampleRecord, AllocError>
    ensures { Gives result (record {
      id = id.now;
      name = Some name.now;
      friend = option_map (λ word. word.now) friend.entry;
    }) }
{
    Ok(SampleRecord {
        id: Text::from_str(alloc, id)?,
        name: Some(Text::from_str(alloc, name)?),
        friend: text_or_none(alloc, friend)?,
    })
}

/// Ann, whose friend is Bob, and Bob, who has none. An error is want of memory.
pub fn sample_records(alloc: Global) -> Result<SampleRecords, AllocError>
    ensures { Gives result spec.sample_records }
{
    let mut records = Items::with_capacity(alloc, 2)?;
    records.push(human(alloc, "h1", "Ann", Some("h2"))?)?;
    records.push(human(alloc, "h2", "Bob", None)?)?;
    Ok(SampleRecords {
        records,
        root_calls: 0,
    })
}
