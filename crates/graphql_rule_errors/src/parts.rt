//! Texts that are put together from parts.

ghost use Rattle.std.specs.List.{flat_map};
ghost use Rattle.graphql_text.specs.Memory.{Gives};

use graphql_text::Text;
use std::alloc::{AllocError, Global};

/// The parts as one text, for which memory is asked for once. An error is want of memory.
pub fn joined(alloc: Global, parts: &[&str]) -> Result<Text, AllocError>
    ensures { Gives result (flat_map (λ part. part.now) parts.now) }
{
    let mut room: usize = 0;
    for part in parts {
        room = room.saturating_add(part.len());
    }
    let mut text = Text::from_string(String::with_capacity(alloc, room)?);
    'texts: for part in parts {
        text.push_str(part)?;
    }
    Ok(text)
}
