//! Requests that are made to cost most.

use std::alloc::{AllocError, Global};

/// A text of sets that nest so deep, each in the field of the root that is the root itself.
pub fn nested(alloc: Global, levels: usize) -> Result<String, AllocError> {
    let mut text = String::new(alloc);
    text.push_str("{")?;
    'opened: for _level in 0..levels {
        text.push_str("self{")?;
    }
    text.push_str("__typename")?;
    'closed: for _level in 0..levels {
        text.push_str("}")?;
    }
    text.push_str("}")?;
    Ok(text)
}

/// A text of so many fragments, and one more, of which each spreads the next one twice.
pub fn spread_twice(alloc: Global, fragments: u32) -> Result<String, AllocError> {
    let mut text = String::new(alloc);
    text.push_str("{...f0}")?;
    'fragments: for number in 0..fragments {
        let other = number + 1;
        let fragment = format!(in alloc; "fragment f{number} on Query{{...f{other}...f{other}}}")?;
        text.push_str(fragment.as_str())?;
    }
    let last = format!(in alloc; "fragment f{fragments} on Query{{__typename}}")?;
    text.push_str(last.as_str())?;
    Ok(text)
}
