//! Requests for memory that are made and let go before a run, so that the one that is refused is
//! another one of it.

use crate::unmade::Unmade;
use std::alloc::Global;

/// Makes so many requests for memory, and lets go what each one got.
pub fn spend(alloc: Global, requests: u32) -> Result<(), Unmade> {
    for _ in 0..requests {
        if Box::new(alloc, 0u8).is_err() {
            return Err(Unmade::Unspent);
        }
    }
    Ok(())
}
