//! Why two data have no join.

ghost use Rattle.std.specs.Prelude.{◌≡◌};
ghost use Rattle.graphql_joined_data.specs.declared.join_fault.JoinFault.TheVariants as fault;

use graphql_text::{Items, Text};
use std::alloc::AllocError;
use thiserror::Error;

/// Why two data have no join.
#[derive(Debug, Drop, Error)]
pub enum JoinFault {
    /// Below these response keys, from the root down, the two have values that differ: scalars that
    /// are not equal, lists of other lengths, or values of two kinds. Places in lists are left out.
    #[error("two data differ below one response key")]
    Disagree(Items<Text>),

    /// Memory ran out, which tells nothing of the data.
    #[error("out of memory")]
    Memory,
}

impl From<AllocError> for JoinFault {
    ghost from_gives = { λ _ found. found ≡ fault.Memory };

    fn from(_error: AllocError) -> JoinFault {
        JoinFault::Memory
    }
}
