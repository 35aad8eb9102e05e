//! Two fields that do not agree, as they are told.

ghost use Rattle.std.specs.Prelude.{◌≡◌, IfOk};
ghost use Rattle.graphql_bundles.specs.Conflicts.{error_of};

use graphql_merging::Difference;
use graphql_rule_errors::RuleError;
use graphql_text::{Items, SourcePosition, Text};
use std::alloc::{AllocError, Global};

/// Two fields of one response key that do not agree, and what the texts say of them. Conflicts are
/// ordered by their places, those of the same places by their reasons, and those of one reason by
/// the bytes of their messages.
#[derive(Drop, PartialEq, Eq, PartialOrd, Ord)]
pub struct Conflict {
    /// Where the two fields begin, in the order of the text.
    pub locations: Items<SourcePosition>,

    /// What they do not have alike.
    pub reason: Difference,

    /// What is said of them.
    pub message: Text,
}

impl Conflict {
    /// The conflict at these places, which are copied. An error of the call is want of memory.
    pub(crate) fn at(
        alloc: Global,
        reason: Difference,
        message: Text,
        places: &[SourcePosition],
    ) -> Result<Conflict, AllocError>
        ensures locations { IfOk result (λ conflict. conflict.locations ≡ places.now) }
        ensures reason { IfOk result (λ conflict. conflict.reason ≡ reason) }
        ensures message { IfOk result (λ conflict. conflict.message ≡ message) }
    {
        let mut locations = Items::with_capacity(alloc, places.len())?;
        locations.extend_from_slice(places)?;
        Ok(Conflict {
            locations,
            reason,
            message,
        })
    }

    /// The error that says it. Takes no memory.
    pub fn into_error(self) -> RuleError
        ensures { result ≡ error_of self }
    {
        RuleError::new(self.message, self.locations)
    }
}
