//! Bundles, each remembered once.

ghost use Rattle.std.specs.Prelude.{◌≡◌, OnOk, ◌⊎◌, []};
ghost use Rattle.std.specs.List.{Contains};
ghost use Rattle.graphql_bundles.specs.Going.{Grows, stage_of};

use crate::conflict::Conflict;
use graphql_text::Items;
use indexmap::IndexSet;
use std::alloc::{AllocError, Global};

/// Selection sets that stand together, by their numbers in order: those in which fields stand
/// directly.
#[derive(PartialEq, Eq, Hash, Drop)]
pub(crate) struct Bundle {
    /// The numbers.
    pub sets: Vec<usize>,

    /// Whether the fields around them have parents that are different objects.
    pub around: bool,
}

/// What is told so far, and which bundles are begun: in the order in which they were begun, those
/// below a number are gone through.
#[derive(Drop)]
pub(crate) struct Progress {
    /// The conflicts.
    pub told: Items<Conflict>,

    /// The bundles.
    pub bundles: IndexSet<Bundle>,

    /// How many sets and fields may still be taken up.
    pub left: usize,

    /// Whether no more was to be taken up than that.
    pub is_within: bool,
}

impl Progress {
    /// Counts what is taken up.
    pub(crate) fn spend(&mut self, amount: usize)
        ensures { Grows (λ e. ⊥) (λ b. ⊥) (stage_of self.old) (stage_of self.new) }
    {
        if self.left < amount {
            self.left = 0;
            self.is_within = false;
        } else {
            self.left -= amount;
        }
    }

    /// Begins a bundle, unless it was begun or there is nothing in it.
    pub(crate) fn begin(&mut self, sets: Vec<usize>, around: bool) -> Result<(), AllocError>
        ensures grows { OnOk result (Grows (λ e. ⊥)
            (λ b. b ≡ record { sets = sets.items; around = around })
            (stage_of self.old) (stage_of self.new)) }
        ensures there { OnOk result ((sets.items ≡ []) ⊎ Contains (stage_of self.new).bundles
            (record { sets = sets.items; around = around })) }
    {
        if sets.is_empty() {
            return Ok(());
        }
        match self.bundles.insert_full(Bundle { sets, around }) {
            Ok(_) => Ok(()),
            Err(refused) => {
                let _bundle = refused.value;
                Err(AllocError)
            }
        }
    }
}
