//! Pairs of selection sets that are to be compared, each once.

ghost use Rattle.std.specs.Prelude.{◌≡◌, false, IfOk, OnOk, MatchOption};
ghost use Rattle.graphql_rules_merging.specs.Agenda as spec;

use crate::queue::PairQueue;
use std::alloc::{AllocError, Global};

/// Two selection sets by their numbers, of which the first is no greater.
#[derive(Clone, Copy)]
pub(crate) struct SetPair {
    /// The smaller number.
    pub left: usize,

    /// The other, or the same.
    pub right: usize,

    /// Whether the fields around them have parents that are different objects.
    pub around: bool,
}

/// The pair of two sets, either way round.
fn pair_of(left: usize, right: usize, around: bool) -> SetPair
    ensures { result ≡ spec.pair_of left right around }
{
    if right < left {
        return SetPair {
            left: right,
            right: left,
            around,
        };
    }
    SetPair {
        left,
        right,
        around,
    }
}

/// Pairs that wait to be compared, and those that were given out. Each pair is given out once, so
/// that there is an end. For each flag it takes two bits of memory for each two sets, or less.
#[derive(Drop)]
pub(crate) struct Agenda {
    // Those without the flag, by the numbers of their sets.
    together: PairQueue,

    // Those with it.
    apart: PairQueue,
}

impl Agenda {
    /// No pairs. Takes no memory.
    pub(crate) fn new(alloc: Global) -> Agenda
        ensures { (pair : _)
            → ((spec.listed_of result).waits pair ≡ false)
            × ((spec.listed_of result).given pair ≡ false) }
    {
        Agenda {
            together: PairQueue::new(alloc),
            apart: PairQueue::new(alloc),
        }
    }

    /// Begins the pair of two sets, unless it was begun, either way round. An error is want of
    /// memory.
    pub(crate) fn begin(
        &mut self,
        left: usize,
        right: usize,
        around: bool,
    ) -> Result<(), AllocError>
        ensures { OnOk result (spec.Lists (spec.pair_of left right around) (spec.listed_of self.old)
            (spec.listed_of self.new)) }
    {
        let pair = pair_of(left, right, around);
        if pair.around {
            self.apart.begin(pair.left, pair.right)
        } else {
            self.together.begin(pair.left, pair.right)
        }
    }

    /// Gives out a pair that waits, if there is one. An error is want of memory.
    pub(crate) fn next(&mut self) -> Result<Option<SetPair>, AllocError>
        ensures { IfOk result (λ next.
            MatchOption next (spec.NoneWaits (spec.listed_of self.old) (spec.listed_of self.new))
            (λ pair. spec.Takes pair (spec.listed_of self.old) (spec.listed_of self.new))) }
    {
        if let Some((left, right)) = self.together.next()? {
            return Ok(Some(SetPair {
                left,
                right,
                around: false,
            }));
        }
        let Some((left, right)) = self.apart.next()? else {
            return Ok(None);
        };
        Ok(Some(SetPair {
            left,
            right,
            around: true,
        }))
    }
}
