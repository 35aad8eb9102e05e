//! The fragments that a walk has met and not left.

ghost use Rattle.std.specs.Prelude.{◌≡◌, ℕ, ◌≤◌, List, OnOk, Some, IsTrue, length, slice_get};
ghost use Rattle.graphql_rules_document.specs.Components.{Leads};
ghost use Rattle.graphql_rules_document.specs.Walks.{IsOpen};
ghost use Rattle.graphql_rules_document.specs.declared.scopes.FragmentScope.{FragmentScope};

use graphql_text::Items;
use std::alloc::{AllocError, Global};

/// The fragments that a depth-first walk has met and not left, by their places, in the order in
/// which they were met: a path, on which each leads to the next. It falls into parts, within which
/// each leads to each (Gabow's path-based way to strongly connected components).
#[derive(Drop)]
pub(crate) struct OpenFragments {
    path: Items<usize>,

    // Where the last part begins.
    start: usize,

    // Where the parts before it begin, the last of them last.
    earlier: Items<usize>,
}

impl OpenFragments {
    /// Before the walk. Takes no memory.
    pub(crate) fn new(alloc: Global) -> OpenFragments
        ensures { (fragments : List FragmentScope) → IsOpen fragments result }
    {
        OpenFragments {
            path: Items::new(alloc),
            start: 0,
            earlier: Items::new(alloc),
        }
    }

    /// How many they are.
    pub(crate) fn len(&self) -> usize
        ensures { result ≡ length self.now.path }
    {
        self.path.len()
    }

    /// Where the last part begins.
    pub(crate) fn start(&self) -> usize
        ensures { result ≡ self.now.start }
    {
        self.start
    }

    /// The fragment at this position of the path.
    pub(crate) fn at(&self, position: usize) -> Option<usize>
        ensures { result ≡ slice_get self.now.path position }
    {
        self.path.get(position).copied()
    }

    /// Whether the fragment at `place` is at this position of the path.
    pub(crate) fn is_at(&self, position: usize, place: usize) -> bool
        ensures { IsTrue result → slice_get self.now.path position ≡ Some place }
    {
        match self.at(position) {
            Some(there) => there == place,
            None => false,
        }
    }

    /// A path of one fragment, in place of this one. An error is want of memory.
    pub(crate) fn begin(&mut self, place: usize) -> Result<(), AllocError>
        ensures { OnOk result ((fragments : List FragmentScope) → IsOpen fragments self.new) }
    {
        self.path.clear();
        self.earlier.clear();
        self.start = 0;
        self.path.push(place)?;
        Ok(())
    }

    /// The fragment at `place`, to which one of the last part leads, is a part of its own at the
    /// end. An error is want of memory.
    pub(crate) fn extend(&mut self, place: usize) -> Result<(), AllocError>
        ensures { OnOk result ((fragments : List FragmentScope) (from position : ℕ)
            → IsOpen fragments self.old → self.old.start ≤ position
            → slice_get self.old.path
            position ≡ Some from → Leads fragments from place → IsOpen fragments self.new) }
    {
        self.earlier.push(self.start)?;
        self.start = self.path.len();
        self.path.push(place)?;
        Ok(())
    }

    /// The fragment at one position, in the last part, leads to the one at another: all parts from
    /// there on are one.
    pub(crate) fn merge(&mut self, to: usize)
        ensures { (fragments : List FragmentScope) (from there position : ℕ)
            → IsOpen fragments self.old → self.old.start ≤ position
            → slice_get self.old.path position ≡ Some from → slice_get self.old.path to ≡ Some there
            → Leads fragments from there → IsOpen fragments self.new }
    {
        'parts: while to < self.start {
            match self.earlier.pop() {
                Some(start) => self.start = start,
                None => return,
            }
        }
    }

    /// The last part is left.
    pub(crate) fn close(&mut self)
        ensures { (fragments : List FragmentScope) → IsOpen fragments self.old
            → IsOpen fragments self.new }
    {
        self.path.truncate(self.start);
        let Some(start) = self.earlier.pop() else {
            return;
        };
        self.start = start;
    }
}
