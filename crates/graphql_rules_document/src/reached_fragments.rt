//! Which fragments are reached.

ghost use Rattle.std.specs.Prelude.{◌≡◌, ◌++◌, ◌∷◌, [], List, OnOk, Some, map, true, false};
ghost use Rattle.std.specs.Prelude.{slice_index_or, slice_set};
ghost use Rattle.graphql_names.specs.Names.{Bytes, is_one_of};
ghost use Rattle.graphql_rules_document.specs.Lent.{fragment_of, spread_of};
ghost use Rattle.graphql_rules_document.specs.Named.{fragment_names, last_place};
ghost use Rattle.graphql_rules_document.specs.Reached.{reached_marks};
ghost use Rattle.graphql_rules_document.specs.Searches.{Marked, Marks, marks_of, spread_names};
ghost use Rattle.graphql_rules_document.specs.Searches.{spread_names_at};

use crate::fragment_index::FragmentIndex;
use crate::scopes::Spread;
use graphql_text::Items;
use std::alloc::{AllocError, Global};

/// Which fragments of a document some spreads reach: those that are spread, and those that these
/// spread, on and on. Of several fragments of one name all are reached.
///
/// Its memory serves one search after another.
#[derive(Drop)]
pub struct ReachedFragments {
    // Of each fragment, whether it is reached.
    marks: Items<bool>,

    // The places of fragments whose spreads are yet to be followed.
    waiting: Items<usize>,
}

impl ReachedFragments {
    /// Before the first search. Takes no memory.
    pub fn new(alloc: Global) -> ReachedFragments
        ensures { result.marks ≡ [] }
    {
        ReachedFragments {
            marks: Items::new(alloc),
            waiting: Items::new(alloc),
        }
    }

    /// Of each fragment, in the order of the document, whether the last search reached it.
    pub fn marks(&self) -> &[bool]
        ensures { result.now ≡ self.now.marks }
    {
        self.marks.as_slice()
    }

    /// Finds the fragments that these spreads reach. Takes time in proportion to the fragments and
    /// to the spreads in those that are reached. An error is want of memory: what is marked then
    /// tells nothing.
    pub fn search(
        &mut self,
        index: &FragmentIndex<'_, '_>,
        spreads: &[Spread<'_>],
    ) -> Result<(), AllocError>
        ensures { OnOk result (self.new.marks
            ≡ reached_marks (map fragment_of index.now.fragments.now) (map spread_of spreads.now)) }
    {
        self.begin(index)?;
        self.mark_all(index, spreads)?;
        'waiting: while let Some(place) = self.waiting.pop() {
            self.follow(index, place)?;
        }
        Ok(())
    }

    /// No fragment is marked.
    fn begin(&mut self, index: &FragmentIndex<'_, '_>) -> Result<(), AllocError>
        ensures { OnOk result ((self.new.marks ≡ map (λ _. false) index.now.fragments.now)
            × (self.new.waiting ≡ [])) }
    {
        self.marks.clear();
        self.waiting.clear();
        'fragments: for _fragment in index.fragments() {
            self.marks.push(false)?;
        }
        Ok(())
    }

    /// Goes on with what the fragment at `place` spreads.
    fn follow(&mut self, index: &FragmentIndex<'_, '_>, place: usize) -> Result<(), AllocError>
        ensures { OnOk result
            (Marks (fragment_names index.now.fragments.now) (spread_names_at index.now.fragments.now
            place) self.old.marks self.old.waiting self.new.marks self.new.waiting) }
    {
        match index.fragments().get(place) {
            Some(fragment) => self.mark_all(index, fragment.spreads.as_slice()),
            None => Ok(()),
        }
    }

    /// Marks the fragments that these spreads name.
    fn mark_all(
        &mut self,
        index: &FragmentIndex<'_, '_>,
        spreads: &[Spread<'_>],
    ) -> Result<(), AllocError>
        ensures { OnOk result (Marks (fragment_names index.now.fragments.now) (spread_names
            spreads.now) self.old.marks self.old.waiting self.new.marks self.new.waiting) }
    {
        'spreads: for spread in spreads {
            self.mark_named(index, spread.name)?;
        }
        Ok(())
    }

    /// Marks the fragments of this name, unless they are marked.
    fn mark_named(&mut self, index: &FragmentIndex<'_, '_>, name: &str) -> Result<(), AllocError>
        ensures { OnOk result (Marks (fragment_names index.now.fragments.now) (name.now ∷ [])
            self.old.marks self.old.waiting self.new.marks self.new.waiting) }
    {
        match index.last_named(name) {
            Some(last) => {
                if self.is_reached(last) {
                    return Ok(());
                }
                self.mark_from(index, last)
            }
            None => Ok(()),
        }
    }

    /// Whether the last search reached the fragment at `place`, counted from zero in the order of
    /// the document; no fragment past the end is reached.
    pub fn is_reached(&self, place: usize) -> bool
        ensures { result ≡ slice_index_or self.now.marks place false }
    {
        match self.marks.get(place) {
            Some(mark) => *mark,
            None => false,
        }
    }

    /// Marks the last fragment of a name, and those of this name before it.
    fn mark_from(&mut self, index: &FragmentIndex<'_, '_>, last: usize) -> Result<(), AllocError>
        ensures { OnOk result ((name : Bytes) (found : List Bytes)
            → last_place
            (fragment_names index.now.fragments.now) name ≡ Some last → is_one_of found name ≡ false
            → self.old.marks ≡ marks_of (fragment_names index.now.fragments.now) found
            → Marked (fragment_names index.now.fragments.now) found (name ∷ []) self.old.marks
            self.old.waiting self.new.marks self.new.waiting) }
    {
        let mut next = Some(last);
        'chain: while let Some(place) = next {
            self.mark(place)?;
            next = index.earlier(place);
        }
        Ok(())
    }

    /// Marks the fragment at `place`, which then waits.
    fn mark(&mut self, place: usize) -> Result<(), AllocError>
        ensures { OnOk result ((self.new.marks ≡ slice_set self.old.marks place true)
            × (self.new.waiting ≡ self.old.waiting ++ place ∷ [])) }
    {
        self.waiting.push(place)?;
        if place < self.marks.len() {
            self.marks[place] = true;
        }
        Ok(())
    }
}
