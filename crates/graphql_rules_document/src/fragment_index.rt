//! Fragments that are found by their names.

ghost use Rattle.std.specs.Prelude.{◌≡◌, ℕ, List, IfOk};
ghost use Rattle.std.specs.HashMap.{get_by};
ghost use Rattle.std.specs.Str.{bytes_eq};
ghost use Rattle.graphql_rules_document.specs.Named.{earlier_place, earlier_places, fragment_names};
ghost use Rattle.graphql_rules_document.specs.Named.{last_place};

use crate::scopes::FragmentScope;
use graphql_text::Items;
use std::alloc::{AllocError, Global};
use std::collections::HashMap;

/// The fragments of a document, found by their names, of which several may be the same.
#[derive(Drop)]
pub struct FragmentIndex<'b, 'a> {
    fragments: &'b [FragmentScope<'a>],

    // The place of the last fragment of each name.
    last: HashMap<&'a str, usize>,

    // Of each fragment, the place of the last one of its name before it.
    earlier: Items<Option<usize>>,

    ghost lasts: { (name : List ℕ)
        → get_by (λ k. bytes_eq name k.now) last ≡ last_place (fragment_names fragments.now) name },
    ghost earliers: { earlier ≡ earlier_places (fragment_names fragments.now) },
}

impl<'b, 'a> FragmentIndex<'b, 'a> {
    /// An index of these fragments. Takes time in proportion to them. An error is want of memory.
    pub fn new(
        alloc: Global,
        fragments: &'b [FragmentScope<'a>],
    ) -> Result<FragmentIndex<'b, 'a>, AllocError>
        ensures { IfOk result (λ index. index.fragments.now ≡ fragments.now) }
    {
        let mut last: HashMap<&str, usize> = HashMap::new(alloc);
        let mut earlier = Items::new(alloc);
        'fragments: for (place, fragment) in fragments.iter().enumerate() {
            let before = last.insert(fragment.name, place)?;
            earlier.push(before)?;
        }
        Ok(FragmentIndex {
            fragments,
            last,
            earlier,
        })
    }

    /// The fragments, in the order of the document.
    pub fn fragments(&self) -> &'b [FragmentScope<'a>]
        ensures { result.now ≡ self.now.fragments.now }
    {
        self.fragments
    }

    /// The place of the last fragment of this name, counted from zero.
    pub(crate) fn last_named(&self, name: &str) -> Option<usize>
        ensures { result ≡ last_place (fragment_names self.now.fragments.now) name.now }
    {
        self.last.get(name).copied()
    }

    /// The place of the last fragment before the one at `place` that has the same name.
    pub(crate) fn earlier(&self, place: usize) -> Option<usize>
        ensures { result ≡ earlier_place (fragment_names self.now.fragments.now) place }
    {
        match self.earlier.get(place) {
            Some(earlier) => *earlier,
            None => None,
        }
    }
}
