//! Which fragments reach each other.

ghost use Rattle.std.specs.Prelude.{◌≡◌, ◌<◌, ◌∷◌, [], IfOk, IsTrue, Some, map, slice_get};
ghost use Rattle.graphql_names.specs.Names.{is_one_of};
ghost use Rattle.graphql_rules_document.specs.Components.{Falls, Falling, IsComponents, IsSame};
ghost use Rattle.graphql_rules_document.specs.Components.{component_of, number_in, number_of};
ghost use Rattle.graphql_rules_document.specs.Lent.{fragment_of, spread_of};
ghost use Rattle.graphql_rules_document.specs.Reached.{reached};
ghost use Rattle.graphql_rules_document.specs.declared.scopes.FragmentScope.{FragmentScope as AFragment};

use crate::component_walk::{Component, components_of};
use crate::fragment_index::FragmentIndex;
use crate::reached_fragments::ReachedFragments;
use crate::scopes::{FragmentScope, Spread};
use graphql_text::Items;
use std::alloc::{AllocError, Global};

/// Which fragments of a document reach each other, found by one depth-first walk.
///
/// That fragments of one component reach each other is known of the walk. That others do not reach
/// back is seen from the components' numbers: where no fragment spreads one of a greater number,
/// none reaches one of a greater number. The walk gives numbers of this kind, and a look at all
/// spreads finds that they are; were they not, a search would decide.
#[derive(Drop)]
pub struct FragmentComponents {
    // Of the last fragment of each name, its component.
    components: Items<Option<Component>>,

    // Whether no fragment spreads one of a greater number.
    falls: bool,
}

impl FragmentComponents {
    /// The components of these fragments. Takes time in proportion to the fragments and their
    /// spreads. An error is want of memory.
    pub fn new(
        alloc: Global,
        index: &FragmentIndex<'_, '_>,
    ) -> Result<FragmentComponents, AllocError>
        ensures { IfOk result (λ components. IsComponents index.now.fragments.now components) }
    {
        let components = components_of(alloc, index)?;
        let falls = all_fall(&components, index);
        Ok(FragmentComponents { components, falls })
    }

    /// Whether the target of a spread is the fragment at `place` or reaches it; no fragment past
    /// the end is reached. Compares two components, and needs `search` only where these do not
    /// tell, which is at no spread of a fragment. An error is want of memory.
    pub fn leads_back(
        &self,
        index: &FragmentIndex<'_, '_>,
        search: &mut ReachedFragments,
        place: usize,
        spread: &Spread<'_>,
    ) -> Result<bool, AllocError>
        ensures { IfOk result (λ leads. IsComponents index.now.fragments.now self.now
            → (fragment : AFragment) → slice_get index.now.fragments.now place ≡ Some fragment
            → leads ≡ is_one_of (reached (map fragment_of index.now.fragments.now)
            (spread_of spread.now ∷ [])) fragment.name.now) }
    {
        let Some(fragment) = index.fragments().get(place) else {
            return Ok(false);
        };
        let from = component(&self.components, index, spread.name);
        let to = component(&self.components, index, fragment.name);
        if self.is_less(from, to) {
            return Ok(false);
        }
        if is_same(from, to) {
            return Ok(true);
        }
        search.search(index, &[*spread])?;
        Ok(search.is_reached(place))
    }

    /// Whether numbers tell that what has the one component does not reach what has the other.
    fn is_less(&self, from: Option<Component>, to: Option<Component>) -> bool
        ensures { IsTrue result → IsTrue self.now.falls × (number_in from < number_in to) }
    {
        self.falls && number(from) < number(to)
    }
}

/// Whether no fragment spreads one of a greater number.
fn all_fall(components: &Items<Option<Component>>, index: &FragmentIndex<'_, '_>) -> bool
    ensures { IsTrue result → Falling index.now.fragments.now components.now }
{
    'fragments: for fragment in index.fragments() {
        if !falls(components, index, fragment) {
            return false;
        }
    }
    true
}

/// Whether the fragment spreads none of a greater number.
fn falls(
    components: &Items<Option<Component>>,
    index: &FragmentIndex<'_, '_>,
    fragment: &FragmentScope<'_>,
) -> bool
    ensures { IsTrue result → Falls index.now.fragments.now components.now fragment.now }
{
    let own = number_named(components, index, fragment.name);
    'spreads: for spread in fragment.spreads.as_slice() {
        if own < number_named(components, index, spread.name) {
            return false;
        }
    }
    true
}

/// The number of the component of the fragments of this name, or zero.
fn number_named(
    components: &Items<Option<Component>>,
    index: &FragmentIndex<'_, '_>,
    name: &str,
) -> usize
    ensures { result ≡ number_of index.now.fragments.now components.now name.now }
{
    number(component(components, index, name))
}

/// The component of the fragments of this name.
fn component(
    components: &Items<Option<Component>>,
    index: &FragmentIndex<'_, '_>,
    name: &str,
) -> Option<Component>
    ensures { result ≡ component_of index.now.fragments.now components.now name.now }
{
    match index.last_named(name) {
        Some(place) => match components.get(place) {
            Some(component) => *component,
            None => None,
        },
        None => None,
    }
}

/// The component's number, or zero.
fn number(component: Option<Component>) -> usize
    ensures { result ≡ number_in component }
{
    match component {
        Some(component) => component.number,
        None => 0,
    }
}

/// Whether these are one component.
fn is_same(one: Option<Component>, other: Option<Component>) -> bool
    ensures { IsTrue result → IsSame one other }
{
    match (one, other) {
        (Some(one), Some(other)) => one.first == other.first,
        _ => false,
    }
}
