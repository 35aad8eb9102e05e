//! A walk over fragments that tells which of them reach each other.

ghost use Rattle.std.specs.Prelude.{◌≡◌, IfOk, IsTrue, OnOk, Some, slice_get};
ghost use Rattle.std.specs.List.{Contains};
ghost use Rattle.graphql_rules_document.specs.Components.{Told};
ghost use Rattle.graphql_rules_document.specs.Walks.{IsInLast, IsWalk, with_component};

use crate::fragment_index::FragmentIndex;
use crate::open_fragments::OpenFragments;
use crate::scopes::{FragmentScope, Spread};
use graphql_text::Items;
use std::alloc::{AllocError, Global};

/// Fragments that reach each other.
#[derive(Clone, Copy)]
pub(crate) struct Component {
    /// The place of the one that was met first.
    pub(crate) first: usize,

    /// How many components were left when this one was, itself included. What these fragments
    /// spread has no greater number.
    pub(crate) number: usize,
}

// A fragment whose spreads are followed, and which of them is next.
#[derive(Clone, Copy)]
struct Following {
    place: usize,
    next: usize,
}

/// A depth-first walk from name to name: the last fragment of a name stands for all of them.
#[derive(Drop)]
struct ComponentWalk {
    path: OpenFragments,
    following: Items<Following>,

    // Of each fragment that was met, where it stood on the path.
    positions: Items<Option<usize>>,

    // Of each fragment that was left, its component.
    components: Items<Option<Component>>,

    // How many components were left.
    closed: usize,
}

/// The components of the fragments, each where the last fragment of a name stands. Takes time in
/// proportion to the fragments and their spreads. An error is want of memory.
pub(crate) fn components_of(
    alloc: Global,
    index: &FragmentIndex<'_, '_>,
) -> Result<Items<Option<Component>>, AllocError>
    ensures { IfOk result (λ components. Told index.now.fragments.now components) }
{
    let mut walk = ComponentWalk::new(alloc, index)?;
    'fragments: for fragment in index.fragments() {
        walk.visit(index, fragment)?;
    }
    Ok(walk.components)
}

impl ComponentWalk {
    /// Before the walk.
    fn new(alloc: Global, index: &FragmentIndex<'_, '_>) -> Result<ComponentWalk, AllocError>
        ensures { IfOk result (λ walk. IsWalk index.now.fragments.now walk) }
    {
        let mut positions = Items::new(alloc);
        let mut components = Items::new(alloc);
        'fragments: for _fragment in index.fragments() {
            positions.push(None)?;
            components.push(None)?;
        }
        Ok(ComponentWalk {
            path: OpenFragments::new(alloc),
            following: Items::new(alloc),
            positions,
            components,
            closed: 0,
        })
    }

    /// Walks over what is reached from the fragments of this one's name, unless they were met.
    fn visit(
        &mut self,
        index: &FragmentIndex<'_, '_>,
        fragment: &FragmentScope<'_>,
    ) -> Result<(), AllocError>
        ensures { OnOk result
            (IsWalk index.now.fragments.now self.old → IsWalk index.now.fragments.now self.new) }
    {
        let Some(place) = index.last_named(fragment.name) else {
            return Ok(());
        };
        if self.position(place).is_some() {
            return Ok(());
        }
        self.path.begin(place)?;
        self.note(place, 0)?;
        self.follow_all(index)
    }

    /// Follows what is to be followed. The bound of the loop is out of reach, and stands for a
    /// measure: no more steps come than twice the fragments and the spreads.
    fn follow_all(&mut self, index: &FragmentIndex<'_, '_>) -> Result<(), AllocError>
        ensures { OnOk result
            (IsWalk index.now.fragments.now self.old → IsWalk index.now.fragments.now self.new) }
    {
        'steps: for _ in 0..usize::MAX {
            match self.following.pop() {
                Some(following) => self.follow(index, following)?,
                None => return Ok(()),
            }
        }
        Ok(())
    }

    /// One step: the next spread of a fragment is followed, or the fragment is left.
    fn follow(
        &mut self,
        index: &FragmentIndex<'_, '_>,
        following: Following,
    ) -> Result<(), AllocError>
        ensures { OnOk result
            (IsWalk index.now.fragments.now self.old → IsWalk index.now.fragments.now self.new) }
    {
        let Some(fragment) = index.fragments().get(following.place) else {
            return Ok(());
        };
        let Some(spread) = fragment.spreads.get(following.next) else {
            return self.leave(index, following.place, fragment);
        };
        self.following.push(Following {
            place: following.place,
            next: following.next.saturating_add(1),
        })?;
        self.follow_spread(index, fragment, spread)
    }

    /// Follows a spread of a fragment.
    fn follow_spread(
        &mut self,
        index: &FragmentIndex<'_, '_>,
        fragment: &FragmentScope<'_>,
        spread: &Spread<'_>,
    ) -> Result<(), AllocError>
        ensures { OnOk result (Contains index.now.fragments.now fragment.now
            → Contains fragment.now.spreads spread.now → IsWalk index.now.fragments.now self.old
            → IsWalk index.now.fragments.now self.new) }
    {
        let Some(from) = index.last_named(fragment.name) else {
            return Ok(());
        };
        let Some(to) = index.last_named(spread.name) else {
            return Ok(());
        };
        if !self.is_in_last_part(from) {
            return Ok(());
        }
        match self.position(to) {
            Some(position) => {
                if self.path.is_at(position, to) {
                    self.path.merge(position);
                }
                Ok(())
            }
            None => {
                let position = self.path.len();
                self.path.extend(to)?;
                self.note(to, position)
            }
        }
    }

    /// The spreads of the fragment at `place` were followed: those of the fragments of its name
    /// before it are next, or all of this name are left.
    fn leave(
        &mut self,
        index: &FragmentIndex<'_, '_>,
        place: usize,
        fragment: &FragmentScope<'_>,
    ) -> Result<(), AllocError>
        ensures { OnOk result
            (IsWalk index.now.fragments.now self.old → IsWalk index.now.fragments.now self.new) }
    {
        if let Some(earlier) = index.earlier(place) {
            self.following.push(Following {
                place: earlier,
                next: 0,
            })?;
            return Ok(());
        }
        if let Some(last) = index.last_named(fragment.name) {
            if self.path.is_at(self.path.start(), last) {
                self.close(index, last);
            }
        }
        Ok(())
    }

    /// The last part of the path is a component, and is left.
    fn close(&mut self, index: &FragmentIndex<'_, '_>, first: usize)
        ensures { slice_get self.old.path.path self.old.path.start ≡ Some first
            → IsWalk index.now.fragments.now self.old → IsWalk index.now.fragments.now self.new }
    {
        self.closed = self.closed.saturating_add(1);
        let component = Component {
            first,
            number: self.closed,
        };
        'members: for position in self.path.start()..self.path.len() {
            let place = self.path.at(position);
            tell(&mut self.components, place, component);
        }
        self.path.close();
    }

    /// Where the fragment at `place` stood on the path when it was met.
    fn position(&self, place: usize) -> Option<usize> {
        match self.positions.get(place) {
            Some(position) => *position,
            None => None,
        }
    }

    /// Whether the fragment at `place` stands in the last part of the path.
    fn is_in_last_part(&self, place: usize) -> bool
        ensures { IsTrue result → IsInLast self.now.path place }
    {
        match self.position(place) {
            Some(position) => self.path.start() <= position && self.path.is_at(position, place),
            None => false,
        }
    }

    /// The fragment at `place` is met, and its spreads are to be followed.
    fn note(&mut self, place: usize, position: usize) -> Result<(), AllocError>
        ensures { OnOk result
            ((self.new.path ≡ self.old.path) × (self.new.components ≡ self.old.components)) }
    {
        if place < self.positions.len() {
            self.positions[place] = Some(position);
        }
        self.following.push(Following { place, next: 0 })?;
        Ok(())
    }
}

/// The fragment at `place`, if there is one, belongs to this component.
fn tell(components: &mut Items<Option<Component>>, place: Option<usize>, component: Component)
    ensures { components.new ≡ with_component components.old place component }
{
    let Some(place) = place else {
        return;
    };
    if place < components.len() {
        components[place] = Some(component);
    }
}
