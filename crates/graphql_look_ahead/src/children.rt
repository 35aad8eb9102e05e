//! Children of a field that is looked at.

ghost use Rattle.std.specs.Prelude.{◌≡◌, ◌↔◌, ◌<◌, ◌^◌, [], IfSome, IsTrue, length, map};
ghost use Rattle.std.specs.List.{All, find};
ghost use Rattle.std.specs.Option.{is_some, option_copied};
ghost use Rattle.std.specs.Slice.Iter.{iter_rest, iter_steps};
ghost use Rattle.std.specs.Iterator.Runs.{EveryRun, ItemsMapTo};
ghost use Rattle.graphql_text.specs.Memory.{Gives};
ghost use Rattle.graphql_collected.specs.declared.request.Request.{Request};
ghost use Rattle.graphql_look_ahead.specs.declared.selection.LookAheadSelection.{LookAheadSelection};
ghost use Rattle.graphql_look_ahead.specs.NamesLeft.{key_at, names_left};
ghost use Rattle.graphql_look_ahead.specs.Told.{IsOfRequest, has_key};

mod names;
mod traits;

use crate::selection::LookAheadSelection;
use graphql_schema::SchemaScalar;
use graphql_text::Items;
pub use names::Names;
use std::alloc::{AllocError, Global};
use std::slice::Iter;

/// The children of a field that is looked at, in order.
#[derive(Drop)]
pub struct LookAheadChildren<'d, 'a, S, C = <S as SchemaScalar>::Check> {
    pub(crate) children: Items<LookAheadSelection<'d, 'a, S, C>>,
}

impl<'d, 'a, S, C> LookAheadChildren<'d, 'a, S, C> {
    /// No children.
    pub fn new(alloc: Global) -> LookAheadChildren<'d, 'a, S, C>
        ensures { result.children ≡ [] }
    {
        LookAheadChildren {
            children: Items::new(alloc),
        }
    }

    /// The same children once more. An error is want of memory.
    pub fn clone(&self) -> Result<LookAheadChildren<'d, 'a, S, C>, AllocError>
        ensures { Gives result self.now }
    {
        let alloc = *self.children.allocator();
        let mut children = Items::with_capacity(alloc, self.len())?;
        for child in self.as_slice() {
            children.push(child.lent())?;
        }
        Ok(LookAheadChildren { children })
    }

    /// The children, in order.
    pub fn as_slice(&self) -> &[LookAheadSelection<'d, 'a, S, C>]
        ensures { result.now ≡ self.now.children }
    {
        self.children.as_slice()
    }

    /// How many there are.
    pub fn len(&self) -> usize
        ensures { result ≡ length self.now.children }
    {
        self.as_slice().len()
    }

    /// Whether there is none.
    pub fn is_empty(&self) -> bool
        ensures { IsTrue result ↔ (self.now.children ≡ []) }
    {
        self.as_slice().is_empty()
    }

    /// The first child of this response key.
    pub fn select(&self, key: &str) -> Option<&LookAheadSelection<'d, 'a, S, C>>
        ensures first { option_copied result ≡ find (has_key key.now) self.now.children }
        ensures request { (request : Request S C) → All (IsOfRequest request) self.now.children
            → IfSome (option_copied result) (IsOfRequest request) }
    {
        self.as_slice()
            .iter()
            .find(|child| child.field_name() == key)
    }

    /// Whether there is a child of this response key.
    pub fn has_child(&self, key: &str) -> bool
        ensures { result ≡ is_some (find (has_key key.now) self.now.children) }
    {
        self.select(key).is_some()
    }

    /// The response keys, in order: of two children of one key it has the key twice.
    pub fn names(&self) -> Names<'_, 'd, 'a, S, C>
        ensures { names_left result ≡ map key_at self.now.children }
    {
        Names { rest: self.iter() }
    }

    /// The children, in order, from both ends.
    pub fn iter(&self) -> Iter<'_, LookAheadSelection<'d, 'a, S, C>>
        ensures rest { iter_rest result ≡ self.now.children }
        ensures bound { length (iter_rest result) < 2 ^ 64 }
        ensures runs { EveryRun (iter_steps {A = LookAheadSelection S C})
            (λ p. ItemsMapTo p (λ y. y.now) (iter_rest p.from)) }
    {
        self.as_slice().iter()
    }
}
