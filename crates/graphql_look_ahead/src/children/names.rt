//! The response keys of children.

ghost use Rattle.std.specs.Iterator.{YieldsFirstBy, YieldsLastBy, item_count};
ghost use Rattle.graphql_look_ahead.specs.NamesLeft.{names_left};

use crate::selection::LookAheadSelection;
use std::iter::FusedIterator;
use std::slice::Iter;

/// The response keys of children, from both ends.
#[derive(Drop)]
pub struct Names<'s, 'd, 'a, S, C> {
    pub(crate) rest: Iter<'s, LookAheadSelection<'d, 'a, S, C>>,
}

impl<'s, 'd, 'a, S, C> Iterator for Names<'s, 'd, 'a, S, C> {
    type Item = &'d str;

    ghost next_gives = { YieldsFirstBy (λ name. name.now) names_left };

    ghost remaining = { item_count names_left };

    fn next(&mut self) -> Option<&'d str> {
        let child = self.rest.next()?;
        Some(child.field_name())
    }

    fn size_hint(&self) -> (usize, Option<usize>) {
        (self.rest.len(), Some(self.rest.len()))
    }
}

impl<'s, 'd, 'a, S, C> DoubleEndedIterator for Names<'s, 'd, 'a, S, C> {
    ghost next_back_gives = { YieldsLastBy (λ name. name.now) names_left };

    fn next_back(&mut self) -> Option<&'d str> {
        let child = self.rest.next_back()?;
        Some(child.field_name())
    }
}

impl<'s, 'd, 'a, S, C> ExactSizeIterator for Names<'s, 'd, 'a, S, C> {
    fn len(&self) -> usize {
        self.rest.len()
    }
}

impl<'s, 'd, 'a, S, C> FusedIterator for Names<'s, 'd, 'a, S, C> {}
