//! The fields of an object, each value lent to be written to.

ghost use Rattle.std.specs.Iterator.{YieldsFirstBy, item_count};
ghost use Rattle.std.specs.Map.Iter.{deref_pair_mut};
ghost use Rattle.graphql_output_values.specs.FieldsLent.{fields_left};

use crate::key::Key;
use crate::value::Value;
use std::iter::FusedIterator;
use std::slice::IterMut;

/// The fields of an object in order: each key to be read, and each value to be written to.
#[derive(Drop)]
pub struct FieldsMut<'a, S> {
    pub(crate) rest: IterMut<'a, (Key, Value<S>)>,
}

impl<'a, S> Iterator for FieldsMut<'a, S> {
    type Item = (&'a Key, &'a mut Value<S>);

    ghost next_gives = { YieldsFirstBy deref_pair_mut fields_left };

    ghost remaining = { item_count fields_left };

    fn next(&mut self) -> Option<(&'a Key, &'a mut Value<S>)> {
        let field = self.rest.next()?;
        Some((&field.0, &mut field.1))
    }

    fn size_hint(&self) -> (usize, Option<usize>) {
        (self.rest.len(), Some(self.rest.len()))
    }
}

impl<'a, S> ExactSizeIterator for FieldsMut<'a, S> {
    fn len(&self) -> usize {
        self.rest.len()
    }
}

impl<'a, S> FusedIterator for FieldsMut<'a, S> {}
