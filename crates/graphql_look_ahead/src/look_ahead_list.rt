//! The iterator over a list in the value of an argument.

ghost use Rattle.std.specs.Prelude.{◌≡◌, map};
ghost use Rattle.std.specs.Iterator.{YieldsFirstBy, YieldsLastBy, item_count};
ghost use Rattle.graphql_look_ahead.specs.Values.{item_seen, items_ahead, placed};

use crate::value::LookAheadValue;
use graphql_text::Spanning;
use graphql_values::InputValue;
use graphql_written_out::FinalVariables;
use std::iter::FusedIterator;

/// The items of a list that have yet to be read, each at its place, from both ends.
#[derive_where(Clone, Copy)]
pub struct Iter<'a, S> {
    /// The items as they are written.
    items: &'a [Spanning<InputValue<S>>],

    /// What variables among them stand for; `None` in a variable's value.
    variables: Option<&'a FinalVariables<'a, S>>,
}

impl<'a, S> Iter<'a, S> {
    /// These items, where the variables in them have these values.
    pub(crate) fn new(
        items: &'a [Spanning<InputValue<S>>],
        variables: Option<&'a FinalVariables<'a, S>>,
    ) -> Iter<'a, S>
        ensures { items_ahead result ≡ map (item_seen variables.entry) items.now }
    {
        Iter { items, variables }
    }
}

/// An item at its place.
fn item_at<'a, S>(
    item: &'a Spanning<InputValue<S>>,
    variables: Option<&'a FinalVariables<'a, S>>,
) -> Spanning<LookAheadValue<'a, S>>
    ensures { placed result ≡ item_seen variables.entry item.now }
{
    let span = item.span;
    let item = LookAheadValue::new(&item.item, variables);
    Spanning { item, span }
}

impl<'a, S> Iterator for Iter<'a, S> {
    type Item = Spanning<LookAheadValue<'a, S>>;

    ghost next_gives = { YieldsFirstBy placed items_ahead };

    ghost remaining = { item_count items_ahead };

    fn next(&mut self) -> Option<Spanning<LookAheadValue<'a, S>>> {
        match self.items.split_first() {
            Some((first, others)) => {
                self.items = others;
                Some(item_at(first, self.variables))
            }
            None => None,
        }
    }

    fn size_hint(&self) -> (usize, Option<usize>) {
        let len = self.items.len();
        (len, Some(len))
    }
}

impl<'a, S> DoubleEndedIterator for Iter<'a, S> {
    ghost next_back_gives = { YieldsLastBy placed items_ahead };

    fn next_back(&mut self) -> Option<Spanning<LookAheadValue<'a, S>>> {
        match self.items.split_last() {
            Some((last, others)) => {
                self.items = others;
                Some(item_at(last, self.variables))
            }
            None => None,
        }
    }
}

impl<'a, S> ExactSizeIterator for Iter<'a, S> {
    fn len(&self) -> usize {
        self.items.len()
    }
}

impl<'a, S> FusedIterator for Iter<'a, S> {}
