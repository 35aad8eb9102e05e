//! The iterator over an input object in the value of an argument.

ghost use Rattle.std.specs.Prelude.{◌≡◌, map};
ghost use Rattle.std.specs.Iterator.{YieldsFirstBy, YieldsLastBy, item_count};
ghost use Rattle.graphql_look_ahead.specs.Values.{field_seen, fields_left, named_value};

use crate::value::LookAheadValue;
use graphql_text::{Spanning, Text};
use graphql_values::InputValue;
use graphql_written_out::FinalVariables;
use std::iter::FusedIterator;

/// The fields of an input object that have yet to be read, names and values at their places, from
/// both ends.
#[derive_where(Clone, Copy)]
pub struct Iter<'a, S> {
    /// The fields as they are written.
    fields: &'a [(Spanning<Text>, Spanning<InputValue<S>>)],

    /// What variables among their values stand for; `None` in a variable's value.
    variables: Option<&'a FinalVariables<'a, S>>,
}

impl<'a, S> Iter<'a, S> {
    /// These fields, where the variables in them have these values.
    pub(crate) fn new(
        fields: &'a [(Spanning<Text>, Spanning<InputValue<S>>)],
        variables: Option<&'a FinalVariables<'a, S>>,
    ) -> Iter<'a, S>
        ensures { fields_left result ≡ map (field_seen variables.entry) fields.now }
    {
        Iter { fields, variables }
    }
}

/// A field, its name and its value at their places.
fn field_at<'a, S>(
    field: &'a (Spanning<Text>, Spanning<InputValue<S>>),
    variables: Option<&'a FinalVariables<'a, S>>,
) -> (Spanning<&'a str>, Spanning<LookAheadValue<'a, S>>)
    ensures { named_value result ≡ field_seen variables.entry field.now }
{
    let name = Spanning {
        item: field.0.item.as_str(),
        span: field.0.span,
    };
    let span = field.1.span;
    let item = LookAheadValue::new(&field.1.item, variables);
    (name, Spanning { item, span })
}

impl<'a, S> Iterator for Iter<'a, S> {
    type Item = (Spanning<&'a str>, Spanning<LookAheadValue<'a, S>>);

    ghost next_gives = { YieldsFirstBy named_value fields_left };

    ghost remaining = { item_count fields_left };

    fn next(&mut self) -> Option<(Spanning<&'a str>, Spanning<LookAheadValue<'a, S>>)> {
        match self.fields.split_first() {
            Some((first, others)) => {
                self.fields = others;
                Some(field_at(first, self.variables))
            }
            None => None,
        }
    }

    fn size_hint(&self) -> (usize, Option<usize>) {
        let len = self.fields.len();
        (len, Some(len))
    }
}

impl<'a, S> DoubleEndedIterator for Iter<'a, S> {
    ghost next_back_gives = { YieldsLastBy named_value fields_left };

    fn next_back(&mut self) -> Option<(Spanning<&'a str>, Spanning<LookAheadValue<'a, S>>)> {
        match self.fields.split_last() {
            Some((last, others)) => {
                self.fields = others;
                Some(field_at(last, self.variables))
            }
            None => None,
        }
    }
}

impl<'a, S> ExactSizeIterator for Iter<'a, S> {
    fn len(&self) -> usize {
        self.fields.len()
    }
}

impl<'a, S> FusedIterator for Iter<'a, S> {}
