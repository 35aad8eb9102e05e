//! The arguments of a field that is looked at before it is answered.

ghost use Rattle.std.specs.Prelude.{◌≡◌, [], map};
ghost use Rattle.std.specs.Iterator.{YieldsFirstBy, YieldsLastBy, item_count};
ghost use Rattle.std.specs.Option.{option_map};
ghost use Rattle.graphql_look_ahead.specs.Values.{argument_named, argument_seen, argument_told};
ghost use Rattle.graphql_look_ahead.specs.Values.{arguments_left, value_shown, written_left};

use crate::value::LookAheadValue;
use graphql_text::{Span, Spanning, TextRef};
use graphql_values::InputValue;
use graphql_written_out::FinalVariables;
use std::iter::FusedIterator;

/// An argument of a field (GraphQL October 2021, 2.6 Arguments), with the values of variables in
/// their stead.
#[derive_where(Clone, Copy)]
pub struct LookAheadArgument<'a, S> {
    /// Its name.
    name: &'a str,

    /// Where its name stands.
    name_span: &'a Span,

    /// Its value as it is written, at its place.
    value: &'a Spanning<InputValue<S>>,

    /// What variables in it stand for.
    variables: &'a FinalVariables<'a, S>,
}

impl<'a, S> LookAheadArgument<'a, S> {
    /// The argument that is written so, where the variables in it have these values.
    pub(crate) fn new<'t>(
        written: &'a (Spanning<TextRef<'t>>, Spanning<InputValue<S>>),
        variables: &'a FinalVariables<'a, S>,
    ) -> LookAheadArgument<'a, S>
        ensures { argument_told result ≡ argument_seen variables.now written.now }
    {
        LookAheadArgument {
            name: written.0.item.as_str(),
            name_span: &written.0.span,
            value: &written.1,
            variables,
        }
    }

    /// Its name.
    pub fn name(&self) -> &'a str
        ensures { result.now ≡ (argument_told self.now).0.item }
    {
        self.name
    }

    /// Where its name stands.
    pub fn name_span(&self) -> &'a Span
        ensures { result.now ≡ (argument_told self.now).0.span }
    {
        self.name_span
    }

    /// Its value: `null` where it is a variable without a value.
    pub fn value(&self) -> LookAheadValue<'a, S>
        ensures { value_shown result ≡ (argument_told self.now).1.item }
    {
        LookAheadValue::new(&self.value.item, Some(self.variables))
    }

    /// Where its value stands.
    pub fn value_span(&self) -> &'a Span
        ensures { result.now ≡ (argument_told self.now).1.span }
    {
        &self.value.span
    }
}

/// Arguments that are written at a field and have yet to be read, in the order of the text, from
/// both ends.
#[derive_where(Clone, Copy)]
pub(crate) struct WrittenArguments<'a, 't, S> {
    /// The arguments as they are written.
    written: &'a [(Spanning<TextRef<'t>>, Spanning<InputValue<S>>)],

    /// What variables in their values stand for.
    variables: &'a FinalVariables<'a, S>,
}

impl<'a, 't, S> WrittenArguments<'a, 't, S> {
    /// The arguments that are written so, where the variables in them have these values.
    fn new(
        written: &'a [(Spanning<TextRef<'t>>, Spanning<InputValue<S>>)],
        variables: &'a FinalVariables<'a, S>,
    ) -> WrittenArguments<'a, 't, S>
        ensures { written_left result ≡ map (argument_seen variables.now) written.now }
    {
        WrittenArguments { written, variables }
    }

    /// The first of this name among those that have yet to be read, or `None` where there is none.
    fn get(&self, name: &str) -> Option<LookAheadArgument<'a, S>>
        ensures { option_map argument_told result
            ≡ argument_named (written_left self.now) name.now }
    {
        for written in self.written {
            if written.0.item.as_str() == name {
                return Some(LookAheadArgument::new(written, self.variables));
            }
        }
        None
    }
}

impl<'a, 't, S> Iterator for WrittenArguments<'a, 't, S> {
    type Item = LookAheadArgument<'a, S>;

    ghost next_gives = { YieldsFirstBy argument_told written_left };

    ghost remaining = { item_count written_left };

    fn next(&mut self) -> Option<LookAheadArgument<'a, S>> {
        let written = self.written;
        let first = written.first()?;
        self.written = &written[1..];
        Some(LookAheadArgument::new(first, self.variables))
    }

    fn size_hint(&self) -> (usize, Option<usize>) {
        let len = self.written.len();
        (len, Some(len))
    }
}

impl<'a, 't, S> DoubleEndedIterator for WrittenArguments<'a, 't, S> {
    ghost next_back_gives = { YieldsLastBy argument_told written_left };

    fn next_back(&mut self) -> Option<LookAheadArgument<'a, S>> {
        let written = self.written;
        let last = written.last()?;
        self.written = &written[..written.len() - 1];
        Some(LookAheadArgument::new(last, self.variables))
    }
}

impl<'a, 't, S> ExactSizeIterator for WrittenArguments<'a, 't, S> {
    fn len(&self) -> usize {
        self.written.len()
    }
}

impl<'a, 't, S> FusedIterator for WrittenArguments<'a, 't, S> {}

/// The arguments of a field that have yet to be read, in the order of the text, from both ends.
#[derive_where(Clone, Copy)]
pub struct LookAheadArguments<'a, 't, S> {
    /// Those that are written at the field, if it stands in a document.
    written: Option<WrittenArguments<'a, 't, S>>,
}

impl<'a, 't, S> LookAheadArguments<'a, 't, S> {
    /// The arguments that are written so, where the variables in them have these values.
    pub(crate) fn new(
        written: &'a [(Spanning<TextRef<'t>>, Spanning<InputValue<S>>)],
        variables: &'a FinalVariables<'a, S>,
    ) -> LookAheadArguments<'a, 't, S>
        ensures { arguments_left result ≡ map (argument_seen variables.now) written.now }
    {
        LookAheadArguments {
            written: Some(WrittenArguments::new(written, variables)),
        }
    }

    /// No arguments.
    pub(crate) fn none() -> LookAheadArguments<'a, 't, S>
        ensures { arguments_left result ≡ [] }
    {
        LookAheadArguments { written: None }
    }

    /// The first of this name among those that have yet to be read, or `None` where there is none.
    pub fn get(&self, name: &str) -> Option<LookAheadArgument<'a, S>>
        ensures { option_map argument_told result
            ≡ argument_named (arguments_left self.now) name.now }
    {
        match &self.written {
            Some(written) => written.get(name),
            None => None,
        }
    }
}

impl<'a, 't, S> Iterator for LookAheadArguments<'a, 't, S> {
    type Item = LookAheadArgument<'a, S>;

    ghost next_gives = { YieldsFirstBy argument_told arguments_left };

    ghost remaining = { item_count arguments_left };

    fn next(&mut self) -> Option<LookAheadArgument<'a, S>> {
        match &mut self.written {
            Some(written) => written.next(),
            None => None,
        }
    }

    fn size_hint(&self) -> (usize, Option<usize>) {
        let len = self.len();
        (len, Some(len))
    }
}

impl<'a, 't, S> DoubleEndedIterator for LookAheadArguments<'a, 't, S> {
    ghost next_back_gives = { YieldsLastBy argument_told arguments_left };

    fn next_back(&mut self) -> Option<LookAheadArgument<'a, S>> {
        match &mut self.written {
            Some(written) => written.next_back(),
            None => None,
        }
    }
}

impl<'a, 't, S> ExactSizeIterator for LookAheadArguments<'a, 't, S> {
    fn len(&self) -> usize {
        match &self.written {
            Some(written) => written.len(),
            None => 0,
        }
    }
}

impl<'a, 't, S> FusedIterator for LookAheadArguments<'a, 't, S> {}
