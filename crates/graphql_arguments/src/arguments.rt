//! The argument values of a field.

ghost use Rattle.std.specs.Prelude.{◌≡◌, ◌↔◌, [], length, slice_get, IsTrue};
ghost use Rattle.std.specs.Option.{option_copied, option_map};
ghost use Rattle.graphql_text.specs.Memory.{GivesBy};
ghost use Rattle.graphql_written_out.specs.FinalVariables.{value_in};
ghost use Rattle.graphql_arguments.specs.ArgumentValues.{argument_values, value_named};
ghost use Rattle.graphql_arguments.specs.GivenValues.{arguments_told, named_lent, named_value};
ghost use Rattle.graphql_arguments.specs.Reading.{ReadsGiven};

use crate::filling::{put_defaults, put_written};
use crate::given::GivenValue;
use graphql_schema::Argument;
use graphql_text::{Spanning, TextRef};
use graphql_values::{FromInputValue, InputValue, ScalarValue};
use graphql_written_out::FinalVariables;
use indexmap::IndexMap;
use std::alloc::{AllocError, Global};

/// The argument values of a field (GraphQL October 2021, 6.4.1 Coercing Field Arguments): names
/// with values in which no variable of the document stands, first those that are written and have a
/// value, in the order of the text, then the defaults of the declared arguments that are absent, in
/// the order of the declaration. An argument is absent that is not written, or is a variable
/// without a value; a `null` that is given stays `null`. Each name stands once, with the first of
/// its values where there are several, as in no valid document. Values are lent where they stand
/// whole, defaults always.
#[derive(Drop)]
pub struct Arguments<'a, S> {
    /// The values, by their names.
    pub(crate) held: IndexMap<TextRef<'a>, Spanning<GivenValue<'a, S>>>,
}

impl<'a, S: ScalarValue + Drop> Arguments<'a, S> {
    /// The values of the arguments that are declared at a field and written at it. Takes time in
    /// proportion to the written and the declared arguments. Of literals in which variables stand
    /// within a list or an object a copy is made, which takes stack for each level that the literal
    /// nests; all others are lent. An error is want of memory.
    pub fn new(
        alloc: Global,
        declared: &'a [Argument<S>],
        written: &'a [(Spanning<TextRef<'a>>, Spanning<InputValue<S>>)],
        variables: &'a FinalVariables<'a, S>,
    ) -> Result<Arguments<'a, S>, AllocError>
        ensures { GivesBy arguments_told result
            (argument_values (value_in variables.now) declared.now written.now) }
    {
        let mut held = IndexMap::new(alloc);
        put_written(&mut held, alloc, written, variables)?;
        put_defaults(&mut held, declared)?;
        Ok(Arguments { held })
    }
}

impl<'a, S> Arguments<'a, S> {
    /// How many arguments have a value.
    pub fn len(&self) -> usize
        ensures { result ≡ length (arguments_told self.now) }
    {
        self.held.len()
    }

    /// Whether no argument has a value.
    pub fn is_empty(&self) -> bool
        ensures { IsTrue result ↔ (arguments_told self.now ≡ []) }
    {
        self.held.is_empty()
    }

    /// The argument at a place, from zero: its name and its value; `None` past the end.
    pub fn get_index(&self, index: usize) -> Option<(&str, &InputValue<S>)>
        ensures { option_map named_lent result
            ≡ option_map named_value (slice_get (arguments_told self.now) index) }
    {
        match self.held.get_index(index) {
            Some((name, value)) => Some((name.as_str(), value.item.value())),
            None => None,
        }
    }

    /// The value of the argument of this name, or `None` where it has none. Takes the time of a
    /// look-up.
    pub fn get_input_value(&self, name: &str) -> Option<&InputValue<S>>
        ensures { option_copied result ≡ value_named (arguments_told self.now) name.now }
    {
        // by its place: what is lent by a name lives no longer than the name
        match self.held.get_index_of(&TextRef::new(name)) {
            Some(index) => Some(self.held[index].item.value()),
            None => None,
        }
    }

    /// What the value of the argument of this name means at the type `T`, or `None` where it has
    /// none. An error says why it means nothing, or is want of memory.
    pub fn get<T: FromInputValue<S>>(
        &self,
        alloc: Global,
        name: &str,
    ) -> Result<Option<T>, T::Error>
        ensures { ReadsGiven T.means T.refuses T.is_memory
            (value_named (arguments_told self.now) name.now) result }
    {
        match self.get_input_value(name) {
            Some(value) => match T::from_input_value(alloc, value) {
                Ok(read) => Ok(Some(read)),
                Err(error) => Err(error),
            },
            None => Ok(None),
        }
    }
}
