//! Input objects in the values of arguments.

ghost use Rattle.std.specs.Prelude.{◌≡◌, [], map};
ghost use Rattle.graphql_look_ahead.specs.Values.{field_seen, fields_left, fields_told};

use crate::look_ahead_object::Iter;
use graphql_text::{Spanning, Text};
use graphql_values::InputValue;
use graphql_written_out::FinalVariables;

/// An input object: its fields' names and values, in order, with the values of variables in their
/// stead.
#[derive_where(Clone, Copy)]
pub struct LookAheadObject<'a, S> {
    /// The fields as they are written.
    fields: &'a [(Spanning<Text>, Spanning<InputValue<S>>)],

    /// What variables among their values stand for; `None` in a variable's value.
    variables: Option<&'a FinalVariables<'a, S>>,
}

impl<'a, S> LookAheadObject<'a, S> {
    /// The object of these fields, where the variables in them have these values.
    pub(crate) fn new(
        fields: &'a [(Spanning<Text>, Spanning<InputValue<S>>)],
        variables: Option<&'a FinalVariables<'a, S>>,
    ) -> LookAheadObject<'a, S>
        ensures { fields_told result ≡ map (field_seen variables.entry) fields.now }
    {
        LookAheadObject { fields, variables }
    }

    /// The fields in order, names and values at their places.
    pub fn iter(&self) -> Iter<'a, S>
        ensures { fields_left result ≡ fields_told self.now }
    {
        Iter::new(self.fields, self.variables)
    }
}

/// The fields in order, names and values at their places.
impl<'a, S> IntoIterator for LookAheadObject<'a, S> {
    type Item = <Iter<'a, S> as Iterator>::Item;

    type IntoIter = Iter<'a, S>;

    ghost into_iter_gives = { λ object r. fields_left r ≡ fields_told object };

    fn into_iter(self) -> Iter<'a, S> {
        self.iter()
    }
}

/// The object without fields.
impl<'a, S> Default for LookAheadObject<'a, S> {
    ghost is_default = { λ object. fields_told object ≡ [] };

    fn default() -> LookAheadObject<'a, S> {
        LookAheadObject::new(&[], None)
    }
}
