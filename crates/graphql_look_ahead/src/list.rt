//! Lists in the values of arguments.

ghost use Rattle.std.specs.Prelude.{◌≡◌, [], map};
ghost use Rattle.graphql_look_ahead.specs.Values.{item_seen, items_ahead, items_told};

use crate::look_ahead_list::Iter;
use graphql_text::Spanning;
use graphql_values::InputValue;
use graphql_written_out::FinalVariables;

/// A list of values, in order, with the values of variables in their stead.
#[derive_where(Clone, Copy)]
pub struct LookAheadList<'a, S> {
    /// The items as they are written.
    items: &'a [Spanning<InputValue<S>>],

    /// What variables among them stand for; `None` in a variable's value.
    variables: Option<&'a FinalVariables<'a, S>>,
}

impl<'a, S> LookAheadList<'a, S> {
    /// The list of these items, where the variables in them have these values.
    pub(crate) fn new(
        items: &'a [Spanning<InputValue<S>>],
        variables: Option<&'a FinalVariables<'a, S>>,
    ) -> LookAheadList<'a, S>
        ensures { items_told result ≡ map (item_seen variables.entry) items.now }
    {
        LookAheadList { items, variables }
    }

    /// The items in order, each at its place.
    pub fn iter(&self) -> Iter<'a, S>
        ensures { items_ahead result ≡ items_told self.now }
    {
        Iter::new(self.items, self.variables)
    }
}

/// The items in order, each at its place.
impl<'a, S> IntoIterator for LookAheadList<'a, S> {
    type Item = <Iter<'a, S> as Iterator>::Item;

    type IntoIter = Iter<'a, S>;

    ghost into_iter_gives = { λ list r. items_ahead r ≡ items_told list };

    fn into_iter(self) -> Iter<'a, S> {
        self.iter()
    }
}

/// The list without items.
impl<'a, S> Default for LookAheadList<'a, S> {
    ghost is_default = { λ list. items_told list ≡ [] };

    fn default() -> LookAheadList<'a, S> {
        LookAheadList::new(&[], None)
    }
}
