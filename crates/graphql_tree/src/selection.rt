//! What an operation or a fragment selects.

mod clones;
mod let_go;

use crate::directive::{Arguments, Directive};
use graphql_text::{Items, Spanning, TextRef};
use graphql_values::DefaultScalarValue;

/// A field (GraphQL October 2021, 2.5 Fields).
#[cycle(selections)]
#[derive(Debug, Drop)]
pub struct Field<'a, S = DefaultScalarValue> {
    /// The alias, without the colon.
    pub alias: Option<Spanning<TextRef<'a>>>,

    /// The field's own name.
    pub name: Spanning<TextRef<'a>>,

    /// The arguments, with the parentheses; none where there are none.
    pub arguments: Option<Spanning<Arguments<'a, S>>>,

    /// The directives, in the order of the text; none where there are none.
    pub directives: Option<Items<Spanning<Directive<'a, S>>>>,

    /// What is selected of the field's value; none where nothing is.
    pub selection_set: Option<Items<Selection<'a, S>>>,
}

/// A spread of a fragment (GraphQL October 2021, 2.8 Fragments).
#[derive(Debug, Drop)]
pub struct FragmentSpread<'a, S = DefaultScalarValue> {
    /// The fragment's name, without the `...`.
    pub name: Spanning<TextRef<'a>>,

    /// The directives, in the order of the text; none where there are none.
    pub directives: Option<Items<Spanning<Directive<'a, S>>>>,
}

/// A fragment that stands where it is used (GraphQL October 2021, 2.8.2 Inline Fragments).
#[cycle(selections)]
#[derive(Debug, Drop)]
pub struct InlineFragment<'a, S = DefaultScalarValue> {
    /// The type to which it applies, without the `on`; none where it applies to every one.
    pub type_condition: Option<Spanning<TextRef<'a>>>,

    /// The directives, in the order of the text; none where there are none.
    pub directives: Option<Items<Spanning<Directive<'a, S>>>>,

    /// What is selected.
    pub selection_set: Items<Selection<'a, S>>,
}

/// A selection of a selection set (GraphQL October 2021, 2.4 Selection Sets).
#[cycle(selections)]
#[derive(Debug)]
pub enum Selection<'a, S = DefaultScalarValue> {
    /// A field, from its alias or name to its last token.
    Field(Spanning<Field<'a, S>>),

    /// A spread of a fragment, with its `...`.
    FragmentSpread(Spanning<FragmentSpread<'a, S>>),

    /// An inline fragment, with its `...`.
    InlineFragment(Spanning<InlineFragment<'a, S>>),
}

/// A loop, which takes no memory, and no more stack however deep the selection is. It ends since
/// each turn lets one go of the selections that stand in this one, itself among them.
impl<'a, S: Drop> Drop for Selection<'a, S> {
    fn drop(mut self) {
        'selections: while let Some(others) = self.let_one_go() {
            self = others;
        }
    }
}
