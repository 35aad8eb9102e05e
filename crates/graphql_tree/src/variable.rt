//! The variables of an operation.

ghost use Rattle.std.specs.Prelude.{◌≡◌, ◌<◌, ◌^◌, length};
ghost use Rattle.std.specs.Slice.Iter.{iter_rest, iter_steps};
ghost use Rattle.std.specs.Iterator.Runs.{EveryRun, ItemsMapTo};
ghost use Rattle.graphql_tree.specs.Variables.{Variable};

mod clones;

use crate::directive::Directive;
use graphql_text::{Items, Spanning, TextRef};
use graphql_values::{DefaultScalarValue, InputValue, Type};
use std::slice::Iter;

/// What an operation says of one of its variables (GraphQL October 2021, 2.10 Variables).
#[derive(Debug, Drop)]
pub struct VariableDefinition<'a, S = DefaultScalarValue> {
    /// The type.
    pub var_type: Spanning<Type<TextRef<'a>>>,

    /// The default value, without the `=`.
    pub default_value: Option<Spanning<InputValue<S>>>,

    /// The directives, in the order of the text; none where there are none.
    pub directives: Option<Items<Spanning<Directive<'a, S>>>>,
}

/// The variables of an operation, in the order of the text.
#[derive(Debug, Drop)]
pub struct VariableDefinitions<'a, S = DefaultScalarValue> {
    /// The names, each with its `$` in its place and not in its text, and what is said of them.
    pub items: Items<(Spanning<TextRef<'a>>, VariableDefinition<'a, S>)>,
}

impl<'a, S> VariableDefinitions<'a, S> {
    /// The names, and what is said of them, in order, borrowed.
    pub fn iter(&self) -> Iter<'_, (Spanning<TextRef<'a>>, VariableDefinition<'a, S>)>
        ensures rest { iter_rest result ≡ self.now.items }
        ensures bound { length (iter_rest result) < 2 ^ 64 }
        ensures runs { EveryRun (iter_steps {A = Variable S})
            (λ p. ItemsMapTo p (λ y. y.now) (iter_rest p.from)) }
    {
        self.items.iter()
    }
}
