//! Directives, and arguments of fields and directives.

ghost use Rattle.std.specs.Prelude.{◌≡◌, ◌↔◌, ◌<◌, ◌^◌, [], length, IsTrue};
ghost use Rattle.std.specs.Option.{option_copied};
ghost use Rattle.std.specs.Slice.Iter.{iter_rest, iter_steps, iter_mut_rest, iter_mut_steps};
ghost use Rattle.std.specs.Iterator.Runs.{EveryRun, ItemsMapTo, ItemsAre};
ghost use Rattle.std.specs.declared.alloc.Global.{Global};
ghost use Rattle.std.specs.Vec.Iter.{into_iter_items, into_iter_len, into_iter_steps};
ghost use Rattle.graphql_tree.specs.Arguments.{Argument, value_of};
ghost use Rattle.graphql_tree.specs.Documents.{arguments_in as arguments_given};

mod clones;

pub(crate) use clones::copy_of_directives;
use graphql_text::{Items, Spanning, TextRef};
use graphql_values::{DefaultScalarValue, InputValue};
use std::alloc::Global;
use std::slice::{Iter, IterMut};
use std::vec::IntoIter;

/// Arguments, in the order of the text (GraphQL October 2021, 2.6 Arguments).
#[derive(Debug, Drop)]
pub struct Arguments<'a, S = DefaultScalarValue> {
    /// The names and the values.
    pub items: Items<(Spanning<TextRef<'a>>, Spanning<InputValue<S>>)>,
}

/// The arguments between a field's or a directive's parentheses, in order; none where there are
/// none.
pub fn arguments_in<'b, 't, S>(
    arguments: &'b Option<Spanning<Arguments<'t, S>>>,
) -> &'b [(Spanning<TextRef<'t>>, Spanning<InputValue<S>>)]
    ensures { result.now ≡ arguments_given arguments.now }
{
    match arguments {
        Some(arguments) => arguments.item.items.as_slice(),
        None => &[],
    }
}

impl<'a, S> Arguments<'a, S> {
    /// The names and the values in order, borrowed.
    pub fn iter(&self) -> Iter<'_, (Spanning<TextRef<'a>>, Spanning<InputValue<S>>)>
        ensures rest { iter_rest result ≡ self.now.items }
        ensures bound { length (iter_rest result) < 2 ^ 64 }
        ensures runs { EveryRun (iter_steps {A = Argument S})
            (λ p. ItemsMapTo p (λ y. y.now) (iter_rest p.from)) }
    {
        self.items.iter()
    }

    /// The names and the values in order, each pair lent to be written to. What is written no
    /// contract says.
    pub fn iter_mut(&mut self) -> IterMut<'_, (Spanning<TextRef<'a>>, Spanning<InputValue<S>>)>
        ensures rest { iter_mut_rest result ≡ self.old.items }
        ensures bound { length (iter_mut_rest result) < 2 ^ 64 }
        ensures runs { EveryRun (iter_mut_steps {A = Argument S})
            (λ p. ItemsMapTo p (λ y. y.now) (iter_mut_rest p.from)) }
    {
        self.items.iter_mut()
    }

    /// How many arguments there are.
    pub fn len(&self) -> usize
        ensures { result ≡ length self.now.items }
    {
        self.items.len()
    }

    /// Whether there is no argument.
    pub fn is_empty(&self) -> bool
        ensures { IsTrue result ↔ (self.now.items ≡ []) }
    {
        self.items.is_empty()
    }

    /// The value of the first argument of the name `key`, with its place, or `None` where no
    /// argument has that name.
    pub fn get(&self, key: &str) -> Option<&Spanning<InputValue<S>>>
        ensures { option_copied result ≡ value_of key.now self.now.items }
    {
        self.items
            .iter()
            .find(|argument| argument.0.item.is(key))
            .map(|argument| &argument.1)
    }
}

impl<'a, S: Drop> IntoIterator for Arguments<'a, S> {
    type Item = (Spanning<TextRef<'a>>, Spanning<InputValue<S>>);

    type IntoIter = IntoIter<(Spanning<TextRef<'a>>, Spanning<InputValue<S>>), Global>;

    ghost into_iter_gives = { λ arguments r. (into_iter_items r ≡ arguments.items)
        × (into_iter_len r ≡ length arguments.items)
        × (into_iter_len r < 2 ^ 64)
        × EveryRun (into_iter_steps {X = Argument S} {Z = Global})
        (λ p. ItemsAre p (into_iter_items p.from)) };

    fn into_iter(self) -> IntoIter<(Spanning<TextRef<'a>>, Spanning<InputValue<S>>), Global> {
        let Arguments { items } = self;
        items.into_iter()
    }
}

impl<'b, 'a, S> IntoIterator for &'b Arguments<'a, S> {
    type Item = &'b (Spanning<TextRef<'a>>, Spanning<InputValue<S>>);

    type IntoIter = Iter<'b, (Spanning<TextRef<'a>>, Spanning<InputValue<S>>)>;

    ghost into_iter_gives = { λ arguments r. (iter_rest r ≡ arguments.now.items)
        × (length (iter_rest r) < 2 ^ 64)
        × EveryRun (iter_steps {A = Argument S})
        (λ p. ItemsMapTo p (λ y. y.now) (iter_rest p.from)) };

    fn into_iter(self) -> Iter<'b, (Spanning<TextRef<'a>>, Spanning<InputValue<S>>)> {
        self.iter()
    }
}

/// A directive, with the `@` (GraphQL October 2021, 2.12 Directives).
#[derive(Debug, Drop)]
pub struct Directive<'a, S = DefaultScalarValue> {
    /// The name, without the `@`.
    pub name: Spanning<TextRef<'a>>,

    /// The arguments, with the parentheses; none where there are none.
    pub arguments: Option<Spanning<Arguments<'a, S>>>,
}
