//! Where a context stands, and what is asked of it as if it stood elsewhere.

ghost use Rattle.std.specs.Prelude.{◌≡◌};
ghost use Rattle.std.specs.Fn.{FnOnceReturnsAtMut};
ghost use Rattle.std.specs.Option.{option_copied, option_map};
ghost use Rattle.graphql_occurrences.specs.Lent.{literal_of};
ghost use Rattle.graphql_occurrences.specs.Lookups.{referred};
ghost use Rattle.graphql_occurrences.specs.Lookups.{declarations_of};

use crate::context::ValidatorContext;
use graphql_occurrences::{Around, InputPlace, TypeLiteral};

impl<'a, 't, S, C> ValidatorContext<'a, 't, S, C> {
    /// The types around the node where the context stands.
    pub fn around(&self) -> Around<'a, S, C>
        ensures { result ≡ self.now.around }
    {
        self.around
    }

    /// The context stands where these types are around the node at hand, as a walk tells them.
    pub fn stand_at(&mut self, around: Around<'a, S, C>)
        ensures { self.new ≡ record self.old { around = around.entry } }
    {
        self.around = around;
    }

    /// What a function answers where the type of what is selected is this one. The context stands
    /// afterwards where it stood.
    pub fn with_pushed_type<R, F: FnOnce(&mut ValidatorContext<'_, '_, S, C>) -> R>(
        &mut self,
        current: Option<TypeLiteral<'a>>,
        inside: F,
    ) -> R
        requires { F.IsAlwaysCallable inside }
        ensures { (after : _)
            × FnOnceReturnsAtMut F.FnOnce inside
            (record self.old { around = record self.old.around { current = current.entry } }) result
            after
            × (self.new ≡ record after { around = self.old.around }) }
    {
        let outside = self.around;
        self.around.current = current;
        let answer = inside(self);
        self.around = outside;
        answer
    }

    /// What a function answers where what is selected is selected of this type: of the type that
    /// the schema has for what is selected here. The context stands afterwards where it stood.
    pub fn with_pushed_parent_type<R, F: FnOnce(&mut ValidatorContext<'_, '_, S, C>) -> R>(
        &mut self,
        inside: F,
    ) -> R
        requires { F.IsAlwaysCallable inside }
        ensures { (parent : _)
            × (after : _)
            × (option_copied parent
            ≡ referred
            (declarations_of self.old.schema.now) (option_map literal_of self.old.around.current))
            × FnOnceReturnsAtMut F.FnOnce inside
            (record self.old { around = record self.old.around { parent = parent } }) result after
            × (self.new ≡ record after { around = self.old.around }) }
    {
        let outside = self.around;
        self.around.parent = self.current_type();
        let answer = inside(self);
        self.around = outside;
        answer
    }

    /// What a function answers where a value stands here. The context stands afterwards where it
    /// stood.
    pub fn with_pushed_input_type<R, F: FnOnce(&mut ValidatorContext<'_, '_, S, C>) -> R>(
        &mut self,
        input: Option<InputPlace<'a>>,
        inside: F,
    ) -> R
        requires { F.IsAlwaysCallable inside }
        ensures { (after : _)
            × FnOnceReturnsAtMut F.FnOnce inside
            (record self.old { around = record self.old.around { input = input.entry } }) result
            after
            × (self.new ≡ record after { around = self.old.around }) }
    {
        let outside = self.around;
        self.around.input = input;
        let answer = inside(self);
        self.around = outside;
        answer
    }
}
