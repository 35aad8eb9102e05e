//! To which objects a child applies.

ghost use Rattle.std.specs.Prelude.{◌≡◌};
ghost use Rattle.std.specs.Option.{option_map};
ghost use Rattle.graphql_look_ahead.specs.Applies.{applies_to, bound, only_of};

use graphql_text::{Spanning, TextRef};

/// To which objects a child applies, by what is written around it.
#[derive(Clone, Copy, Debug, PartialEq, Eq)]
pub enum Applies<'a> {
    /// To all.
    All,

    /// To those of the type of this name.
    OnlyType(&'a str),
}

impl<'a> Applies<'a> {
    /// To which objects that applies which stands in an inline fragment with this condition, or
    /// without one.
    pub(crate) fn within(self, condition: &'a Option<Spanning<TextRef<'_>>>) -> Applies<'a>
        ensures { only_of result
            ≡ bound (only_of self.entry) (option_map (λ on. on.item) condition.now) }
    {
        match condition {
            Some(on) => Applies::OnlyType(on.item.as_str()),
            None => self,
        }
    }

    /// Whether it is not bound to another type than the one of this name.
    pub fn applies_to(self, type_name: &str) -> bool
        ensures { result ≡ applies_to type_name.now (only_of self.entry) }
    {
        match self {
            Applies::All => true,
            Applies::OnlyType(name) => name == type_name,
        }
    }

    /// The type to which it is bound, if to one.
    pub fn only(self) -> Option<&'a str>
        ensures { option_map (λ name. name.now) result ≡ only_of self.entry }
    {
        match self {
            Applies::All => None,
            Applies::OnlyType(name) => Some(name),
        }
    }
}
