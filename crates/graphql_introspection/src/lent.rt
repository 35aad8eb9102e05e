//! What is lent, which contracts see as it is.

ghost use Rattle.std.specs.Prelude.{◌≡◌, List};
ghost use Rattle.graphql_names.specs.declared.type_modifier.TypeModifier.{TypeModifier};

use graphql_names::TypeModifier;
use std::marker::Model;

/// A reference that contracts see as what it leads to.
#[derive(Drop)]
pub struct Lent<'s, T> {
    held: &'s T,
}

impl<'s, T> Model for Lent<'s, T> {
    ghost Value = { T };

    ghost view = { λ lent. lent.held.now };
}

impl<'s, T> Lent<'s, T> {
    /// This reference.
    pub fn new(held: &'s T) -> Lent<'s, T>
        ensures { result ≡ held.now }
    {
        Lent { held }
    }

    /// What is lent.
    pub fn get(&self) -> &'s T
        ensures { result.now ≡ self.now }
    {
        self.held
    }
}

/// The wraps of a type, lent, the innermost first.
#[derive(Drop)]
pub struct LentWraps<'s> {
    held: &'s [TypeModifier],
}

impl<'s> Model for LentWraps<'s> {
    ghost Value = { List TypeModifier };

    ghost view = { λ lent. lent.held.now };
}

impl<'s> LentWraps<'s> {
    /// These wraps.
    pub fn new(held: &'s [TypeModifier]) -> LentWraps<'s>
        ensures { result ≡ held.now }
    {
        LentWraps { held }
    }

    /// The wraps.
    pub fn get(&self) -> &'s [TypeModifier]
        ensures { result.now ≡ self.now }
    {
        self.held
    }
}
