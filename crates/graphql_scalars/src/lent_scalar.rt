//! Scalars that are lent, and their texts.

ghost use Rattle.std.specs.Prelude.{◌≡◌, Some};
ghost use Rattle.graphql_scalars.specs.ScalarText.{scalar_text};

use crate::scalar::ScalarValue;
use std::fmt;
use std::marker::Model;

/// A scalar, lent, that displays as a message names it: an integer in decimal, a boolean as `true`
/// or `false`, a text between quotes. Contracts see the scalar alone, wherever it stands.
#[derive(Debug, Drop)]
pub struct Scalar<'a, S> {
    held: &'a S,
}

impl<'a, S> Model for Scalar<'a, S> {
    ghost Value = { S };

    ghost view = { λ lent. lent.held.now };
}

impl<'a, S> Scalar<'a, S> {
    /// The scalar itself.
    pub fn get(&self) -> &'a S
        ensures { result.now ≡ self.now }
    {
        self.held
    }
}

/// Borrows the scalar.
impl<'a, S> From<&'a S> for Scalar<'a, S> {
    ghost from_gives = { λ scalar lent. lent ≡ scalar.now };

    fn from(scalar: &'a S) -> Scalar<'a, S> {
        Scalar { held: scalar }
    }
}

/// Writes an integer in decimal, a boolean as `true` or `false`, and a text between quotes, with
/// nothing escaped (GraphQL October 2021, 2.9.1 Int Value, 2.9.3 Boolean Value, 2.9.4 String
/// Value).
impl<'a, S: ScalarValue> fmt::Display for Scalar<'a, S> {
    ghost output = { λ scalar. Some (scalar_text (S.answer scalar)) };

    fn fmt<W: fmt::Write>(&self, f: &mut fmt::Formatter<W>) -> fmt::Result {
        if let Some(value) = self.held.try_to_int() {
            return write!(f, "{value}");
        }
        if let Some(value) = self.held.try_to_bool() {
            return write!(f, "{value}");
        }
        match self.held.try_as_str() {
            Some(text) => write!(f, "\"{text}\""),
            None => unreachable!(),
        }
    }
}
