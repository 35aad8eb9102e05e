//! What is printed of an operation.

ghost use Rattle.std.specs.Prelude.{◌≡◌};
ghost use Rattle.graphql_names.specs.Names.{is_one_of};

use crate::variables::is_used;
use graphql_text::TextRef;
use std::collections::HashSet;

/// The plain text of an operation, and the variables that it still uses.
#[derive(Drop)]
pub struct Printed<'d> {
    /// The plain text.
    pub text: String,

    /// The names of the variables that its fields use: those that are still defined.
    pub used: HashSet<TextRef<'d>>,
}

impl Printed<'_> {
    /// Whether the plain text uses the variable of this name.
    pub fn uses(&self, name: &str) -> bool
        ensures { result ≡ is_one_of self.now.used.keys name.now }
    {
        is_used(&self.used, name)
    }
}
