//! What refers to a type by its name.

ghost use Rattle.std.specs.Prelude.{◌≡◌, ℕ, List};
ghost use Rattle.graphql_schema.specs.Lookups.{field_type_name, argument_type_name};

use crate::{Argument, Field};
use graphql_text::Text;

/// What refers to a type.
pub(super) trait Reference {
    /// The bytes of the name of the type.
    ghost reference_of: { Self → List ℕ };

    /// The name of the type.
    fn reference(&self) -> &str
        ensures { result.now ≡ reference_of self.now };
}

impl<S> Reference for Field<S> {
    ghost reference_of = { field_type_name };

    fn reference(&self) -> &str {
        self.field_type.name.as_str()
    }
}

impl<S> Reference for Argument<S> {
    ghost reference_of = { argument_type_name };

    fn reference(&self) -> &str {
        self.arg_type.name.as_str()
    }
}

impl Reference for Text {
    ghost reference_of = { λ text. text };

    fn reference(&self) -> &str {
        self.as_str()
    }
}
