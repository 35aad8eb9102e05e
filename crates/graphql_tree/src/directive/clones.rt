//! Clones of directives and of arguments.

ghost use Rattle.std.specs.Prelude.{◌≡◌};
ghost use Rattle.graphql_text.specs.Memory.{Gives};

use super::{Arguments, Directive};
use graphql_text::{Items, Spanning};
use graphql_values::ScalarValue;
use std::alloc::AllocError;

impl<'a, S: ScalarValue + Drop> Clone for Arguments<'a, S> {
    ghost is_clone = { λ arguments copy. copy ≡ arguments };

    /// The same arguments once more. Takes stack for each level that a value nests. An error is
    /// want of memory.
    fn clone(&self) -> Result<Arguments<'a, S>, AllocError> {
        let items = self.items.clone()?;
        Ok(Arguments { items })
    }
}

impl<'a, S: ScalarValue + Drop> Clone for Directive<'a, S> {
    ghost is_clone = { λ directive copy. copy ≡ directive };

    /// The same directive once more. Takes stack for each level that a value nests. An error is
    /// want of memory.
    fn clone(&self) -> Result<Directive<'a, S>, AllocError> {
        let name = self.name.clone()?;
        let arguments = self.arguments.clone()?;
        Ok(Directive { name, arguments })
    }
}

/// The same directives once more.
pub(crate) fn copy_of_directives<'a, S: ScalarValue + Drop>(
    directives: &Option<Items<Spanning<Directive<'a, S>>>>,
) -> Result<Option<Items<Spanning<Directive<'a, S>>>>, AllocError>
    ensures { Gives result directives.now }
{
    match directives {
        Some(directives) => Ok(Some(directives.clone()?)),
        None => Ok(None),
    }
}
