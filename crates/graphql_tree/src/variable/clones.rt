//! Clones of what an operation says of its variables.

ghost use Rattle.std.specs.Prelude.{◌≡◌};

use super::{VariableDefinition, VariableDefinitions};
use crate::directive::copy_of_directives;
use graphql_values::ScalarValue;
use std::alloc::AllocError;

impl<'a, S: ScalarValue + Drop> Clone for VariableDefinition<'a, S> {
    ghost is_clone = { λ definition copy. copy ≡ definition };

    /// The same once more. Takes stack for each level that a value nests. An error is want of
    /// memory.
    fn clone(&self) -> Result<VariableDefinition<'a, S>, AllocError> {
        let var_type = self.var_type.clone()?;
        let default_value = self.default_value.clone()?;
        let directives = copy_of_directives(&self.directives)?;
        Ok(VariableDefinition {
            var_type,
            default_value,
            directives,
        })
    }
}

impl<'a, S: ScalarValue + Drop> Clone for VariableDefinitions<'a, S> {
    ghost is_clone = { λ definitions copy. copy ≡ definitions };

    /// The same variables once more. Takes stack for each level that a value nests. An error is
    /// want of memory.
    fn clone(&self) -> Result<VariableDefinitions<'a, S>, AllocError> {
        let items = self.items.clone()?;
        Ok(VariableDefinitions { items })
    }
}
