//! Clones of definitions.

ghost use Rattle.std.specs.Prelude.{◌≡◌};

use super::{Definition, Fragment, Operation};
use crate::directive::copy_of_directives;
use graphql_values::ScalarValue;
use std::alloc::AllocError;

impl<'a, S: ScalarValue + Drop> Clone for Operation<'a, S> {
    ghost is_clone = { λ operation copy. copy ≡ operation };

    /// The same operation once more. Takes stack for each level that selection sets and values
    /// nest. An error is want of memory.
    fn clone(&self) -> Result<Operation<'a, S>, AllocError> {
        let operation_type = self.operation_type;
        let name = self.name.clone()?;
        let variable_definitions = self.variable_definitions.clone()?;
        let directives = copy_of_directives(&self.directives)?;
        let selection_set = self.selection_set.clone()?;
        Ok(Operation {
            operation_type,
            name,
            variable_definitions,
            directives,
            selection_set,
        })
    }
}

impl<'a, S: ScalarValue + Drop> Clone for Fragment<'a, S> {
    ghost is_clone = { λ fragment copy. copy ≡ fragment };

    /// The same fragment once more. Takes stack for each level that selection sets and values nest.
    /// An error is want of memory.
    fn clone(&self) -> Result<Fragment<'a, S>, AllocError> {
        let name = self.name.clone()?;
        let type_condition = self.type_condition.clone()?;
        let directives = copy_of_directives(&self.directives)?;
        let selection_set = self.selection_set.clone()?;
        Ok(Fragment {
            name,
            type_condition,
            directives,
            selection_set,
        })
    }
}

impl<'a, S: ScalarValue + Drop> Clone for Definition<'a, S> {
    ghost is_clone = { λ definition copy. copy ≡ definition };

    /// The same definition once more. Takes stack for each level that selection sets and values
    /// nest. An error is want of memory.
    fn clone(&self) -> Result<Definition<'a, S>, AllocError> {
        match self {
            Definition::Operation(operation) => Ok(Definition::Operation(operation.clone()?)),
            Definition::Fragment(fragment) => Ok(Definition::Fragment(fragment.clone()?)),
        }
    }
}
