//! Final values that are found by the names of variables.

ghost use Rattle.std.specs.Prelude.{◌≡◌, IfOk};
ghost use Rattle.std.specs.HashMap.{get_by_text};
ghost use Rattle.std.specs.Option.{option_copied};
ghost use Rattle.graphql_tree.specs.Documents.{variables_in};
ghost use Rattle.graphql_written_out.specs.FinalValues.{default_named, final_value};
ghost use Rattle.graphql_written_out.specs.FinalVariables.{value_in};

use super::FinalVariables;
use crate::definitions::{Variable, definitions_of};
use graphql_rule_errors::first_mention;
use graphql_tree::Operation;
use graphql_values::{InputValue, Variables};
use std::alloc::{AllocError, Global};
use std::collections::HashMap;

impl<'a, S> FinalVariables<'a, S> {
    /// The final values of the variables of this operation in a request that gives these values.
    /// Takes time and memory in proportion to the definitions. An error is want of memory.
    pub fn new<'t>(
        alloc: Global,
        variables: &'a Variables<S>,
        operation: &'a Operation<'t, S>,
    ) -> Result<FinalVariables<'a, S>, AllocError>
        ensures { IfOk result (λ values. value_in values
            ≡ final_value (get_by_text variables.now)
            (variables_in operation.now.variable_definitions)) }
    {
        let definitions = definitions_of(operation);
        let mut first: HashMap<&'a str, &'a Variable<'a, S>> = HashMap::new(alloc);
        'definitions: for variable in definitions {
            first_mention(&mut first, variable)?;
        }
        Ok(FinalVariables {
            variables,
            definitions,
            first,
        })
    }

    /// The final value of the variable of this name, which is given without the `$`: what the
    /// request gives, else the default; `None` where there is neither. Takes no memory, and no more
    /// time than it takes to find a name in two maps.
    pub fn get(&self, name: &str) -> Option<&'a InputValue<S>>
        ensures { option_copied result ≡ value_in self.now name.now }
    {
        match self.variables.get(name) {
            Some(value) => Some(value),
            None => self.default_named(name),
        }
    }

    /// The default of the variable of this name.
    fn default_named(&self, name: &str) -> Option<&'a InputValue<S>>
        ensures { option_copied result ≡ default_named self.now.definitions.now name.now }
    {
        let variable = self.first.get(name)?;
        match &variable.1.default_value {
            Some(default) => Some(&default.item),
            None => None,
        }
    }
}
