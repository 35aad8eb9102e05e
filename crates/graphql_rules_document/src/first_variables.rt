//! The variables of an operation by their names.

ghost use Rattle.std.specs.Prelude.{◌≡◌, IfOk, map};
ghost use Rattle.graphql_names.specs.Names.{Bytes, named};
ghost use Rattle.graphql_occurrences.specs.Occurrences.{variable_part};
ghost use Rattle.graphql_rules_document.specs.FirstVariables.{variable_at};

use graphql_rule_errors::first_mention;
use graphql_text::{Spanning, TextRef};
use graphql_tree::VariableDefinition;
use std::alloc::{AllocError, Global};
use std::collections::HashMap;

/// A variable's name, and what is said of it.
pub(crate) type Variable<'t, S> = (Spanning<TextRef<'t>>, VariableDefinition<'t, S>);

/// These variables by their names, of several of one name the first. An error is want of memory.
pub(crate) fn first_variables<'b, 't, S>(
    alloc: Global,
    defined: &'b [Variable<'t, S>],
) -> Result<HashMap<&'b str, &'b Variable<'t, S>>, AllocError>
    ensures { IfOk result (λ first. (name : Bytes)
        → variable_at first name ≡ named (λ v. v.name.item) (map variable_part defined.now) name) }
{
    let mut first: HashMap<&str, &Variable<'t, S>> = HashMap::new(alloc);
    'defined: for variable in defined {
        first_mention(&mut first, variable)?;
    }
    Ok(first)
}
