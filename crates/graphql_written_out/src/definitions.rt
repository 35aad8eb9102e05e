//! The definitions of an operation's variables.

ghost use Rattle.std.specs.Prelude.{◌≡◌};
ghost use Rattle.graphql_tree.specs.Documents.{variables_in};

use graphql_text::{Spanning, TextRef};
use graphql_tree::{Operation, VariableDefinition};

/// A variable's name, and what is said of it.
pub type Variable<'t, S> = (Spanning<TextRef<'t>>, VariableDefinition<'t, S>);

/// The variables that the operation defines, in the order of the text.
pub fn definitions_of<'a, 't, S>(operation: &'a Operation<'t, S>) -> &'a [Variable<'t, S>]
    ensures { result.now ≡ variables_in operation.now.variable_definitions }
{
    match &operation.variable_definitions {
        Some(definitions) => definitions.item.items.as_slice(),
        None => &[],
    }
}
