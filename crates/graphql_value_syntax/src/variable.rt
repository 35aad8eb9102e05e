//! The variables of an operation (GraphQL October 2021, 2.10 Variables).

ghost use Rattle.std.specs.Prelude.{◌≡◌, ◌≤◌};
ghost use Rattle.graphql_grammar.specs.declared.kind.Kind.TheVariants as k;
ghost use Rattle.graphql_grammar.specs.Kinds.{only};
ghost use Rattle.graphql_grammar.specs.Input.{Reads, left};
ghost use Rattle.graphql_grammar.specs.Steps.{optional, some_between};
ghost use Rattle.graphql_value_syntax.specs.ReadDirectives as spec;

use crate::directive::directives;
use crate::type_reference::type_reference;
use crate::value::value;
use graphql_grammar::{Cursor, Fault, Kind, keep};
use graphql_text::{Items, Spanning, TextRef};
use graphql_tree::{VariableDefinition, VariableDefinitions};
use graphql_values::{InputValue, ScalarValue};
use std::alloc::Global;

/// The name of a variable, placed with its `$`.
fn variable_name<'a>(alloc: Global, cursor: &mut Cursor<'a>) -> Result<Spanning<TextRef<'a>>, Fault>
    ensures reads { Reads (spec.variable_name cursor.old) result cursor.new }
    ensures no_more { left cursor.new ≤ left cursor.old }
{
    let start = cursor.start();
    cursor.expect(alloc, Kind::Dollar)?;
    let name = cursor.name(alloc)?;
    Ok(cursor.closed(start, name))
}

/// The default value of a variable, behind `=`; none where there is none.
fn default_value<S: ScalarValue>(
    alloc: Global,
    cursor: &mut Cursor<'_>,
) -> Result<Option<Spanning<InputValue<S>>>, Fault>
    ensures reads { Reads
        (optional (only k.Equals) (spec.default_value S.reads S.of_bool) cursor.old) result
        cursor.new }
    ensures no_more { left cursor.new ≤ left cursor.old }
{
    if cursor.kind() != Kind::Equals {
        return Ok(None);
    }
    cursor.expect(alloc, Kind::Equals)?;
    let default_value = value(alloc, cursor, true)?;
    Ok(Some(default_value))
}

/// The name of a variable, and what is said of it.
#[tactic(auto, unfolding(crate::specs::ReadDirectives::variable_definition))]
fn variable_definition<'a, S: ScalarValue>(
    alloc: Global,
    cursor: &mut Cursor<'a>,
) -> Result<(Spanning<TextRef<'a>>, VariableDefinition<'a, S>), Fault>
    ensures reads { Reads (spec.variable_definition S.reads S.of_bool cursor.old) result
        cursor.new }
    ensures no_more { left cursor.new ≤ left cursor.old }
{
    let name = variable_name(alloc, cursor)?;
    cursor.expect(alloc, Kind::Colon)?;
    let var_type = type_reference(alloc, cursor)?;
    let default_value = default_value(alloc, cursor)?;
    let directives = directives(alloc, cursor, true)?;
    let definition = VariableDefinition {
        var_type,
        default_value,
        directives,
    };
    Ok((name, definition))
}

/// Variables in parentheses, one at least.
fn definition_list<'a, S: ScalarValue>(
    alloc: Global,
    cursor: &mut Cursor<'a>,
) -> Result<Items<(Spanning<TextRef<'a>>, VariableDefinition<'a, S>)>, Fault>
    ensures reads { Reads (some_between k.ParenOpen k.ParenClose
        (spec.variable_definition S.reads S.of_bool) cursor.old) result cursor.new }
    ensures no_more { left cursor.new ≤ left cursor.old }
{
    cursor.expect(alloc, Kind::ParenOpen)?;
    let mut found = Items::new(alloc);
    keep(&mut found, variable_definition(alloc, cursor)?)?;
    'definitions: for _turn in 0..cursor.left() {
        if cursor.eat(Kind::ParenClose) {
            return Ok(found);
        }
        keep(&mut found, variable_definition(alloc, cursor)?)?;
    }
    Err(cursor.refuse(alloc))
}

/// The variables of an operation, where a parenthesis opens; none where there are none.
///
/// An error is the first token that can't stand where it does, or `ParseError::Memory`, which tells
/// nothing of the text.
pub fn variable_definitions<'a, S: ScalarValue>(
    alloc: Global,
    cursor: &mut Cursor<'a>,
) -> Result<Option<Spanning<VariableDefinitions<'a, S>>>, Fault>
    ensures reads { Reads
        (optional (only k.ParenOpen) (spec.variable_definitions S.reads S.of_bool) cursor.old)
        result cursor.new }
    ensures no_more { left cursor.new ≤ left cursor.old }
{
    if cursor.kind() != Kind::ParenOpen {
        return Ok(None);
    }
    let start = cursor.start();
    let items = definition_list(alloc, cursor)?;
    Ok(Some(cursor.closed(start, VariableDefinitions { items })))
}
