//! Arguments and directives (GraphQL October 2021, 2.6 Arguments, 2.12 Directives).

ghost use Rattle.std.specs.Prelude.{◌≡◌, ◌≤◌, ◌<◌, [], ◌∷◌, ◌++◌, OnOk, OnErr};
ghost use Rattle.graphql_grammar.specs.declared.kind.Kind.TheVariants as k;
ghost use Rattle.graphql_grammar.specs.Kinds.{only};
ghost use Rattle.graphql_grammar.specs.Input.{Reads, left};
ghost use Rattle.graphql_grammar.specs.Steps as steps;
ghost use Rattle.graphql_grammar.specs.Steps.{located, optional, some_between};
ghost use Rattle.graphql_value_syntax.specs.ReadValues as values;
ghost use Rattle.graphql_value_syntax.specs.ReadDirectives as spec;

use crate::value::named;
use graphql_grammar::{Cursor, Fault, Kind, keep};
use graphql_text::{Items, Spanning, TextRef};
use graphql_tree::{Arguments, Directive};
use graphql_values::{InputValue, ScalarValue};
use std::alloc::Global;

/// A name, at its place.
pub fn located_name<'a>(
    alloc: Global,
    cursor: &mut Cursor<'a>,
) -> Result<Spanning<TextRef<'a>>, Fault>
    ensures reads { Reads (located steps.name cursor.old) result cursor.new }
    ensures no_more { left cursor.new ≤ left cursor.old }
    ensures fewer { OnOk result (left cursor.new < left cursor.old) }
{
    let start = cursor.start();
    let name = cursor.name(alloc)?;
    Ok(cursor.closed(start, name))
}

/// Arguments in parentheses, one at least.
fn argument_list<'a, S: ScalarValue>(
    alloc: Global,
    cursor: &mut Cursor<'a>,
    is_const: bool,
) -> Result<Items<(Spanning<TextRef<'a>>, Spanning<InputValue<S>>)>, Fault>
    ensures reads { Reads (some_between k.ParenOpen k.ParenClose
        (values.name_and (values.value S.reads S.of_bool is_const)) cursor.old) result cursor.new }
    ensures no_more { left cursor.new ≤ left cursor.old }
{
    cursor.expect(alloc, Kind::ParenOpen)?;
    let mut found = Items::new(alloc);
    keep(&mut found, named(alloc, cursor, is_const)?)?;
    'arguments: for _turn in 0..cursor.left() {
        if cursor.eat(Kind::ParenClose) {
            return Ok(found);
        }
        keep(&mut found, named(alloc, cursor, is_const)?)?;
    }
    Err(cursor.refuse(alloc))
}

/// Arguments, where a parenthesis opens; none where there are none. In constants no variable
/// stands.
///
/// An error is the first token that can't stand where it does, or `ParseError::Memory`, which tells
/// nothing of the text.
#[tactic(auto, unfolding(crate::specs::ReadDirectives::arguments))]
pub fn arguments<'a, S: ScalarValue>(
    alloc: Global,
    cursor: &mut Cursor<'a>,
    is_const: bool,
) -> Result<Option<Spanning<Arguments<'a, S>>>, Fault>
    ensures reads { Reads
        (optional (only k.ParenOpen) (spec.arguments S.reads S.of_bool is_const) cursor.old) result
        cursor.new }
    ensures no_more { left cursor.new ≤ left cursor.old }
{
    if cursor.kind() != Kind::ParenOpen {
        return Ok(None);
    }
    let start = cursor.start();
    let items = argument_list(alloc, cursor, is_const)?;
    Ok(Some(cursor.closed(start, Arguments { items })))
}

/// A directive, from its `@`.
#[tactic(auto, unfolding(crate::specs::ReadDirectives::directive))]
fn directive<'a, S: ScalarValue>(
    alloc: Global,
    cursor: &mut Cursor<'a>,
    is_const: bool,
) -> Result<Spanning<Directive<'a, S>>, Fault>
    ensures reads { Reads (spec.directive S.reads S.of_bool is_const cursor.old) result cursor.new }
    ensures no_more { left cursor.new ≤ left cursor.old }
    ensures fewer { OnOk result (left cursor.new < left cursor.old) }
{
    let start = cursor.start();
    cursor.expect(alloc, Kind::At)?;
    let name = located_name(alloc, cursor)?;
    let arguments = arguments(alloc, cursor, is_const)?;
    Ok(cursor.closed(start, Directive { name, arguments }))
}

/// All directives that stand next; none where there are none. In constants no variable stands.
///
/// An error is the first token that can't stand where it does, or `ParseError::Memory`, which tells
/// nothing of the text.
#[tactic(auto, unfolding(crate::specs::ReadDirectives::directives))]
pub fn directives<'a, S: ScalarValue>(
    alloc: Global,
    cursor: &mut Cursor<'a>,
    is_const: bool,
) -> Result<Option<Items<Spanning<Directive<'a, S>>>>, Fault>
    ensures reads { Reads (spec.directives S.reads S.of_bool is_const cursor.old) result
        cursor.new }
    ensures no_more { left cursor.new ≤ left cursor.old }
{
    let mut found = Items::new(alloc);
    'directives: while cursor.kind() == Kind::At {
        keep(&mut found, directive(alloc, cursor, is_const)?)?;
    }
    if found.is_empty() {
        return Ok(None);
    }
    Ok(Some(found))
}
