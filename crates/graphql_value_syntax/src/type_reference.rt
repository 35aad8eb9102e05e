//! Type references (GraphQL October 2021, 2.11 Type References).

ghost use Rattle.std.specs.Prelude.{◌≡◌, ◌≤◌, ℕ, List, Ok, IfErr, OnOk};
ghost use Rattle.graphql_text.specs.declared.parse_error.ParseError.TheVariants.{Memory};
ghost use Rattle.graphql_grammar.specs.Input.{Reads, StandsAt, left};
ghost use Rattle.graphql_grammar.specs.Leaves.{Behind};
ghost use Rattle.graphql_value_syntax.specs.ReadTypes as spec;
ghost use Rattle.graphql_value_syntax.specs.ReadWraps as wraps;

use graphql_grammar::{Cursor, Fault, Kind, keep};
use graphql_text::{Items, Spanning, TextRef};
use graphql_values::{Type, TypeModifier, TypeModifiers};
use std::alloc::Global;

/// Reads a type reference, with its place. Takes as little stack for a list of lists as for a name.
///
/// An error is the fault of the first token that can't stand where it does, or `ParseError::Memory`
/// where memory ran out.
pub fn type_reference<'a>(
    alloc: Global,
    cursor: &mut Cursor<'a>,
) -> Result<Spanning<Type<TextRef<'a>>>, Fault>
    ensures reads { Reads (spec.type_ref cursor.old) result cursor.new }
    ensures no_more { left cursor.new ≤ left cursor.old }
    ensures behind { Behind cursor.old cursor.new }
    ensures stands { StandsAt result cursor.new }
{
    let start = cursor.start();
    let depth = brackets(cursor);
    let name = cursor.name(alloc)?;
    let item = wrapped(alloc, cursor, depth, name)?;
    Ok(cursor.closed(start, item))
}

/// Goes behind the opening brackets that stand next, and tells how many they are.
fn brackets(cursor: &mut Cursor<'_>) -> usize
    ensures inside { spec.bare_type spec.type_ref cursor.old ≡ wraps.inside result cursor.new }
    ensures behind { Behind cursor.old cursor.new }
    ensures no_more { left cursor.new ≤ left cursor.old }
{
    let most = cursor.left();
    for depth in 0..most {
        if !cursor.eat(Kind::BracketOpen) {
            return depth;
        }
    }
    most
}

/// Reads what wraps a name that stands behind as many opening brackets, the innermost first.
fn wrapped<'a>(
    alloc: Global,
    cursor: &mut Cursor<'a>,
    depth: usize,
    name: TextRef<'a>,
) -> Result<Type<TextRef<'a>>, Fault>
    ensures reads { Reads (wraps.behind depth name.entry cursor.old) result cursor.new }
    ensures no_more { left cursor.new ≤ left cursor.old }
    ensures behind { Behind cursor.old cursor.new }
    ensures stands { StandsAt result cursor.new }
{
    let mut modifiers = Items::new(alloc);
    non_null(cursor, &mut modifiers)?;
    for _level in 0..depth {
        cursor.expect(alloc, Kind::BracketClose)?;
        keep(&mut modifiers, TypeModifier::List(None))?;
        non_null(cursor, &mut modifiers)?;
    }
    Ok(Type { name, modifiers })
}

/// Reads a `!`, if it stands next, and notes it. An error is want of memory.
fn non_null(cursor: &mut Cursor<'_>, found: &mut TypeModifiers) -> Result<(), Fault>
    ensures ok { OnOk result ((name : List ℕ)
        → wraps.marked (wraps.of name found.old) cursor.old
        ≡ Ok (wraps.of name found.new, cursor.new)) }
    ensures memory { IfErr result (λ e. e.item ≡ Memory) }
    ensures behind { Behind cursor.old cursor.new }
    ensures no_more { left cursor.new ≤ left cursor.old }
{
    if !cursor.eat(Kind::ExclamationMark) {
        return Ok(());
    }
    keep(found, TypeModifier::NonNull)?;
    Ok(())
}
