//! Selections (GraphQL October 2021, 2.4 Selection Sets, 2.5 Fields, 2.8 Fragments).
//!
//! Selection sets nest as deep as a text has tokens, so a loop reads them: what is open is kept in
//! a list, and not on the stack.

ghost use Rattle.std.specs.Prelude.{◌≡◌, ◌≤◌, ◌<◌, IfOk, IfErr, OnOk, OnErr, ◌++◌, ◌∷◌, []};
ghost use Rattle.graphql_grammar.specs.declared.kind.Kind.TheVariants as k;
ghost use Rattle.graphql_grammar.specs.Kinds.{only, fragment_names};
ghost use Rattle.graphql_grammar.specs.Input.{Reads, left};
ghost use Rattle.graphql_grammar.specs.Input as input;
ghost use Rattle.graphql_grammar.specs.Steps as steps;
ghost use Rattle.graphql_language.specs.ReadSelections as spec;
ghost use Rattle.graphql_language.specs.ReadHeads as heads;
ghost use Rattle.graphql_language.specs.ReadHeads.{selection_with};

use graphql_grammar::{Cursor, Fault, Kind, keep};
use graphql_text::{Items, SourcePosition, Spanning, TextRef};
use graphql_tree::{Arguments, Directive, Field, FragmentSpread, InlineFragment, Selection};
use graphql_value_syntax::directive::{arguments, directives, located_name};
use graphql_values::ScalarValue;
use std::alloc::{AllocError, Global};
use std::mem;

/// A selection set has room for so many selections to begin with.
const ROOM: usize = 2;

/// What stands of a field before its selection set.
#[derive(Drop)]
struct FieldHead<'a, S> {
    start: SourcePosition,
    alias: Option<Spanning<TextRef<'a>>>,
    name: Spanning<TextRef<'a>>,
    arguments: Option<Spanning<Arguments<'a, S>>>,
    directives: Option<Items<Spanning<Directive<'a, S>>>>,
}

/// What stands of an inline fragment before its selection set.
#[derive(Drop)]
struct InlineHead<'a, S> {
    start: SourcePosition,
    type_condition: Option<Spanning<TextRef<'a>>>,
    directives: Option<Items<Spanning<Directive<'a, S>>>>,
}

/// What stands of a selection before its selection set, which must follow.
#[derive(Drop)]
enum Head<'a, S> {
    Field(FieldHead<'a, S>),
    InlineFragment(InlineHead<'a, S>),
}

/// How a selection begins.
#[derive(Drop)]
enum Begun<'a, S> {
    /// All of a selection that has no selection set.
    Whole(Selection<'a, S>),
    /// What stands before a selection set.
    Opens(Head<'a, S>),
}

/// A selection set that is open: what stands before it, and the selections that were read of the
/// set around it.
#[derive(Drop)]
struct Open<'a, S> {
    head: Head<'a, S>,
    around: Items<Selection<'a, S>>,
}

/// Reads a selection set (2.4 Selection Sets).
///
/// An error is the fault of the first token that can't stand where it does, or what the scalar type
/// says of a literal that it refuses, or `ParseError::Memory` where memory ran out.
pub(crate) fn selection_set<'a, S: ScalarValue>(
    alloc: Global,
    cursor: &mut Cursor<'a>,
) -> Result<Items<Selection<'a, S>>, Fault>
    ensures reads { Reads
        (spec.selection_set S.reads S.of_bool (spec.selection S.reads S.of_bool) cursor.old) result
        cursor.new }
    ensures no_more { left cursor.new ≤ left cursor.old }
    ensures fewer { OnOk result (left cursor.new < left cursor.old) }
{
    cursor.expect(alloc, Kind::CurlyOpen)?;
    // the sets that are open around the one that is read, the innermost last
    let mut outer = Items::with_capacity(alloc, 1)?;
    let mut found = Items::with_capacity(alloc, ROOM)?;
    'selections: loop {
        if cursor.kind() == Kind::CurlyClose && !found.is_empty() {
            cursor.advance();
            match outer.pop() {
                Some(last) => close_set(last, &mut found, cursor.end())?,
                None => return Ok(found),
            }
        } else {
            match begin(alloc, cursor)? {
                Begun::Whole(selection) => keep(&mut found, selection)?,
                Begun::Opens(head) => open_set(alloc, cursor, &mut outer, &mut found, head)?,
            }
        }
    }
}

/// Opens the selection set that must stand behind this head. What was found goes to the set around
/// it.
fn open_set<'a, S: ScalarValue>(
    alloc: Global,
    cursor: &mut Cursor<'a>,
    outer: &mut Items<Open<'a, S>>,
    found: &mut Items<Selection<'a, S>>,
    head: Head<'a, S>,
) -> Result<(), Fault>
    ensures reads { Reads (steps.expect k.CurlyOpen cursor.old) result cursor.new }
    ensures no_more { left cursor.new ≤ left cursor.old }
    ensures fewer { OnOk result (left cursor.new < left cursor.old) }
    ensures opened { OnOk result
        (outer.new ≡ outer.old ++ record { head = head.entry; around = found.old } ∷ []) }
    ensures empty { OnOk result (found.new ≡ []) }
{
    let around = mem::replace(found, Items::with_capacity(alloc, ROOM)?);
    keep(outer, Open { head, around })?;
    cursor.expect(alloc, Kind::CurlyOpen)
}

/// Ends an open set, of which these selections were found, and which ends there: what is found then
/// are the selections of the set around it, its own selection the last.
fn close_set<'a, S: ScalarValue>(
    last: Open<'a, S>,
    found: &mut Items<Selection<'a, S>>,
    end: SourcePosition,
) -> Result<(), AllocError>
    ensures { OnOk result
        (found.new ≡ last.entry.around ++ selection_with last.entry.head found.old end ∷ []) }
{
    let Open { head, around } = last;
    let set = mem::replace(found, around);
    match head {
        Head::Field(head) => keep(found, field(head, Some(set), end)),
        Head::InlineFragment(head) => keep(found, inline_fragment(head, set, end)),
    }
}

/// Reads a selection as far as its selection set.
fn begin<'a, S: ScalarValue>(alloc: Global, cursor: &mut Cursor<'a>) -> Result<Begun<'a, S>, Fault>
    ensures reads { Reads (heads.selection_start S.reads S.of_bool cursor.old) result cursor.new }
    ensures no_more { left cursor.new ≤ left cursor.old }
    ensures fewer { OnOk result (left cursor.new < left cursor.old) }
{
    if cursor.kind() == Kind::Ellipsis {
        begin_spread(alloc, cursor)
    } else {
        begin_field(alloc, cursor)
    }
}

fn field<'a, S>(
    head: FieldHead<'a, S>,
    set: Option<Items<Selection<'a, S>>>,
    end: SourcePosition,
) -> Selection<'a, S>
    ensures { result ≡ heads.field_with head.entry set.entry end }
{
    let item = Field {
        alias: head.alias,
        name: head.name,
        arguments: head.arguments,
        directives: head.directives,
        selection_set: set,
    };
    Selection::Field(Spanning::start_end(head.start, end, item))
}

fn inline_fragment<'a, S>(
    head: InlineHead<'a, S>,
    set: Items<Selection<'a, S>>,
    end: SourcePosition,
) -> Selection<'a, S>
    ensures { result ≡ heads.inline_with head.entry set.entry end }
{
    let item = InlineFragment {
        type_condition: head.type_condition,
        directives: head.directives,
        selection_set: set,
    };
    Selection::InlineFragment(Spanning::start_end(head.start, end, item))
}

/// Reads a field as far as its selection set.
fn begin_field<'a, S: ScalarValue>(
    alloc: Global,
    cursor: &mut Cursor<'a>,
) -> Result<Begun<'a, S>, Fault>
    ensures reads { Reads (heads.field_begun S.reads S.of_bool cursor.old) result cursor.new }
    ensures no_more { left cursor.new ≤ left cursor.old }
    ensures fewer { OnOk result (left cursor.new < left cursor.old) }
{
    let head = field_head(alloc, cursor)?;
    if cursor.kind() == Kind::CurlyOpen {
        Ok(Begun::Opens(Head::Field(head)))
    } else {
        Ok(Begun::Whole(field(head, None, cursor.end())))
    }
}

/// Reads a fragment's spread, or an inline fragment as far as its selection set.
fn begin_spread<'a, S: ScalarValue>(
    alloc: Global,
    cursor: &mut Cursor<'a>,
) -> Result<Begun<'a, S>, Fault>
    ensures reads { Reads
        (heads.spread_begun S.reads S.of_bool (input.peek cursor.old).span.start cursor.old) result
        cursor.new }
    ensures no_more { left cursor.new ≤ left cursor.old }
    ensures fewer { OnOk result (left cursor.new < left cursor.old) }
{
    let start = cursor.start();
    cursor.expect(alloc, Kind::Ellipsis)?;
    if cursor.kind().is_fragment_name() {
        let spread = fragment_spread(alloc, cursor)?;
        Ok(Begun::Whole(Selection::FragmentSpread(cursor.closed(start, spread))))
    } else {
        let head = inline_head(alloc, cursor, start)?;
        Ok(Begun::Opens(Head::InlineFragment(head)))
    }
}

/// Reads a field (2.5 Fields) as far as its selection set.
fn field_head<'a, S: ScalarValue>(
    alloc: Global,
    cursor: &mut Cursor<'a>,
) -> Result<FieldHead<'a, S>, Fault>
    ensures reads { Reads (heads.field_head S.reads S.of_bool cursor.old) result cursor.new }
    ensures no_more { left cursor.new ≤ left cursor.old }
    ensures fewer { OnOk result (left cursor.new < left cursor.old) }
{
    let start = cursor.start();
    let (alias, name) = field_names(alloc, cursor)?;
    let arguments = arguments(alloc, cursor, false)?;
    let directives = directives(alloc, cursor, false)?;
    Ok(FieldHead {
        start,
        alias,
        name,
        arguments,
        directives,
    })
}

/// Reads what stands behind the three points of a fragment's spread (2.8 Fragments).
fn fragment_spread<'a, S: ScalarValue>(
    alloc: Global,
    cursor: &mut Cursor<'a>,
) -> Result<FragmentSpread<'a, S>, Fault>
    ensures reads { Reads (heads.spread_parts S.reads S.of_bool cursor.old) result cursor.new }
    ensures no_more { left cursor.new ≤ left cursor.old }
{
    let name = fragment_name(alloc, cursor)?;
    let directives = directives(alloc, cursor, false)?;
    Ok(FragmentSpread { name, directives })
}

/// Reads an inline fragment (2.8.2 Inline Fragments) from behind its three points, where it
/// starts, as far as its selection set.
fn inline_head<'a, S: ScalarValue>(
    alloc: Global,
    cursor: &mut Cursor<'a>,
    start: SourcePosition,
) -> Result<InlineHead<'a, S>, Fault>
    ensures reads { Reads (heads.inline_head S.reads S.of_bool start cursor.old) result cursor.new }
    ensures no_more { left cursor.new ≤ left cursor.old }
{
    let type_condition = optional_type_condition(alloc, cursor)?;
    let directives = directives(alloc, cursor, false)?;
    Ok(InlineHead {
        start,
        type_condition,
        directives,
    })
}

fn optional_type_condition<'a>(
    alloc: Global,
    cursor: &mut Cursor<'a>,
) -> Result<Option<Spanning<TextRef<'a>>>, Fault>
    ensures reads { Reads (steps.optional (only k.On) spec.type_condition cursor.old) result
        cursor.new }
    ensures no_more { left cursor.new ≤ left cursor.old }
{
    if cursor.kind() == Kind::On {
        let name = type_condition(alloc, cursor)?;
        Ok(Some(name))
    } else {
        Ok(None)
    }
}

/// Reads the type to which a fragment applies (2.8.1 Type Conditions).
pub(crate) fn type_condition<'a>(
    alloc: Global,
    cursor: &mut Cursor<'a>,
) -> Result<Spanning<TextRef<'a>>, Fault>
    ensures reads { Reads (spec.type_condition cursor.old) result cursor.new }
    ensures no_more { left cursor.new ≤ left cursor.old }
{
    cursor.expect(alloc, Kind::On)?;
    located_name(alloc, cursor)
}

/// Reads a field's alias, if it has one, and its name (2.7 Field Alias).
fn field_names<'a>(
    alloc: Global,
    cursor: &mut Cursor<'a>,
) -> Result<(Option<Spanning<TextRef<'a>>>, Spanning<TextRef<'a>>), Fault>
    ensures reads { Reads (spec.field_names cursor.old) result cursor.new }
    ensures no_more { left cursor.new ≤ left cursor.old }
    ensures fewer { OnOk result (left cursor.new < left cursor.old) }
{
    let first = located_name(alloc, cursor)?;
    if cursor.eat(Kind::Colon) {
        let name = located_name(alloc, cursor)?;
        Ok((Some(first), name))
    } else {
        Ok((None, first))
    }
}

/// Reads a fragment's name, with its place.
pub(crate) fn fragment_name<'a>(
    alloc: Global,
    cursor: &mut Cursor<'a>,
) -> Result<Spanning<TextRef<'a>>, Fault>
    ensures reads { Reads (steps.located (steps.name_in fragment_names) cursor.old) result
        cursor.new }
    ensures no_more { left cursor.new ≤ left cursor.old }
{
    let start = cursor.start();
    let name = cursor.fragment_name(alloc)?;
    Ok(cursor.closed(start, name))
}
