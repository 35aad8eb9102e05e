//! Lists and input objects (GraphQL October 2021, 2.9.7 List Value, 2.9.8 Input Object Values).
//!
//! They nest as deep as a text has tokens, so a loop reads them: what is open is kept in a list,
//! and not on the stack.

ghost use Rattle.std.specs.Prelude.{◌≡◌, ◌<◌, ◌≤◌, IfOk, OnOk};
ghost use Rattle.graphql_grammar.specs.Input.{Reads, StandsAt, left};
ghost use Rattle.graphql_grammar.specs.Leaves.{Behind};
ghost use Rattle.graphql_value_syntax.specs.ReadNested as spec;

use crate::value::{owned_key, single};
use graphql_grammar::{Cursor, Fault, Kind, keep};
use graphql_text::{Items, SourcePosition, Spanning, Text};
use graphql_values::{InputValue, ScalarValue};
use std::alloc::{AllocError, Global};

/// A list or an input object that is open: where it starts, and what was read of it.
#[derive(Drop)]
pub(crate) enum Open<S> {
    /// A list, and its values.
    List(SourcePosition, Items<Spanning<InputValue<S>>>),
    /// An input object, and its fields.
    Object(SourcePosition, Items<(Spanning<Text>, Spanning<InputValue<S>>)>),
}

/// Where a value stands within a list or an input object that is open.
#[derive(Drop)]
enum Place<S> {
    /// Behind these values of a list.
    List(SourcePosition, Items<Spanning<InputValue<S>>>),
    /// Behind these fields of an input object, under this name.
    Object(SourcePosition, Items<(Spanning<Text>, Spanning<InputValue<S>>)>, Spanning<Text>),
}

/// How a value begins.
#[derive(Drop)]
pub(crate) enum Begun<S> {
    /// All of a value that holds no other.
    Whole(Spanning<InputValue<S>>),
    /// The bracket that opens a list or an input object.
    Opens(Open<S>),
}

/// Reads a value that holds no other, or the bracket that opens a list or an input object.
pub(crate) fn begin<S: ScalarValue>(
    alloc: Global,
    cursor: &mut Cursor<'_>,
    is_const: bool,
) -> Result<Begun<S>, Fault>
    ensures reads { Reads (spec.value_start S.reads S.of_bool is_const cursor.old) result
        cursor.new }
    ensures no_more { left cursor.new ≤ left cursor.old }
    ensures fewer { OnOk result (left cursor.new < left cursor.old) }
    ensures behind { Behind cursor.old cursor.new }
    ensures stands { StandsAt result cursor.new }
{
    let start = cursor.start();
    match cursor.kind() {
        Kind::BracketOpen => {
            cursor.advance();
            Ok(Begun::Opens(Open::List(start, Items::new(alloc))))
        }
        Kind::CurlyOpen => {
            cursor.advance();
            Ok(Begun::Opens(Open::Object(start, Items::new(alloc))))
        }
        _ => {
            let item = single(alloc, cursor, is_const)?;
            Ok(Begun::Whole(cursor.closed(start, item)))
        }
    }
}

/// Reads the rest of a list or an input object.
pub(crate) fn rest<S: ScalarValue>(
    alloc: Global,
    cursor: &mut Cursor<'_>,
    is_const: bool,
    outermost: Open<S>,
) -> Result<Spanning<InputValue<S>>, Fault>
    ensures reads { Reads (spec.rest S.reads S.of_bool is_const outermost cursor.old) result
        cursor.new }
    ensures no_more { left cursor.new ≤ left cursor.old }
    ensures behind { Behind cursor.old cursor.new }
    ensures stands { StandsAt result cursor.new }
{
    let mut outer = Items::new(alloc);
    let mut holder = outermost;
    'parts: loop {
        if cursor.eat(closing(&holder)) {
            let value = closed(holder, cursor.end());
            match outer.pop() {
                Some(place) => holder = held(place, value)?,
                None => return Ok(value),
            }
        } else {
            let place = next_place(alloc, cursor, holder)?;
            match begin(alloc, cursor, is_const)? {
                Begun::Whole(value) => holder = held(place, value)?,
                Begun::Opens(inner) => {
                    keep(&mut outer, place)?;
                    holder = inner;
                }
            }
        }
    }
}

/// The bracket that closes it.
fn closing<S>(holder: &Open<S>) -> Kind
    ensures { result ≡ spec.closing holder.now }
{
    match holder {
        Open::List(_, _) => Kind::BracketClose,
        Open::Object(_, _) => Kind::CurlyClose,
    }
}

/// The list or input object that ends there.
fn closed<S>(holder: Open<S>, end: SourcePosition) -> Spanning<InputValue<S>>
    ensures { result ≡ spec.closed_value holder end }
{
    match holder {
        Open::List(start, values) => Spanning::start_end(start, end, InputValue::List(values)),
        Open::Object(start, fields) => Spanning::start_end(start, end, InputValue::Object(fields)),
    }
}

/// Reads as far as the next value within it: in an input object the value's name and a colon.
fn next_place<S: Drop>(
    alloc: Global,
    cursor: &mut Cursor<'_>,
    holder: Open<S>,
) -> Result<Place<S>, Fault>
    ensures reads { Reads (spec.place holder cursor.old) result cursor.new }
    ensures no_more { left cursor.new ≤ left cursor.old }
    ensures behind { Behind cursor.old cursor.new }
    ensures stands { StandsAt result cursor.new }
{
    match holder {
        Open::List(start, values) => Ok(Place::List(start, values)),
        Open::Object(start, fields) => {
            let name = owned_key(alloc, cursor)?;
            Ok(Place::Object(start, fields, name))
        }
    }
}

/// The list or input object with this value at that place. An error is want of memory.
fn held<S: Drop>(place: Place<S>, value: Spanning<InputValue<S>>) -> Result<Open<S>, AllocError>
    ensures { IfOk result (λ holder. holder ≡ spec.held place value) }
{
    match place {
        Place::List(start, mut values) => {
            values.push(value)?;
            Ok(Open::List(start, values))
        }
        Place::Object(start, mut fields, name) => {
            fields.push((name, value))?;
            Ok(Open::Object(start, fields))
        }
    }
}
