//! Documents (GraphQL October 2021, 2.2 Document, 2.3 Operations, 2.8 Fragments).

ghost use Rattle.std.specs.Prelude.{◌≡◌, ◌≤◌, ◌<◌, OnOk};
ghost use Rattle.graphql_grammar.specs.Input.{Reads, left};
ghost use Rattle.graphql_language.specs.ReadDocuments as spec;
ghost use Rattle.graphql_language.specs.ReadDefinitions as parts;

use crate::parse::selection::{fragment_name, selection_set, type_condition};
use graphql_grammar::{Cursor, Fault, Kind, keep};
use graphql_text::{Items, Spanning, TextRef};
use graphql_tree::{Definition, Directive, Fragment, Operation, OperationType, Selection};
use graphql_value_syntax::directive::{directives, located_name};
use graphql_value_syntax::variable::variable_definitions;
use graphql_values::ScalarValue;
use std::alloc::Global;

/// The directives of a definition, if it has any, and its selection set.
type Body<'a, S> = (
    Option<Items<Spanning<Directive<'a, S>>>>,
    Items<Selection<'a, S>>,
);

/// Reads a document to the end of the text (2.2 Document).
///
/// An error is the fault of the first token that can't stand where it does, or what the scalar type
/// says of a literal that it refuses, or `ParseError::Memory` where memory ran out.
pub(crate) fn document<'a, S: ScalarValue>(
    alloc: Global,
    cursor: &mut Cursor<'a>,
) -> Result<Items<Definition<'a, S>>, Fault>
    ensures reads { Reads (spec.document S.reads S.of_bool cursor.old) result cursor.new }
    ensures no_more { left cursor.new ≤ left cursor.old }
{
    let found = definitions(alloc, cursor)?;
    if cursor.kind() == Kind::EndOfFile {
        Ok(found)
    } else {
        Err(cursor.refuse(alloc))
    }
}

/// Reads definitions, one at least, as long as another begins.
fn definitions<'a, S: ScalarValue>(
    alloc: Global,
    cursor: &mut Cursor<'a>,
) -> Result<Items<Definition<'a, S>>, Fault>
    ensures reads { Reads (parts.definitions S.reads S.of_bool cursor.old) result cursor.new }
    ensures no_more { left cursor.new ≤ left cursor.old }
{
    let mut found = Items::with_capacity(alloc, 1)?;
    keep(&mut found, definition(alloc, cursor)?)?;
    'definitions: while begins_definition(cursor.kind()) {
        keep(&mut found, definition(alloc, cursor)?)?;
    }
    Ok(found)
}

fn begins_definition(kind: Kind) -> bool
    ensures { result ≡ spec.definition_kinds kind }
{
    matches!(
        kind,
        Kind::CurlyOpen | Kind::Query | Kind::Mutation | Kind::Subscription | Kind::Fragment
    )
}

fn definition<'a, S: ScalarValue>(
    alloc: Global,
    cursor: &mut Cursor<'a>,
) -> Result<Definition<'a, S>, Fault>
    ensures reads { Reads (spec.definition S.reads S.of_bool cursor.old) result cursor.new }
    ensures no_more { left cursor.new ≤ left cursor.old }
    ensures fewer { OnOk result (left cursor.new < left cursor.old) }
{
    if cursor.kind() == Kind::Fragment {
        let fragment = fragment(alloc, cursor)?;
        Ok(Definition::Fragment(fragment))
    } else {
        let operation = operation(alloc, cursor)?;
        Ok(Definition::Operation(operation))
    }
}

/// Reads a fragment (2.8 Fragments).
fn fragment<'a, S: ScalarValue>(
    alloc: Global,
    cursor: &mut Cursor<'a>,
) -> Result<Spanning<Fragment<'a, S>>, Fault>
    ensures reads { Reads (spec.fragment S.reads S.of_bool cursor.old) result cursor.new }
    ensures no_more { left cursor.new ≤ left cursor.old }
    ensures fewer { OnOk result (left cursor.new < left cursor.old) }
{
    let start = cursor.start();
    cursor.expect(alloc, Kind::Fragment)?;
    let name = fragment_name(alloc, cursor)?;
    let type_condition = type_condition(alloc, cursor)?;
    let (directives, selection_set) = body(alloc, cursor)?;
    let fragment = Fragment {
        name,
        type_condition,
        directives,
        selection_set,
    };
    Ok(cursor.closed(start, fragment))
}

/// Reads what ends a definition: its directives and its selection set.
fn body<'a, S: ScalarValue>(alloc: Global, cursor: &mut Cursor<'a>) -> Result<Body<'a, S>, Fault>
    ensures reads { Reads (parts.body S.reads S.of_bool cursor.old) result cursor.new }
    ensures no_more { left cursor.new ≤ left cursor.old }
    ensures fewer { OnOk result (left cursor.new < left cursor.old) }
{
    let directives = directives(alloc, cursor, false)?;
    let selection_set = selection_set(alloc, cursor)?;
    Ok((directives, selection_set))
}

/// Reads an operation (2.3 Operations).
fn operation<'a, S: ScalarValue>(
    alloc: Global,
    cursor: &mut Cursor<'a>,
) -> Result<Spanning<Operation<'a, S>>, Fault>
    ensures reads { Reads (spec.operation S.reads S.of_bool cursor.old) result cursor.new }
    ensures no_more { left cursor.new ≤ left cursor.old }
    ensures fewer { OnOk result (left cursor.new < left cursor.old) }
{
    let start = cursor.start();
    if cursor.kind() == Kind::CurlyOpen {
        let set = selection_set(alloc, cursor)?;
        Ok(cursor.closed(start, query(set)))
    } else {
        let full = full_operation(alloc, cursor)?;
        Ok(cursor.closed(start, full))
    }
}

/// A selection set alone is a query without name (2.3 Operations, Query shorthand).
fn query<'a, S: ScalarValue>(selection_set: Items<Selection<'a, S>>) -> Operation<'a, S>
    ensures { result ≡ spec.query_of selection_set.entry }
{
    Operation {
        operation_type: OperationType::Query,
        name: None,
        variable_definitions: None,
        directives: None,
        selection_set,
    }
}

/// Reads an operation that begins with its type.
fn full_operation<'a, S: ScalarValue>(
    alloc: Global,
    cursor: &mut Cursor<'a>,
) -> Result<Operation<'a, S>, Fault>
    ensures reads { Reads (spec.full_operation S.reads S.of_bool cursor.old) result cursor.new }
    ensures no_more { left cursor.new ≤ left cursor.old }
    ensures fewer { OnOk result (left cursor.new < left cursor.old) }
{
    let operation_type = operation_type(alloc, cursor)?;
    let name = operation_name(alloc, cursor)?;
    let variable_definitions = variable_definitions(alloc, cursor)?;
    let (directives, selection_set) = body(alloc, cursor)?;
    Ok(Operation {
        operation_type,
        name,
        variable_definitions,
        directives,
        selection_set,
    })
}

fn operation_type(alloc: Global, cursor: &mut Cursor<'_>) -> Result<OperationType, Fault>
    ensures reads { Reads (parts.operation_type cursor.old) result cursor.new }
    ensures no_more { left cursor.new ≤ left cursor.old }
{
    match cursor.kind() {
        Kind::Query => {
            cursor.advance();
            Ok(OperationType::Query)
        }
        Kind::Mutation => {
            cursor.advance();
            Ok(OperationType::Mutation)
        }
        Kind::Subscription => {
            cursor.advance();
            Ok(OperationType::Subscription)
        }
        _ => Err(cursor.refuse(alloc)),
    }
}

fn operation_name<'a>(
    alloc: Global,
    cursor: &mut Cursor<'a>,
) -> Result<Option<Spanning<TextRef<'a>>>, Fault>
    ensures reads { Reads (parts.operation_name cursor.old) result cursor.new }
    ensures no_more { left cursor.new ≤ left cursor.old }
{
    if cursor.kind().is_name() {
        let name = located_name(alloc, cursor)?;
        Ok(Some(name))
    } else {
        Ok(None)
    }
}
