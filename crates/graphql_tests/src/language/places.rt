use crate::language::documents::parsed;
use crate::language::told::check;
use graphql_text::{SourcePosition, Span, Spanning};
use graphql_tree::{
    Definition, Field, Fragment, FragmentSpread, InlineFragment, Operation, OwnedDocument,
    Selection,
};
use graphql_values::InputValue;
use std::alloc::{AllocError, Global};
use std::process::Abort;
use std::test::Fail;

/// What is looked at in a document: its first definition, or of an operation the first selection,
/// or a part of this.
#[derive(Clone, Copy)]
enum Part {
    Operation,
    Variable,
    Field,
    Fragment,
    Spread,
    InlineFragment,
    Directive,
    Values,
}

/// Texts, in each what is looked at, and the text at five places of it.
const PLACES: [(Part, &str, &str); 8] = [
    (
        Part::Operation,
        "query Q($x: Int, $y: T) @d(e: 1) @f { a { b } c }",
        "|query Q($x: Int, $y: T) @d(e: 1) @f { a { b } c }|Q|($x: Int, $y: T)|@d(e: 1)|a { b }",
    ),
    (
        Part::Variable,
        "query ($x: [Int!]! = [1, 2] @d(y: 2) @e, $z: T) { a }",
        "|($x: [Int!]! = [1, 2] @d(y: 2) @e, $z: T)|$x|[Int!]!|[1, 2]|@d(y: 2)",
    ),
    (
        Part::Field,
        "{ a : b (c: 1) @d @e { f } , g }",
        "|a : b (c: 1) @d @e { f }|a|b|(c: 1)|@d",
    ),
    (
        Part::Fragment,
        "fragment F on T @d { a, b }",
        "|fragment F on T @d { a, b }|F|T|@d|a",
    ),
    (Part::Spread, "{ ... F @d @e, a }", "|... F @d @e|F|@d|d|@e"),
    (
        Part::InlineFragment,
        "{ ... on T @d(e: 1) { ...F } a }",
        "|... on T @d(e: 1) { ...F }|T|@d(e: 1)|d|...F",
    ),
    (
        Part::Directive,
        "{ a @ d ( e: \"f\", g: $h) }",
        "|@ d ( e: \"f\", g: $h)|d|( e: \"f\", g: $h)|e|\"f\"",
    ),
    (
        Part::Values,
        "{ a(b: [ 1, {c : -25 d: $e} ] ) }",
        "|[ 1, {c : -25 d: $e} ]|1|{c : -25 d: $e}|c|-25",
    ),
];

/// The parts of a text of ASCII alone at these places, each behind a bar.
fn cut(alloc: Global, text: &str, places: &[Span]) -> Result<String, AllocError> {
    let mut told = String::new(alloc);
    for place in places {
        told.push_str("|")?;
        let part = text.get(place.start.index()..place.end.index());
        told.push_str(part.unwrap_or("?"))?;
    }
    Ok(told)
}

fn operation_of<'b, 'a>(document: &'b OwnedDocument<'a>) -> Option<&'b Spanning<Operation<'a>>> {
    match document.first()? {
        Definition::Operation(operation) => Some(operation),
        Definition::Fragment(_) => None,
    }
}

fn fragment_of<'b, 'a>(document: &'b OwnedDocument<'a>) -> Option<&'b Spanning<Fragment<'a>>> {
    match document.first()? {
        Definition::Operation(_) => None,
        Definition::Fragment(fragment) => Some(fragment),
    }
}

fn field_of<'b, 'a>(document: &'b OwnedDocument<'a>) -> Option<&'b Spanning<Field<'a>>> {
    match operation_of(document)?.item.selection_set.first()? {
        Selection::Field(field) => Some(field),
        _ => None,
    }
}

fn spread_of<'b, 'a>(document: &'b OwnedDocument<'a>) -> Option<&'b Spanning<FragmentSpread<'a>>> {
    match operation_of(document)?.item.selection_set.first()? {
        Selection::FragmentSpread(spread) => Some(spread),
        _ => None,
    }
}

fn inline_of<'b, 'a>(document: &'b OwnedDocument<'a>) -> Option<&'b Spanning<InlineFragment<'a>>> {
    match operation_of(document)?.item.selection_set.first()? {
        Selection::InlineFragment(inline) => Some(inline),
        _ => None,
    }
}

fn place_of(selection: &Selection<'_>) -> Span {
    match selection {
        Selection::Field(field) => field.span,
        Selection::FragmentSpread(spread) => spread.span,
        Selection::InlineFragment(inline) => inline.span,
    }
}

/// The operation, its name, variables, first directive and first selection.
fn operation_places(document: &OwnedDocument<'_>) -> Option<[Span; 5]> {
    let operation = operation_of(document)?;
    let item = &operation.item;
    Some([
        operation.span,
        item.name.as_ref()?.span,
        item.variable_definitions.as_ref()?.span,
        item.directives.as_ref()?.first()?.span,
        place_of(item.selection_set.first()?),
    ])
}

/// The variables, the first of them, its type, default value and first directive.
fn variable_places(document: &OwnedDocument<'_>) -> Option<[Span; 5]> {
    let variables = operation_of(document)?.item.variable_definitions.as_ref()?;
    let (name, variable) = variables.item.items.first()?;
    Some([
        variables.span,
        name.span,
        variable.var_type.span,
        variable.default_value.as_ref()?.span,
        variable.directives.as_ref()?.first()?.span,
    ])
}

/// The field, its alias, name, arguments and first directive.
fn field_places(document: &OwnedDocument<'_>) -> Option<[Span; 5]> {
    let field = field_of(document)?;
    let item = &field.item;
    Some([
        field.span,
        item.alias.as_ref()?.span,
        item.name.span,
        item.arguments.as_ref()?.span,
        item.directives.as_ref()?.first()?.span,
    ])
}

/// The fragment, its name, type condition, first directive and first selection.
fn fragment_places(document: &OwnedDocument<'_>) -> Option<[Span; 5]> {
    let fragment = fragment_of(document)?;
    let item = &fragment.item;
    Some([
        fragment.span,
        item.name.span,
        item.type_condition.span,
        item.directives.as_ref()?.first()?.span,
        place_of(item.selection_set.first()?),
    ])
}

/// The spread, its name, first directive, this one's name, and the last directive.
fn spread_places(document: &OwnedDocument<'_>) -> Option<[Span; 5]> {
    let spread = spread_of(document)?;
    let directives = spread.item.directives.as_ref()?;
    let first = directives.first()?;
    Some([
        spread.span,
        spread.item.name.span,
        first.span,
        first.item.name.span,
        directives.last()?.span,
    ])
}

/// The inline fragment, its type condition, first directive, this one's name, and the first
/// selection.
fn inline_places(document: &OwnedDocument<'_>) -> Option<[Span; 5]> {
    let inline = inline_of(document)?;
    let item = &inline.item;
    let first = item.directives.as_ref()?.first()?;
    Some([
        inline.span,
        item.type_condition.as_ref()?.span,
        first.span,
        first.item.name.span,
        place_of(item.selection_set.first()?),
    ])
}

/// The first directive of the field, its name and arguments, and of the first argument its name and
/// value.
fn directive_places(document: &OwnedDocument<'_>) -> Option<[Span; 5]> {
    let directive = field_of(document)?.item.directives.as_ref()?.first()?;
    let arguments = directive.item.arguments.as_ref()?;
    let (name, value) = arguments.item.items.first()?;
    Some([
        directive.span,
        directive.item.name.span,
        arguments.span,
        name.span,
        value.span,
    ])
}

/// The list that the field's first argument is, its first and last value, and of the last, an
/// object, the first name and value.
fn list_places(document: &OwnedDocument<'_>) -> Option<[Span; 5]> {
    let arguments = field_of(document)?.item.arguments.as_ref()?;
    let (_, list) = arguments.item.items.first()?;
    let InputValue::List(values) = &list.item else {
        return None;
    };
    let object = values.last()?;
    let InputValue::Object(pairs) = &object.item else {
        return None;
    };
    let (name, value) = pairs.first()?;
    Some([
        list.span,
        values.first()?.span,
        object.span,
        name.span,
        value.span,
    ])
}

fn places(document: &OwnedDocument<'_>, part: Part) -> Option<[Span; 5]> {
    match part {
        Part::Operation => operation_places(document),
        Part::Variable => variable_places(document),
        Part::Field => field_places(document),
        Part::Fragment => fragment_places(document),
        Part::Spread => spread_places(document),
        Part::InlineFragment => inline_places(document),
        Part::Directive => directive_places(document),
        Part::Values => list_places(document),
    }
}

/// The text at the five places of a part of the document that a text is.
fn read_places(alloc: Global, text: &str, part: Part) -> Result<String, Fail> {
    let document = parsed(alloc, text)?;
    match places(&document, part) {
        Some(places) => Ok(cut(alloc, text, places.as_slice())?),
        None => Ok(String::from_str(alloc, "no places")?),
    }
}

/// Asserts the text at five places of each part.
fn check_places(rt: &(impl Abort + AllocGlobal), rows: &[(Part, &str, &str)]) -> Result<(), Fail> {
    for row in rows {
        check(rt, read_places(rt.alloc(), row.1, row.0), row.2)?;
    }
    Ok(())
}

#[test]
fn places_of_parts(rt: HostRuntime) -> Result<(), Fail> {
    check_places(&rt, &PLACES)
}

/// Where the operation and its first field start and end.
fn ends(document: &OwnedDocument<'_>) -> Option<[SourcePosition; 4]> {
    let operation = operation_of(document)?.span;
    let field = field_of(document)?.span;
    Some([operation.start, operation.end, field.start, field.end])
}

fn read_ends(alloc: Global, text: &str) -> Result<Option<[SourcePosition; 4]>, Fail> {
    let document = parsed(alloc, text)?;
    Ok(ends(&document))
}

#[test]
fn places_count_lines_and_columns(rt: HostRuntime) -> Result<(), Fail> {
    let text = "query Q {\n  a: b(c: 1)\n} # end";
    let found = read_ends(rt.alloc(), text)?;
    let wanted = [
        SourcePosition::new(0, 0, 0),
        SourcePosition::new(24, 2, 1),
        SourcePosition::new(12, 1, 2),
        SourcePosition::new(22, 1, 12),
    ];
    assert!(rt; found == Some(wanted));
    Ok(())
}
