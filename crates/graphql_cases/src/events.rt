//! The events of documents.

use crate::groups::Root;
use graphql_names::{BorrowedType, Type};
use graphql_text::TextRef;
use graphql_tree::{Definition, InlineFragment, Operation};
use graphql_validation::{Around, Event, InputPlace, Node, Owner, Seen, TypeLiteral, Walk};
use graphql_values::{DefaultScalarValue, InputValue};
use std::alloc::{AllocError, Global};

/// The kind of a value, and what it is where it has no parts.
fn push_value(told: &mut String, value: &InputValue) -> Result<(), AllocError> {
    let kind = match value {
        InputValue::Null => return told.push_str("null"),
        InputValue::List(_) => return told.push_str("list"),
        InputValue::Object(_) => return told.push_str("object"),
        InputValue::Scalar(_) => "scalar",
        InputValue::Enum(_) => "enum",
        InputValue::Variable(_) => "variable",
    };
    write!(told, "{kind} {value}")
}

/// A word, and behind it a name.
fn push_named(told: &mut String, word: &str, name: &TextRef<'_>) -> Result<(), AllocError> {
    write!(told, "{word} {name}")
}

/// An operation, by its name if it has one.
fn push_operation(told: &mut String, operation: &Operation<'_>) -> Result<(), AllocError> {
    match &operation.name {
        Some(name) => push_named(told, "operation", &name.item),
        None => told.push_str("operation"),
    }
}

/// An inline fragment, by its condition if it has one.
fn push_inline(told: &mut String, inline: &InlineFragment<'_>) -> Result<(), AllocError> {
    match &inline.type_condition {
        Some(name) => push_named(told, "inline fragment on", &name.item),
        None => told.push_str("inline fragment"),
    }
}

/// An argument, behind what it is given to.
fn push_argument(told: &mut String, owner: Owner<'_>, name: &str) -> Result<(), AllocError> {
    match owner {
        Owner::Field(field) => write!(told, "argument {field}.{name}"),
        Owner::Directive(directive) => write!(told, "argument @{directive}.{name}"),
    }
}

/// The kind of a node, and its name.
fn push_node(told: &mut String, node: &Node<'_, '_, DefaultScalarValue>) -> Result<(), AllocError> {
    match node {
        Node::Document(_) => told.push_str("document"),
        Node::Operation(operation) => { push_operation(told, &operation.item) }
        Node::Fragment(fragment) => push_named(told, "fragment", &fragment.item.name.item),
        Node::VariableDefinition(variable) => {
            write!(told, "variable definition ${}", variable.0.item)
        }
        Node::Directive(location, declared, directive) => {
            let name = directive.item.name.item.as_str();
            let declared = if declared.is_some() {
                "declared"
            } else {
                "unknown"
            };
            write!(told, "directive @{name} at {location}, {declared}")
        }
        Node::Argument(owner, _, argument) => {
            push_argument(told, *owner, argument.0.item.as_str())
        }
        Node::SelectionSet(_) => told.push_str("selection set"),
        Node::Field(_, field) => push_named(told, "field", &field.item.name.item),
        Node::FragmentSpread(spread) => {
            push_named(told, "fragment spread", &spread.item.name.item)
        }
        Node::InlineFragment(inline) => { push_inline(told, &inline.item) }
        Node::Value(value) => push_value(told, &value.item),
        Node::ObjectField(name) => write!(told, "object field {}", name.item),
    }
}

/// A reference to a type, as a document writes it, or `-` where no type is known.
fn push_type(told: &mut String, literal: Option<TypeLiteral<'_>>) -> Result<(), AllocError> {
    let Some(literal) = literal else {
        return told.push('-');
    };
    let reference: BorrowedType<'_> = Type {
        name: TextRef::new(literal.name),
        modifiers: literal.modifiers,
    };
    write!(told, "{reference}")
}

/// The type of the values that are asked for, and whether there is a default; or `-`.
fn push_asked(told: &mut String, place: Option<InputPlace<'_>>) -> Result<(), AllocError> {
    let Some(place) = place else {
        return told.push('-');
    };
    push_type(told, Some(place.asked))?;
    if place.has_default {
        told.push_str(", with a default")?;
    }
    if place.is_only_field {
        told.push_str(", of one field")?;
    }
    Ok(())
}

/// The types around a node: of which it is selected, its own, and the one of the values that are
/// asked for.
fn push_around(
    told: &mut String,
    around: &Around<'_, DefaultScalarValue>,
) -> Result<(), AllocError> {
    let parent = match around.parent {
        Some(meta) => meta.name().unwrap_or("?"),
        None => "-",
    };
    write!(told, " | of {parent} | ")?;
    push_type(told, around.current)?;
    told.push_str(" | ")?;
    push_asked(told, around.input)?;
    told.push('\n')
}

/// An event, and the types around its node.
fn push_event(
    told: &mut String,
    seen: &Seen<'_, '_, DefaultScalarValue>,
) -> Result<(), AllocError> {
    let (verb, node) = match &seen.event {
        Event::Enter(node) => ("=> enter ", node),
        Event::Leave(node) => ("=> leave ", node),
    };
    told.push_str(verb)?;
    push_node(told, node)?;
    push_around(told, &seen.around)
}

/// Tells the events of a document, a line each.
pub fn tell_events(
    alloc: Global,
    root: &Root,
    document: &[Definition<'_>],
    told: &mut String,
) -> Result<(), AllocError> {
    let mut walk = Walk::new(alloc, root.schema(), document)?;
    for _turn in 0..usize::MAX {
        let Some(seen) = walk.next()? else {
            break;
        };
        push_event(told, &seen)?;
    }
    Ok(())
}

/// Tells how many events a document has.
pub fn count_events(
    alloc: Global,
    root: &Root,
    document: &[Definition<'_>],
    told: &mut String,
) -> Result<(), AllocError> {
    let mut walk = Walk::new(alloc, root.schema(), document)?;
    let mut count = 0;
    for turn in 0..usize::MAX {
        if walk.next()?.is_none() {
            count = turn;
            break;
        }
    }
    write!(told, "=> events: {count}\n")
}
