//! What a field that is looked at tells, as text.

ghost use Rattle.graphql_collected.specs.Requests.{fragments_in};
ghost use Rattle.graphql_written_out.specs.Written.{Settled};

use graphql_look_ahead::{
    LookAheadArguments, LookAheadChildren, LookAheadSelection, LookAheadValue,
};
use graphql_values::DefaultScalarValue;
use std::alloc::{AllocError, Global};

/// A field that is looked at.
pub type Seen<'d, 'a> = LookAheadSelection<'d, 'a, DefaultScalarValue>;

type Children<'d, 'a> = LookAheadChildren<'d, 'a, DefaultScalarValue>;

type Arguments<'d, 'a> = LookAheadArguments<'d, 'a, DefaultScalarValue>;

/// What is asked of a field that is looked at.
#[derive(Clone, Copy)]
pub enum Look<'l> {
    /// Its children.
    Children,

    /// Its children but for those that are bound to another type than the one of this name.
    Typed(&'l str),

    /// The children of its child of this key.
    Below(&'l str),

    /// Its child of this key, among all children and alone.
    Child(&'l str),

    /// Its arguments.
    Arguments,

    /// The keys of its children, the children and its arguments: the last of each, then the others.
    Ends,
}

/// Tells one more of a list. An error is want of memory.
fn tell(told: &mut String, words: &str) -> Result<(), AllocError> {
    if !told.is_empty() {
        told.push_str(", ")?;
    }
    told.push_str(words)
}

/// Tells a field: its key, behind that its own name where the key is an alias, and the type to
/// which it is bound, if to one. An error is want of memory.
fn tell_field(told: &mut String, field: &Seen<'_, '_>) -> Result<(), AllocError> {
    tell(told, field.field_name())?;
    if field.field_alias().is_some() {
        told.push_str(": ")?;
        told.push_str(field.field_original_name())?;
    }
    if let Some(name) = field.applies_for() {
        told.push_str(" (")?;
        told.push_str(name)?;
        told.push_str(")")?;
    }
    Ok(())
}

/// Tells a field, or that there is none. An error is want of memory.
fn tell_found(told: &mut String, field: Option<&Seen<'_, '_>>) -> Result<(), AllocError> {
    match field {
        Some(field) => tell_field(told, field),
        None => tell(told, "none"),
    }
}

/// Tells children, in order. An error is want of memory.
fn tell_children(told: &mut String, children: &Children<'_, '_>) -> Result<(), AllocError> {
    for child in children.as_slice() {
        tell_field(told, child)?;
    }
    Ok(())
}

/// Tells a value of an argument, or of which kind it is. An error is want of memory.
fn tell_value(
    alloc: Global,
    told: &mut String,
    value: LookAheadValue<'_, DefaultScalarValue>,
) -> Result<(), AllocError> {
    match value {
        LookAheadValue::Null => told.push_str("null"),
        LookAheadValue::Scalar(scalar) => {
            let words = format!(in alloc; "{scalar}")?;
            told.push_str(words.as_str())
        }
        LookAheadValue::Enum(name) => told.push_str(name),
        LookAheadValue::List(_) => told.push_str("a list"),
        LookAheadValue::Object(_) => told.push_str("an object"),
    }
}

/// Tells arguments, in order. An error is want of memory.
fn tell_arguments(
    alloc: Global,
    told: &mut String,
    arguments: Arguments<'_, '_>,
) -> Result<(), AllocError> {
    for argument in arguments {
        tell(told, argument.name())?;
        told.push_str(": ")?;
        tell_value(alloc, told, argument.value())?;
    }
    Ok(())
}

/// Tells the last of the children's keys, and then the others. An error is want of memory.
fn tell_ends_of_names(told: &mut String, children: &Children<'_, '_>) -> Result<(), AllocError> {
    let mut names = children.names();
    if let Some(last) = names.next_back() {
        tell(told, last)?;
    }
    for name in names {
        tell(told, name)?;
    }
    Ok(())
}

/// Tells the last of the children, and then the others. An error is want of memory.
fn tell_ends_of_children(told: &mut String, children: &Children<'_, '_>) -> Result<(), AllocError> {
    let mut fields = children.iter();
    if let Some(last) = fields.next_back() {
        tell_field(told, last)?;
    }
    for field in fields {
        tell_field(told, field)?;
    }
    Ok(())
}

/// Tells the last of the arguments, and then the others. An error is want of memory.
fn tell_ends_of_arguments(
    alloc: Global,
    told: &mut String,
    mut arguments: Arguments<'_, '_>,
) -> Result<(), AllocError> {
    if let Some(last) = arguments.next_back() {
        tell(told, last.name())?;
    }
    tell_arguments(alloc, told, arguments)
}

/// Tells the keys of the children, the children and the arguments, the last of each before the
/// others. An error is want of memory.
fn tell_ends(alloc: Global, told: &mut String, field: &Seen<'_, '_>) -> Result<(), AllocError>
    requires { Settled (fragments_in field.now.request.now) }
{
    let children = field.children(alloc)?;
    tell_ends_of_names(told, &children)?;
    tell_ends_of_children(told, &children)?;
    tell_ends_of_arguments(alloc, told, field.arguments())
}

/// Tells the children of the child of this key, if there is one. An error is want of memory.
fn tell_below(
    alloc: Global,
    told: &mut String,
    field: &Seen<'_, '_>,
    key: &str,
) -> Result<(), AllocError>
    requires { Settled (fragments_in field.now.request.now) }
{
    let children = field.children(alloc)?;
    let Some(child) = children.select(key) else {
        return tell(told, "none");
    };
    let below = child.children(alloc)?;
    tell_children(told, &below)
}

/// Tells the child of this key among all children, and alone. An error is want of memory.
fn tell_child(
    alloc: Global,
    told: &mut String,
    field: &Seen<'_, '_>,
    key: &str,
) -> Result<(), AllocError>
    requires { Settled (fragments_in field.now.request.now) }
{
    let children = field.children(alloc)?;
    tell_found(told, children.select(key))?;
    let alone = field.child(alloc, key)?;
    tell_found(told, alone.as_ref())
}

/// Tells what is asked of a field that is looked at. An error is want of memory.
pub fn tell_seen(
    alloc: Global,
    told: &mut String,
    field: &Seen<'_, '_>,
    look: Look<'_>,
) -> Result<(), AllocError>
    requires { Settled (fragments_in field.now.request.now) }
{
    match look {
        Look::Children => tell_children(told, &field.children(alloc)?),
        Look::Typed(name) => {
            tell_children(told, &field.children_for_explicit_type(alloc, name)?)
        }
        Look::Below(key) => tell_below(alloc, told, field, key),
        Look::Child(key) => tell_child(alloc, told, field, key),
        Look::Arguments => tell_arguments(alloc, told, field.arguments()),
        Look::Ends => tell_ends(alloc, told, field),
    }
}
