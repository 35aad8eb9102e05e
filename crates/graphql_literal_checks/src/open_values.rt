//! The lists and objects around the part of a value that is being judged, on a stack of their own.

ghost use Rattle.std.specs.Prelude.{◌≡◌, ◌∷◌, [], ◌++◌, OnOk};

use graphql_names::BorrowedType;
use graphql_schema::{InputObjectMeta, SchemaScalar};
use graphql_text::{Items, Spanning, Text, TextRef};
use graphql_values::InputValue;
use std::alloc::{AllocError, Global};

/// A field that is given: its name and its value, at their places.
pub(crate) type Pair<S> = (Spanning<Text>, Spanning<InputValue<S>>);

/// A list that is being judged.
#[derive(Drop)]
pub(crate) struct OpenList<'a, S> {
    /// The type of its items.
    pub(crate) asked: BorrowedType<'a>,

    /// The items that are yet to be judged.
    pub(crate) rest: &'a [Spanning<InputValue<S>>],

    /// Whether no variable stood in the items that were judged.
    pub(crate) constant: bool,
}

/// An object that is being judged.
#[derive(Drop)]
pub(crate) struct OpenObject<'a, S, C = <S as SchemaScalar>::Check> {
    /// Its type.
    pub(crate) meta: &'a InputObjectMeta<S, C>,

    /// The object.
    pub(crate) value: &'a InputValue<S>,

    /// The fields that are given.
    pub(crate) pairs: &'a [Pair<S>],

    /// Those of them that are yet to be judged.
    pub(crate) rest: &'a [Pair<S>],

    /// The name of the field that is being judged, if there is one.
    pub(crate) field: Option<TextRef<'a>>,

    /// Whether no variable stood in the fields that were judged.
    pub(crate) constant: bool,
}

/// A list or an object that is being judged.
#[derive(Drop)]
pub(crate) enum Open<'a, S, C = <S as SchemaScalar>::Check> {
    List(OpenList<'a, S>),
    Object(OpenObject<'a, S, C>),
}

impl<'a, S, C> Open<'a, S, C> {
    /// The name of the field that is being judged, if there is one.
    fn field(&self) -> Option<&str> {
        match self {
            Open::List(_) => None,
            Open::Object(object) => match &object.field {
                Some(name) => Some(name.as_str()),
                None => None,
            },
        }
    }
}

/// Puts a list or an object within those that are open. An error is want of memory.
pub(crate) fn add<'a, S, C>(
    opened: &mut Items<Open<'a, S, C>>,
    within: Open<'a, S, C>,
) -> Result<(), AllocError>
    ensures { OnOk result (opened.new ≡ opened.old ++ within.entry ∷ []) }
{
    opened.push(within)?;
    Ok(())
}

/// What is wrong with a part, behind the names of the fields that are open around it, the outermost
/// first. Takes time in proportion to what is open and to the text. An error is want of memory.
pub(crate) fn behind_fields<S, C>(
    alloc: Global,
    opened: &[Open<'_, S, C>],
    reason: &Text,
) -> Result<Text, AllocError> {
    let mut text = Text::new(alloc);
    for around in opened {
        if let Some(name) = around.field() {
            text.push_str("field \"")?;
            text.push_str(name)?;
            text.push_str("\": ")?;
        }
    }
    text.push_str(reason.as_str())?;
    Ok(text)
}
