//! Parts of frames.

ghost use Rattle.std.specs.Prelude.{◌≡◌, ◌⊎◌, ◌<◌, ◌+◌, None, length, reverse, IfOk, IfSome};
ghost use Rattle.std.specs.Prelude.{option_map};
ghost use Rattle.graphql_semantics.specs.Completion.{object_members};
ghost use Rattle.graphql_output_values.specs.Objects.{HasDistinctKeys};
ghost use Rattle.graphql_output_values.specs.declared.value.Value.TheVariants as value;
ghost use Rattle.graphql_text.specs.Memory.{Gives};
ghost use Rattle.graphql_execution_walk.specs.Frames.{known_of};

use crate::frames::{Begun, Frame, Known, KnownGroups, KnownIn};
use crate::prepared::prepared_again;
use graphql_output_values::{Key, Object, Value};
use graphql_text::Items;
use std::alloc::{AllocError, Global};

/// What is known of an object type, once more. An error says that there are too many.
pub(crate) fn known_again<'d, 'a, S>(
    known: &KnownIn<'d, 'a, S>,
) -> Result<KnownIn<'d, 'a, S>, AllocError>
    ensures { Gives result known.now }
{
    Ok(Known {
        object: known.object.copied(),
        groups: known.groups.again()?,
        prepared: prepared_again(&known.prepared)?,
    })
}

/// What has begun tells of an object type that is not known yet: what is selected from it, where an
/// object has begun. An error says that there are too many.
pub(crate) fn news_of<'d, 'a, S, N>(
    known: &KnownGroups<'d, 'a, S>,
    begun: &Begun<'d, 'a, S, N>,
) -> Result<Option<KnownIn<'d, 'a, S>>, AllocError>
    ensures { IfOk result (λ news. (news ≡ None) ⊎ (news ≡ known_of begun.now)) }
{
    let Begun::Frame(Frame::Object(frame)) = begun else {
        return Ok(None);
    };
    if known.get(frame.object.as_str()).is_some() {
        return Ok(None);
    }
    Ok(Some(Known {
        object: frame.object.copied(),
        groups: frame.groups.again()?,
        prepared: prepared_again(&frame.prepared)?,
    }))
}

/// The items, the last first. An error is want of memory.
pub(crate) fn reversed<T: Drop>(alloc: Global, items: Items<T>) -> Result<Items<T>, AllocError>
    ensures { IfOk result (λ xs. reverse xs ≡ items) }
{
    let mut left = items;
    let mut turned = Items::with_capacity(alloc, left.len())?;
    while let Some(item) = left.pop() {
        turned.push(item)?;
    }
    Ok(turned)
}

/// The place behind this one; past the last of the items, the place itself.
pub(crate) fn behind<T>(items: &Items<T>, place: usize) -> usize
    ensures { place < length items.now → result ≡ place + 1 }
{
    if place < items.len() {
        place + 1
    } else {
        place
    }
}

/// The object of these members.
pub(crate) fn object_of<S>(members: Option<Items<(Key, Value<S>)>>) -> Option<Value<S>>
    requires { IfSome members HasDistinctKeys }
    ensures { result ≡ option_map object_members members }
{
    match members {
        Some(members) => Some(Value::Object(Object::from_distinct(members))),
        None => None,
    }
}

/// The list of these values.
pub(crate) fn list_of<S>(items: Option<Items<Value<S>>>) -> Option<Value<S>>
    ensures { result ≡ option_map value.List items }
{
    match items {
        Some(items) => Some(Value::List(items)),
        None => None,
    }
}
