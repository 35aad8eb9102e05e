//! Items and fields at the end of lists.

ghost use Rattle.std.specs.Prelude.{◌≡◌, ◌++◌, ◌∷◌, [], map, OnOk};
ghost use Rattle.graphql_text.specs.Memory.{Gives};
ghost use Rattle.graphql_values.specs.InputValues.{unplaced, unplaced_pair};

use graphql_text::{Items, Span, Spanning, Text};
use std::alloc::{AllocError, Global};

/// Adds an item at this place of a text. An error is want of memory.
pub(super) fn push_at<T: Drop>(
    items: &mut Items<Spanning<T>>,
    item: T,
    span: Span,
) -> Result<(), AllocError>
    ensures { OnOk result (items.new ≡ items.old ++ record { item = item; span = span } ∷ []) }
{
    items.push(Spanning { item, span })?;
    Ok(())
}

/// Adds an item that stands in no text. An error is want of memory.
pub fn push_unlocated<T: Drop>(items: &mut Items<Spanning<T>>, item: T) -> Result<(), AllocError>
    ensures { OnOk result (items.new ≡ items.old ++ unplaced item ∷ []) }
{
    items.push(Spanning::unlocated(item))?;
    Ok(())
}

/// Adds a field like this one, at its places, but of another value. An error is want of memory.
pub(super) fn push_field<T: Drop>(
    fields: &mut Items<(Spanning<Text>, Spanning<T>)>,
    like: &(Spanning<Text>, Spanning<T>),
    item: T,
) -> Result<(), AllocError>
    ensures { OnOk result (fields.new
        ≡ fields.old
        ++ (like.now.0, record { item = item; span = like.now.1.span }) ∷ []) }
{
    let name = Spanning {
        item: like.0.item.clone()?,
        span: like.0.span,
    };
    let span = like.1.span;
    fields.push((name, Spanning { item, span }))?;
    Ok(())
}

/// The items, which stand in no text. An error is want of memory.
pub(super) fn unlocated_items<T: Drop>(
    alloc: Global,
    given: Vec<T>,
) -> Result<Items<Spanning<T>>, AllocError>
    ensures { Gives result (map unplaced given.items) }
{
    let mut items = Items::with_capacity(alloc, given.len())?;
    for item in given {
        push_unlocated(&mut items, item)?;
    }
    Ok(items)
}

/// The fields, whose names and values stand in no text. An error is want of memory.
pub(super) fn unlocated_fields<T: Drop>(
    alloc: Global,
    given: Vec<(Text, T)>,
) -> Result<Items<(Spanning<Text>, Spanning<T>)>, AllocError>
    ensures { Gives result (map unplaced_pair given.items) }
{
    let mut fields = Items::with_capacity(alloc, given.len())?;
    for field in given {
        fields.push(unlocated_field(field))?;
    }
    Ok(fields)
}

/// The field whose name and value stand in no text.
fn unlocated_field<T>(field: (Text, T)) -> (Spanning<Text>, Spanning<T>)
    ensures { result ≡ unplaced_pair field }
{
    let (name, item) = field;
    (Spanning::unlocated(name), Spanning::unlocated(item))
}
