//! Whether fields are given the same arguments.

ghost use Rattle.std.specs.Prelude.{◌≡◌, ◌↔◌, IfOk, IsTrue};
ghost use Rattle.std.specs.List.{All, Any};
ghost use Rattle.graphql_values.specs.SameValue.{SameValue};
ghost use Rattle.graphql_merging.specs.Merging.{IsAmong, SameArguments};

use graphql_text::{Spanning, TextRef};
use graphql_values::InputValue;
use std::alloc::{AllocError, Global};

/// A name and a value, at their places.
pub(crate) type Argument<'a, S> = (Spanning<TextRef<'a>>, Spanning<InputValue<S>>);

/// Whether the arguments have the same name and the same value, wherever they stand.
fn is_like<S: PartialEq>(
    alloc: Global,
    left: &Argument<'_, S>,
    right: &Argument<'_, S>,
) -> Result<bool, AllocError>
    ensures { IfOk result (λ like. IsTrue like ↔ ((left.now.0.item ≡ right.now.0.item)
        × SameValue S S.eq left.now.1.item right.now.1.item)) }
{
    if left.0.item.as_str() != right.0.item.as_str() {
        return Ok(false);
    }
    left.1.item.unlocated_eq(alloc, &right.1.item)
}

/// Whether an argument of this name and this value is among the others.
fn is_among<S: PartialEq>(
    alloc: Global,
    argument: &Argument<'_, S>,
    others: &[Argument<'_, S>],
) -> Result<bool, AllocError>
    ensures { IfOk result (λ among. IsTrue among ↔ IsAmong S.eq others.now argument.now) }
{
    for other in others {
        let like = is_like(alloc, argument, other)?;
        if like {
            return Ok(true);
        }
    }
    Ok(false)
}

/// Whether each of the arguments is among the others.
fn are_among<S: PartialEq>(
    alloc: Global,
    arguments: &[Argument<'_, S>],
    others: &[Argument<'_, S>],
) -> Result<bool, AllocError>
    ensures { IfOk result (λ among. IsTrue among ↔ All (IsAmong S.eq others.now) arguments.now) }
{
    for argument in arguments {
        let among = is_among(alloc, argument, others)?;
        if !among {
            return Ok(false);
        }
    }
    Ok(true)
}

/// Whether the arguments are the same as sets. An error is want of memory.
pub(crate) fn same_arguments<S: PartialEq>(
    alloc: Global,
    left: &[Argument<'_, S>],
    right: &[Argument<'_, S>],
) -> Result<bool, AllocError>
    ensures { IfOk result (λ same. IsTrue same ↔ SameArguments S.eq left.now right.now) }
{
    let left_among = are_among(alloc, left, right)?;
    let right_among = are_among(alloc, right, left)?;
    Ok(left_among && right_among)
}
