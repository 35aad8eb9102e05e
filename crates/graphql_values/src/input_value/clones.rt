ghost use Rattle.std.specs.Prelude.{◌≡◌};
ghost use Rattle.graphql_text.specs.Memory.{Gives};

use super::InputValue;
use super::pushed::{push_at, push_field};
use graphql_scalars::ScalarValue;
use graphql_text::{Items, Spanning, Text};
use std::alloc::AllocError;

impl<S: ScalarValue + Drop> Clone for InputValue<S> {
    ghost is_clone = { λ value copy. copy ≡ value };

    /// A second value, the same, at the same places. Takes stack for each level that the value
    /// nests. An error is want of memory.
    fn clone(&self) -> Result<InputValue<S>, AllocError> {
        copy_of(self)
    }
}

/// A second value, the same.
#[cycle(copies)]
fn copy_of<S: ScalarValue + Drop>(value: &InputValue<S>) -> Result<InputValue<S>, AllocError>
    ensures { Gives result value.now }
{
    match value {
        InputValue::Null => Ok(InputValue::Null),
        InputValue::Scalar(scalar) => Ok(InputValue::Scalar(scalar.clone()?)),
        InputValue::Enum(name) => Ok(InputValue::Enum(name.clone()?)),
        InputValue::Variable(name) => Ok(InputValue::Variable(name.clone()?)),
        InputValue::List(items) => Ok(InputValue::List(copy_of_items(items)?)),
        InputValue::Object(pairs) => Ok(InputValue::Object(copy_of_pairs(pairs)?)),
    }
}

/// A second list, of the same values.
#[cycle(copies)]
fn copy_of_items<S: ScalarValue + Drop>(
    items: &Items<Spanning<InputValue<S>>>,
) -> Result<Items<Spanning<InputValue<S>>>, AllocError>
    ensures { Gives result items.now }
{
    let mut copies = Items::with_capacity(*items.allocator(), items.len())?;
    for part in items.as_slice() {
        let item = copy_of(&part.item)?;
        push_at(&mut copies, item, part.span)?;
    }
    Ok(copies)
}

/// A second list, of the same fields.
#[cycle(copies)]
fn copy_of_pairs<S: ScalarValue + Drop>(
    pairs: &Items<(Spanning<Text>, Spanning<InputValue<S>>)>,
) -> Result<Items<(Spanning<Text>, Spanning<InputValue<S>>)>, AllocError>
    ensures { Gives result pairs.now }
{
    let mut copies = Items::new(*pairs.allocator());
    for pair in pairs.as_slice() {
        let item = copy_of(&pair.1.item)?;
        push_field(&mut copies, pair, item)?;
    }
    Ok(copies)
}
