//! Values of records' fields.

ghost use Rattle.std.specs.Prelude.{◌≡◌};
ghost use Rattle.graphql_text.specs.Memory.{Gives};

use graphql_scalars::DefaultScalarValue;
use graphql_text::Items;
use std::alloc::AllocError;

/// The value of a record's field. A text may be a link, by the id of a record.
#[derive(Drop)]
pub enum FieldValue {
    /// No value.
    Null,

    /// A truth value, a text, or a whole number of 32 bits.
    Scalar(DefaultScalarValue),

    /// A list of values, in order.
    List(Items<FieldValue>),
}

impl Clone for FieldValue {
    ghost is_clone = { λ value copy. copy ≡ value };

    /// A second value, the same. Takes stack for each level that lists nest. An error is want of
    /// memory.
    fn clone(&self) -> Result<FieldValue, AllocError> {
        copy_of(self)
    }
}

/// A second value, the same.
#[cycle(copies)]
fn copy_of(value: &FieldValue) -> Result<FieldValue, AllocError>
    ensures { Gives result value.now }
{
    match value {
        FieldValue::Null => Ok(FieldValue::Null),
        FieldValue::Scalar(scalar) => Ok(FieldValue::Scalar(scalar.clone()?)),
        FieldValue::List(values) => Ok(FieldValue::List(copy_of_values(values)?)),
    }
}

/// A second list, of the same values.
#[cycle(copies)]
fn copy_of_values(values: &Items<FieldValue>) -> Result<Items<FieldValue>, AllocError>
    ensures { Gives result values.now }
{
    let mut copies = Items::with_capacity(*values.allocator(), values.len())?;
    'values: for value in values.as_slice() {
        copies.push(copy_of(value)?)?;
    }
    Ok(copies)
}
