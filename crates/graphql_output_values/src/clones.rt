//! Clones of values and of objects.

ghost use Rattle.graphql_text.specs.Memory.{Gives};

use crate::key::Key;
use crate::object::Object;
use crate::value::Value;
use graphql_scalars::ScalarValue;
use graphql_text::Items;
use std::alloc::AllocError;

impl<S: ScalarValue + Drop> Clone for Value<S> {
    ghost use Rattle.std.specs.Prelude.{◌≡◌};

    ghost is_clone = { λ value copy. copy ≡ value };

    /// A second value, the same. Takes stack for each level that the value nests. An error is want
    /// of memory.
    fn clone(&self) -> Result<Value<S>, AllocError> {
        copy_of(self)
    }
}

impl<S: ScalarValue + Drop> Clone for Object<S> {
    ghost use Rattle.std.specs.Prelude.{◌≡◌};

    ghost is_clone = { λ object copy. copy ≡ object };

    /// A second object, the same. Takes stack for each level that its values nest. An error is want
    /// of memory.
    fn clone(&self) -> Result<Object<S>, AllocError> {
        let fields = copy_of_fields(&self.fields)?;
        Ok(Object { fields })
    }
}

/// A second value, the same.
#[cycle(copies)]
fn copy_of<S: ScalarValue + Drop>(value: &Value<S>) -> Result<Value<S>, AllocError>
    ensures { Gives result value.now }
{
    match value {
        Value::Null => Ok(Value::Null),
        Value::Scalar(scalar) => Ok(Value::Scalar(scalar.clone()?)),
        Value::List(items) => Ok(Value::List(copy_of_items(items)?)),
        Value::Object(object) => {
            let fields = copy_of_fields(&object.fields)?;
            Ok(Value::Object(Object { fields }))
        }
    }
}

/// A second list, of the same values.
#[cycle(copies)]
fn copy_of_items<S: ScalarValue + Drop>(
    items: &Items<Value<S>>,
) -> Result<Items<Value<S>>, AllocError>
    ensures { Gives result items.now }
{
    let mut copies = Items::with_capacity(*items.allocator(), items.len())?;
    for item in items.as_slice() {
        copies.push(copy_of(item)?)?;
    }
    Ok(copies)
}

/// A second list, of the same fields.
#[cycle(copies)]
fn copy_of_fields<S: ScalarValue + Drop>(
    fields: &Items<(Key, Value<S>)>,
) -> Result<Items<(Key, Value<S>)>, AllocError>
    ensures { Gives result fields.now }
{
    let mut copies = Items::with_capacity(*fields.allocator(), fields.len())?;
    for field in fields.as_slice() {
        let key = field.0.clone()?;
        let value = copy_of(&field.1)?;
        copies.push((key, value))?;
    }
    Ok(copies)
}
