//! Values of answers as input values.

ghost use Rattle.std.specs.Prelude.{◌≡◌, map};
ghost use Rattle.graphql_text.specs.Memory.{Gives};
ghost use Rattle.graphql_output_values.specs.InputOfOutput as spec;
ghost use Rattle.graphql_values.specs.InputValues.{unplaced, unplaced_pair};

use crate::{Object, Value};
use graphql_scalars::ScalarValue;
use graphql_text::{Items, Spanning, Text};
use graphql_values::{InputValue, ToInputValue, push_unlocated};
use std::alloc::{AllocError, Global};

/// The same value, in no text: it holds neither an enum value nor a variable, since a value of an
/// answer has none (7.1 Response Format). Takes memory for texts and lists, and stack for each
/// level that the value nests.
impl<S: ScalarValue> ToInputValue<S> for Value<S> {
    ghost input = { spec.input_of };

    fn to_input_value(&self, alloc: Global) -> Result<InputValue<S>, AllocError> {
        input_of(alloc, self)
    }
}

#[cycle(inputs)]
fn input_of<S: ScalarValue>(alloc: Global, value: &Value<S>) -> Result<InputValue<S>, AllocError>
    ensures { Gives result (spec.input_of value.now) }
{
    match value {
        Value::Null => Ok(InputValue::Null),
        Value::Scalar(scalar) => Ok(InputValue::Scalar(scalar.clone()?)),
        Value::List(items) => Ok(InputValue::List(inputs_of(alloc, items.as_slice())?)),
        Value::Object(object) => Ok(InputValue::Object(fields_of(alloc, object)?)),
    }
}

/// What the items of a list are as input values.
#[cycle(inputs)]
fn inputs_of<S: ScalarValue>(
    alloc: Global,
    items: &[Value<S>],
) -> Result<Items<Spanning<InputValue<S>>>, AllocError>
    ensures { Gives result (map (λ x. unplaced (spec.input_of x)) items.now) }
{
    let mut inputs = Items::with_capacity(alloc, items.len())?;
    'items: for item in items {
        push_unlocated(&mut inputs, input_of(alloc, item)?)?;
    }
    Ok(inputs)
}

/// What the fields of an object are as those of an input object.
#[cycle(inputs)]
fn fields_of<S: ScalarValue>(
    alloc: Global,
    object: &Object<S>,
) -> Result<Items<(Spanning<Text>, Spanning<InputValue<S>>)>, AllocError>
    ensures { Gives result (spec.input_fields object.now) }
{
    let mut pairs = Items::with_capacity(alloc, object.field_count())?;
    'fields: for field in object.as_slice() {
        let name = Text::from_str(alloc, field.0.as_str())?;
        let value = input_of(alloc, &field.1)?;
        pairs.push((Spanning::unlocated(name), Spanning::unlocated(value)))?;
    }
    Ok(pairs)
}
