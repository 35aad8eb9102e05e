//! The input values that stand for values of other types.

ghost use Rattle.std.specs.Prelude.{◌≡◌, [], map, OnOk, string_bytes};
ghost use Rattle.graphql_text.specs.Memory.{Gives};
ghost use Rattle.graphql_values.specs.Conversions as spec;
ghost use Rattle.graphql_values.specs.InputValues.{unplaced};
ghost use Rattle.graphql_values.specs.declared.input_value.InputValue.{InputValue};
ghost use Rattle.graphql_values.specs.declared.input_value.InputValue.TheVariants as value;

use crate::input_value::InputValue;
use crate::input_value::pushed::push_unlocated;
use graphql_scalars::{ScalarValue, ToScalarValue};
use graphql_text::{Items, Spanning};
use std::alloc::{AllocError, Global};
use std::rc::Rc;

/// A type whose values stand as input values, in no text (GraphQL October 2021, 2.9 Input Values).
pub trait ToInputValue<S> {
    /// The input value of a value.
    ghost input: { Self → InputValue S };

    /// The input value of the value. An error is want of memory.
    fn to_input_value(&self, alloc: Global) -> Result<InputValue<S>, AllocError>
        ensures { Gives result (input self.now) };
}

/// The scalar of the boolean (3.5.4 Boolean). Takes no memory.
impl<S: ScalarValue> ToInputValue<S> for bool {
    ghost input = { λ truth. value.Scalar (S.of_bool truth) };

    fn to_input_value(&self, alloc: Global) -> Result<InputValue<S>, AllocError> {
        Ok(InputValue::Scalar(self.to_scalar_value(alloc)?))
    }
}

/// The scalar of the integer (3.5.1 Int). Takes no memory.
impl<S: ScalarValue> ToInputValue<S> for i32 {
    ghost input = { λ number. value.Scalar (S.of_int number) };

    fn to_input_value(&self, alloc: Global) -> Result<InputValue<S>, AllocError> {
        Ok(InputValue::Scalar(self.to_scalar_value(alloc)?))
    }
}

/// The scalar of the text (3.5.3 String).
impl<S: ScalarValue> ToInputValue<S> for &str {
    ghost input = { λ text. value.Scalar (S.of_text text.now) };

    fn to_input_value(&self, alloc: Global) -> Result<InputValue<S>, AllocError> {
        Ok(InputValue::Scalar(self.to_scalar_value(alloc)?))
    }
}

/// The scalar of the text (3.5.3 String).
impl<S: ScalarValue> ToInputValue<S> for String {
    ghost input = { λ text. value.Scalar (S.of_text (string_bytes text)) };

    fn to_input_value(&self, alloc: Global) -> Result<InputValue<S>, AllocError> {
        Ok(InputValue::Scalar(self.to_scalar_value(alloc)?))
    }
}

/// Null where there is none, else the input value of what is there.
impl<S, T: ToInputValue<S>> ToInputValue<S> for Option<T> {
    ghost input = { spec.nullable_of T.input };

    fn to_input_value(&self, alloc: Global) -> Result<InputValue<S>, AllocError> {
        match self {
            Some(given) => given.to_input_value(alloc),
            None => Ok(InputValue::Null),
        }
    }
}

/// Puts the items' input values into a list that is empty. An error is want of memory.
fn add_inputs<S: Drop, T: ToInputValue<S>>(
    values: &mut Items<Spanning<InputValue<S>>>,
    items: &[T],
    alloc: Global,
) -> Result<(), AllocError>
    requires { values.old ≡ [] }
    ensures { OnOk result (values.new ≡ map (λ x. unplaced (T.input x)) items.now) }
{
    'items: for item in items {
        push_unlocated(values, item.to_input_value(alloc)?)?;
    }
    Ok(())
}

/// The list of the items' input values, in order.
impl<S: Drop, T: ToInputValue<S>> ToInputValue<S> for &[T] {
    ghost input = { λ items. spec.list_of T.input items.now };

    fn to_input_value(&self, alloc: Global) -> Result<InputValue<S>, AllocError> {
        let mut values = Items::with_capacity(alloc, self.len())?;
        add_inputs(&mut values, *self, alloc)?;
        Ok(InputValue::List(values))
    }
}

/// The list of the items' input values, in order.
impl<S: Drop, T: ToInputValue<S>> ToInputValue<S> for Vec<T> {
    ghost input = { λ items. spec.list_of T.input items.items };

    fn to_input_value(&self, alloc: Global) -> Result<InputValue<S>, AllocError> {
        self.as_slice().to_input_value(alloc)
    }
}

/// The list of the items' input values, in order.
impl<S: Drop, T: ToInputValue<S>, const N: usize> ToInputValue<S> for [T; N] {
    ghost input = { spec.list_of T.input };

    fn to_input_value(&self, alloc: Global) -> Result<InputValue<S>, AllocError> {
        self.as_slice().to_input_value(alloc)
    }
}

/// The input value of the value that is lent.
impl<S, T: ToInputValue<S>> ToInputValue<S> for &T {
    ghost input = { λ lent. T.input lent.now };

    fn to_input_value(&self, alloc: Global) -> Result<InputValue<S>, AllocError> {
        T::to_input_value(*self, alloc)
    }
}

/// The input value of the value in the box.
impl<S, T: ToInputValue<S>> ToInputValue<S> for Box<T> {
    ghost input = { λ boxed. T.input boxed.value };

    fn to_input_value(&self, alloc: Global) -> Result<InputValue<S>, AllocError> {
        T::to_input_value(&**self, alloc)
    }
}

/// The input value of the value that is shared.
impl<S, T: ToInputValue<S>> ToInputValue<S> for Rc<T> {
    ghost input = { λ shared. T.input shared.value };

    fn to_input_value(&self, alloc: Global) -> Result<InputValue<S>, AllocError> {
        T::to_input_value(&**self, alloc)
    }
}
