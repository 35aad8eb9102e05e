//! Values behind a pointer: they mean what they mean without it.

ghost use Rattle.graphql_values.specs.Conversions as spec;

use super::FromInputValue;
use crate::input_value::InputValue;
use std::alloc::{AllocError, Global};
use std::rc::Rc;

/// A value means in a box what it means at `T`.
impl<S, T: FromInputValue<S> + Drop> FromInputValue<S> for Box<T> {
    type Error = T::Error;

    ghost means = { λ v boxed. T.means v boxed.value };

    ghost refuses = { T.refuses };

    ghost is_memory = { T.is_memory };

    ghost means_absent = { λ boxed. T.means_absent boxed.value };

    ghost refuses_absent = { T.refuses_absent };

    ghost apart = { λ v boxed e. T.apart v boxed.value e };

    ghost absent_apart = { λ boxed e. T.absent_apart boxed.value e };

    ghost memory = { T.memory };

    fn from_input_value(alloc: Global, value: &InputValue<S>) -> Result<Box<T>, T::Error> {
        let meant = T::from_input_value(alloc, value)?;
        Ok(Box::new(alloc, meant).map_err(AllocError::from)?)
    }

    fn from_implicit_null(alloc: Global) -> Result<Box<T>, T::Error> {
        let meant = T::from_implicit_null(alloc)?;
        Ok(Box::new(alloc, meant).map_err(AllocError::from)?)
    }
}

/// A value means behind a shared pointer what it means at `T`.
impl<S, T: FromInputValue<S> + Drop> FromInputValue<S> for Rc<T> {
    type Error = T::Error;

    ghost means = { λ v shared. T.means v shared.value };

    ghost refuses = { T.refuses };

    ghost is_memory = { T.is_memory };

    ghost means_absent = { λ shared. T.means_absent shared.value };

    ghost refuses_absent = { T.refuses_absent };

    ghost apart = { λ v shared e. T.apart v shared.value e };

    ghost absent_apart = { λ shared e. T.absent_apart shared.value e };

    ghost memory = { T.memory };

    fn from_input_value(alloc: Global, value: &InputValue<S>) -> Result<Rc<T>, T::Error> {
        let meant = T::from_input_value(alloc, value)?;
        Ok(Rc::new(alloc, meant).map_err(AllocError::from)?)
    }

    fn from_implicit_null(alloc: Global) -> Result<Rc<T>, T::Error> {
        let meant = T::from_implicit_null(alloc)?;
        Ok(Rc::new(alloc, meant).map_err(AllocError::from)?)
    }
}
