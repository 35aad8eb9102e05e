//! What a type offers whose values are read from input values.

ghost use Rattle.std.specs.Prelude.{◌≡◌};
ghost use Rattle.std.specs.declared.alloc.AllocError.{AllocError};
ghost use Rattle.graphql_values.specs.declared.input_value.InputValue.{InputValue};
ghost use Rattle.graphql_text.specs.Memory.{Answers};

use crate::input_value::InputValue;
use std::alloc::{AllocError, Global};

/// A type whose values are read from input values (GraphQL October 2021, 3.4.2 Input and Output
/// Types, "Input Coercion" of each type).
pub trait FromInputValue<S>: Sized {
    /// Why a value means nothing at this type, or want of memory.
    type Error: From<AllocError>;

    /// What a value means at this type.
    ghost means: { InputValue S → Self → Type 0 };

    /// Why a value means nothing at this type.
    ghost refuses: { InputValue S → Self.Error → Type 0 };

    /// An error that is want of memory, and tells nothing of the value.
    ghost is_memory: { Self.Error → Type 0 };

    /// What an absent value means at this type.
    ghost means_absent: { Self → Type 0 };

    /// Why an absent value means nothing at this type.
    ghost refuses_absent: { Self.Error → Type 0 };

    /// What the value means at this type. An error says why it means nothing, or is want of memory.
    fn from_input_value(alloc: Global, value: &InputValue<S>) -> Result<Self, Self::Error>
        ensures { Answers (means value.now) (refuses value.now) is_memory result };

    /// What it means at this type that no value is given. An error says why it means nothing, or is
    /// want of memory.
    fn from_implicit_null(alloc: Global) -> Result<Self, Self::Error>
        ensures { Answers means_absent refuses_absent is_memory result };

    /// No value both means something and is refused.
    ghost apart: { (v : InputValue S) (x : Self) (e : Self.Error) → means v x → refuses v e → ⊥ };

    /// An absent value does not both mean something and be refused.
    ghost absent_apart: { (x : Self) (e : Self.Error) → means_absent x → refuses_absent e → ⊥ };

    /// An error that is made from want of memory is want of memory.
    ghost memory: { (a : AllocError) (e : Self.Error) → Self.Error.from_gives a e → is_memory e };
}

impl<S> InputValue<S> {
    /// What the value means at the type `T`. Of the types of this crate each takes stack for its
    /// own levels, and no more where the value nests deeper. An error says why it means nothing, or
    /// is want of memory.
    pub fn convert<T: FromInputValue<S>>(&self, alloc: Global) -> Result<T, T::Error>
        ensures { Answers (T.means self.now) (T.refuses self.now) T.is_memory result }
    {
        T::from_input_value(alloc, self)
    }
}
