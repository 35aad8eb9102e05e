//! Values of the program as answers of fields.

ghost use Rattle.std.specs.Prelude.{◌≡◌};

mod containers;
mod pointers;
mod scalars;

use graphql_field_results::{FieldResult, Resolved};
use std::alloc::Global;

/// A type whose values answer fields of schemas over the scalars `S`, with nodes `N` (GraphQL
/// October 2021, 6.4.2 Value Resolution).
pub trait IntoResolvable<S, N> {
    ghost use Rattle.std.specs.Prelude.{Result};
    ghost use Rattle.graphql_field_results.specs.Answered.{Answered};
    ghost use Rattle.graphql_field_results.specs.declared.field_error.FieldError.{FieldError};
    ghost use Rattle.graphql_field_results.specs.declared.resolved.Resolved.{Resolved};

    /// What a value answers, or the field's error that it is.
    ghost answer: { Self → Result (Resolved S N) (FieldError S) };

    /// What the value answers. `FieldFault::Error` comes exactly where the value is the error of
    /// the field, and `FieldFault::Memory` is want of memory, which tells nothing of the value.
    fn into_resolvable(self, alloc: Global) -> FieldResult<Resolved<S, N>, S>
        ensures { Answered (answer self) result };
}

/// A type whose clones answer what the value answers, so that a field may be answered by what is
/// lent.
pub trait AnswersByClones<S, N>: IntoResolvable<S, N> + Clone {
    /// A clone answers what the value answers.
    ghost clones_answer: { (x y : Self) → Self.is_clone x y → Self.answer y ≡ Self.answer x };
}
