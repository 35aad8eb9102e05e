//! Laws of errors: each function's contract is a law, and its body does nothing.

ghost use Rattle.std.specs.Prelude.{◌≡◌, ◌↔◌, IsTrue};
ghost use Rattle.std.specs.Cmp.Lexicographic.{slice_cmp};
ghost use Rattle.std.specs.Ordering.{nat_cmp, ordering_then};
ghost use Rattle.graphql_field_results.specs.IntoFieldErrors.{IsReason};
ghost use Rattle.graphql_field_results.specs.declared.execution_error.ExecutionError.{ExecutionError};

use crate::execution_error::ExecutionError;
use crate::field_error::FieldError;
use crate::into_field_error::IntoFieldError;
use graphql_scalars::{CheckError, ScalarValue, WrongInputScalarTypeError};
use graphql_text::{SourcePosition, Text};
use graphql_values::{FromInputValue, FromInputValueArrayError, FromInputValueVecError};
use std::fmt::Display;

/// Of two errors the one whose place comes first is first; of one place the one whose path is
/// first, key by key and by the bytes of the keys, where a path comes before those that it begins;
/// of one path the one whose reason is first by its bytes. What is told beside a reason does not
/// count.
pub fn errors_by_place_path_reason<S>()
    ensures { (a b : ExecutionError S)
        → ⟦<ExecutionError<S> as Ord>⟧.cmp a b
        ≡ ordering_then (⟦<SourcePosition as Ord>⟧.cmp a.location b.location)
        (ordering_then (slice_cmp (slice_cmp nat_cmp) a.path b.path)
        (slice_cmp nat_cmp a.error.message b.error.message)) }
{}

/// The reason that an error of another type gives is the text that it writes.
pub fn reasons_are_texts<'a, S, T: ScalarValue + 'a>()
    ensures own { (error : _)
        → IsReason (⟦<FieldError<S> as IntoFieldError<S>>⟧.becomes error)
        (⟦<FieldError<S> as Display>⟧.output error) }
    ensures text { (text : _)
        → IsReason (⟦<Text as IntoFieldError<S>>⟧.becomes text) (⟦<Text as Display>⟧.output text) }
    ensures string { (text : _)
        → IsReason (⟦<String as IntoFieldError<S>>⟧.becomes text)
        (⟦<String as Display>⟧.output text) }
    ensures scalar { (error : _)
        → IsReason (⟦<CheckError as IntoFieldError<S>>⟧.becomes error)
        (⟦<CheckError as Display>⟧.output error) }
    ensures wrong_type { (error : _)
        → IsReason (⟦<WrongInputScalarTypeError<'a, T> as IntoFieldError<S>>⟧.becomes error)
        (⟦<WrongInputScalarTypeError<'a, T> as Display>⟧.output error) }
{}

/// The reason that the error of a list gives, of any length or of one, is the text that it writes,
/// if those of items are.
pub fn reasons_of_lists_are_texts<S, T: FromInputValue<S>>()
where
    T::Error: IntoFieldError<S> + Display,
    ensures list { ((e : _) → IsReason (T.Error.becomes e) (T.Error.output e)) → (error : _)
        → IsReason (⟦<FromInputValueVecError<T, S> as IntoFieldError<S>>⟧.becomes error)
        (⟦<FromInputValueVecError<T, S> as Display>⟧.output error) }
    ensures array { ((e : _) → IsReason (T.Error.becomes e) (T.Error.output e)) → (error : _)
        → IsReason (⟦<FromInputValueArrayError<T, S> as IntoFieldError<S>>⟧.becomes error)
        (⟦<FromInputValueArrayError<T, S> as Display>⟧.output error) }
{}
