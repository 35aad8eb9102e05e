//! Errors of an execution.

ghost use Rattle.std.specs.Prelude.{◌≡◌, [], IsPermutation};
ghost use Rattle.std.specs.List.Sorted.{IsSorted};
ghost use Rattle.graphql_text.specs.Position.{origin};

use crate::field_error::FieldError;
use graphql_scalars::ScalarValue;
use graphql_text::{Items, SourcePosition, Text};
use std::alloc::{AllocError, Global};

/// A field that has no value (GraphQL October 2021, 7.1.2 Errors): where it stands in the request's
/// text, its path, which is the response keys from the root of the data down to it, and why. Errors
/// are ordered by their places, errors of one place by their paths, key by key, and errors of one
/// path by the bytes of their reasons. What is told beside a reason does not count.
#[derive(Drop)]
#[derive_where(PartialEq, Eq, PartialOrd, Ord)]
pub struct ExecutionError<S> {
    pub(crate) location: SourcePosition,
    pub(crate) path: Items<Text>,
    pub(crate) error: FieldError<S>,
}

impl<S> ExecutionError<S> {
    /// The error of a field at this place and of this path.
    pub fn new(
        location: SourcePosition,
        path: Items<Text>,
        error: FieldError<S>,
    ) -> ExecutionError<S>
        ensures { result ≡ record { location = location; path = path; error = error } }
    {
        ExecutionError {
            location,
            path,
            error,
        }
    }

    /// The error of no field: at the start of the text, with an empty path. Takes no memory.
    pub fn at_origin(alloc: Global, error: FieldError<S>) -> ExecutionError<S>
        ensures { result ≡ record { location = origin; path = []; error = error } }
    {
        ExecutionError::new(SourcePosition::new_origin(), Items::new(alloc), error)
    }

    /// Why the field has no value.
    pub fn error(&self) -> &FieldError<S>
        ensures { result.now ≡ self.now.error }
    {
        &self.error
    }

    /// Where the field starts.
    pub fn location(&self) -> &SourcePosition
        ensures { result.now ≡ self.now.location }
    {
        &self.location
    }

    /// The response keys from the root of the data down to the field.
    pub fn path(&self) -> &[Text]
        ensures { result.now ≡ self.now.path }
    {
        self.path.as_slice()
    }
}

impl<S: ScalarValue + Drop> Clone for ExecutionError<S> {
    ghost is_clone = { λ error copy. copy ≡ error };

    /// The same error. An error of the call is want of memory. It takes stack for each level of
    /// what is told beside the reason.
    fn clone(&self) -> Result<ExecutionError<S>, AllocError> {
        let path = self.path.clone()?;
        let error = self.error.clone()?;
        Ok(ExecutionError::new(self.location, path, error))
    }
}

/// The same errors in order: by their places, then by their paths, then by their reasons. Takes no
/// memory.
pub fn in_order<S: Drop>(errors: Items<ExecutionError<S>>) -> Items<ExecutionError<S>>
    ensures permutation { IsPermutation errors result }
    ensures sorted { IsSorted ⟦<ExecutionError<S> as Ord>⟧.cmp result }
{
    let mut errors = errors.into_vec();
    errors.sort_unstable();
    Items::from_vec(errors)
}
