//! What is told beside a value.

ghost use Rattle.std.specs.Prelude.{◌≡◌, ◌++◌, [], ◌∷◌, OnOk};
ghost use Rattle.graphql_execution_walk.specs.Paths.{up};

use crate::field_path::copied_keys;
use graphql_field_results::{ExecutionError, FieldError};
use graphql_text::{Items, SourcePosition, TextRef};
use std::alloc::{AllocError, Global};

/// Where an execution stands, and the fields that had no value so far.
#[derive(Drop)]
pub struct Report<'d, S> {
    /// The response keys from the root of the data down to the field that is answered.
    pub path: Items<TextRef<'d>>,

    /// The errors so far, in the order in which they came.
    pub errors: Items<ExecutionError<S>>,
}

impl<'d, S> Report<'d, S> {
    /// A report of nothing, at the root. Takes no memory.
    pub fn new(alloc: Global) -> Report<'d, S>
        ensures { result ≡ record { path = []; errors = [] } }
    {
        Report {
            path: Items::new(alloc),
            errors: Items::new(alloc),
        }
    }

    /// Goes down to a field. An error is want of memory.
    pub fn enter(&mut self, key: &TextRef<'d>) -> Result<(), AllocError>
        ensures path { OnOk result (self.new.path ≡ self.old.path ++ key.now ∷ []) }
        ensures errors { OnOk result (self.new.errors ≡ self.old.errors) }
    {
        self.path.push(key.copied())?;
        Ok(())
    }

    /// Goes up again.
    pub fn leave(&mut self)
        ensures path { self.new.path ≡ up self.old.path }
        ensures errors { self.new.errors ≡ self.old.errors }
    {
        let _ = self.path.pop();
    }

    /// Tells that the field at which it stands has no value. An error is want of memory.
    pub fn fail(
        &mut self,
        alloc: Global,
        location: SourcePosition,
        error: FieldError<S>,
    ) -> Result<(), AllocError>
    where
        S: Drop,
        ensures path { OnOk result (self.new.path ≡ self.old.path) }
        ensures errors { OnOk result (self.new.errors
            ≡ self.old.errors
            ++ record { location = location; path = self.old.path; error = error } ∷ []) }
    {
        let path = copied_keys(alloc, self.path.as_slice())?;
        self.errors
            .push(ExecutionError::new(location, path, error))?;
        Ok(())
    }
}
