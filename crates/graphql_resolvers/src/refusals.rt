//! Refusals of what is asked for.

ghost use Rattle.std.specs.Prelude.{◌++◌, codes};
ghost use Rattle.graphql_text.specs.Memory.{Gives};
ghost use Rattle.graphql_resolvers.specs.Asked.{refused};
ghost use Rattle.graphql_resolvers.specs.Refusals.{IsFailureOf};

use crate::failure::Failure;
use graphql_field_results::FieldError;
use graphql_text::Text;
use std::alloc::{AllocError, Global};

/// The reason: which argument, and what it is. An error is want of memory.
fn reason(alloc: Global, name: &str, what: &str) -> Result<Text, AllocError>
    ensures { Gives result (codes "Argument \"" ++ (name.now ++ (codes "\" is " ++ what.now))) }
{
    let mut text = Text::from_str(alloc, "Argument \"")?;
    text.push_str(name)?;
    text.push_str("\" is ")?;
    text.push_str(what)?;
    Ok(text)
}

/// The error of a field whose resolver asks for what the argument of this name is not.
pub(crate) fn refused(alloc: Global, name: &str, what: &str) -> Failure
    ensures { IsFailureOf (refused name.now what.now) result }
{
    match reason(alloc, name, what) {
        Ok(text) => Failure::Error(FieldError::of(text)),
        Err(_) => Failure::Memory,
    }
}
