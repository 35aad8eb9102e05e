//! Errors of fields.

ghost use Rattle.std.specs.Prelude.{◌≡◌, ◌↔◌, IfSome, IsTrue, Some};
ghost use Rattle.graphql_text.specs.Memory.{Gives};
ghost use Rattle.graphql_output_values.specs.Values.{Turns, map_scalars};
ghost use Rattle.graphql_output_values.specs.declared.value.Value.TheVariants as value;

use graphql_output_values::Value;
use graphql_scalars::ScalarValue;
use graphql_text::Text;
use std::alloc::{AllocError, Global};
use std::fmt::{self, Display};
use thiserror::Error;

/// Why a field has no value (GraphQL October 2021, 6.4.4 Handling Field Errors): a reason in words,
/// and what is told beside it (7.1.2 Errors). Errors are ordered by their reasons alone, and `==`
/// is that of this order; `tells_the_same` compares what is told beside the reasons too.
#[derive(Debug, Drop, Error)]
#[derive_where(PartialEq, Eq, PartialOrd, Ord)]
pub struct FieldError<S> {
    message: Text,
    #[derive_where(skip(EqHashOrd))]
    extensions: Value<S>,
}

impl<S> FieldError<S> {
    /// The error whose reason is what `{}` writes of the value, with what is told beside it: `null`
    /// where that is nothing. An error of the call is want of memory.
    pub fn new<T: Display>(
        alloc: Global,
        error: &T,
        extensions: Value<S>,
    ) -> Result<FieldError<S>, AllocError>
    where
        S: Drop,
        ensures { IfSome (T.output error.now)
            (λ text. Gives result (record { message = text; extensions = extensions })) }
    {
        let message = Text::from_string(error.to_string(alloc)?);
        Ok(FieldError::with_extensions(message, extensions))
    }

    /// The error of this reason, with what is told beside it: `null` where that is nothing. Takes
    /// no memory.
    pub fn with_extensions(message: Text, extensions: Value<S>) -> FieldError<S>
        ensures { result ≡ record { message = message; extensions = extensions } }
    {
        FieldError {
            message,
            extensions,
        }
    }

    /// The error of this reason, with nothing told beside it.
    pub fn of(message: Text) -> FieldError<S>
        ensures { result ≡ record { message = message; extensions = value.Null } }
    {
        FieldError::with_extensions(message, Value::Null)
    }

    /// The reason, in words.
    pub fn message(&self) -> &str
        ensures { result.now ≡ self.now.message }
    {
        self.message.as_str()
    }

    /// What is told beside the reason.
    pub fn extensions(&self) -> &Value<S>
        ensures { result.now ≡ self.now.extensions }
    {
        &self.extensions
    }

    /// Whether the errors have the same reason, and equal values are told beside it: objects are
    /// equal in whatever order their keys stand. It takes stack for each level of what both tell.
    pub fn tells_the_same(&self, other: &FieldError<S>) -> bool
    where
        S: PartialEq,
        ensures { IsTrue result ↔ ((self.now.message ≡ other.now.message)
            × IsTrue (⟦<Value<S> as PartialEq>⟧.eq self.now.extensions other.now.extensions)) }
    {
        self.message.is(other.message()) && self.extensions == other.extensions
    }

    /// The error with another reason: the one that the function makes of its own. What is told
    /// beside it stays.
    pub fn map_message<F: FnOnce(Text) -> Text>(self, turn: F) -> FieldError<S>
        requires { F.pre turn self.message }
        ensures message { F.post turn self.message result.message }
        ensures extensions { result.extensions ≡ self.extensions }
    {
        FieldError::with_extensions(turn(self.message), self.extensions)
    }

    /// The error with each scalar mapped in what is told beside the reason, whose keys stay as they
    /// are. An error of the call is want of memory. It takes stack for each level of what is told.
    pub fn map_scalar_value<T: Drop, F: Fn(S) -> T + Drop>(
        self,
        turn: F,
    ) -> Result<FieldError<T>, AllocError>
    where
        S: Drop,
        requires { (s : S) → F.pre turn s }
        ensures { (f : S → T) → Turns (F.post turn) f
            → Gives result
            (record { message = self.message; extensions = map_scalars f self.extensions }) }
    {
        let extensions = self.extensions.map_scalar_value(turn)?;
        Ok(FieldError::with_extensions(self.message, extensions))
    }
}

impl<S: ScalarValue + Drop> Clone for FieldError<S> {
    ghost is_clone = { λ error copy. copy ≡ error };

    /// The same error. An error of the call is want of memory. It takes stack for each level of
    /// what is told beside the reason.
    fn clone(&self) -> Result<FieldError<S>, AllocError> {
        let message = self.message.clone()?;
        let extensions = self.extensions.clone()?;
        Ok(FieldError::with_extensions(message, extensions))
    }
}

/// Writes the reason.
impl<S> fmt::Display for FieldError<S> {
    ghost output = { λ error. Some error.message };

    fn fmt<W: fmt::Write>(&self, f: &mut fmt::Formatter<W>) -> fmt::Result {
        f.write_str(self.message())
    }
}
