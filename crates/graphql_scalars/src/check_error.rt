//! Why a value is none of a type.

ghost use Rattle.std.specs.Prelude.{◌≡◌, ◌≢◌, Some};
ghost use Rattle.graphql_scalars.specs.CheckErrors as spec;
ghost use Rattle.graphql_scalars.specs.ScalarText.{scalar_text};
ghost use Rattle.graphql_scalars.specs.declared.check_error.CheckError.TheVariants.{Message};
ghost use Rattle.graphql_scalars.specs.declared.check_error.CheckError.TheVariants.{Memory};

use crate::lent_scalar::Scalar;
use crate::scalar::ScalarValue;
use graphql_text::{Text, TextRef};
use std::alloc::{AllocError, AllocFailed, Global};
use std::fmt;
use thiserror::Error;

/// Why a value is none of a type, or want of memory.
#[derive(Debug, Drop, Error, PartialEq, Eq)]
pub enum CheckError {
    /// What is wrong with the value, in words.
    Message(Text),

    /// Memory ran out. It says nothing about the value.
    Memory,
}

impl CheckError {
    /// What is wrong with the value, in words; want of memory has none.
    pub fn message(&self) -> &str
        ensures { result.now ≡ spec.message self.now }
    {
        match self {
            CheckError::Message(text) => text.as_str(),
            CheckError::Memory => "",
        }
    }
}

impl Clone for CheckError {
    ghost is_clone = { λ error copy. copy ≡ error };

    /// The same error. An error of the call is want of memory.
    fn clone(&self) -> Result<CheckError, AllocError> {
        match self {
            CheckError::Message(text) => Ok(CheckError::Message(text.clone()?)),
            CheckError::Memory => Ok(CheckError::Memory),
        }
    }
}

impl From<AllocError> for CheckError {
    ghost from_gives = { λ _ e. e ≡ Memory };

    fn from(_error: AllocError) -> CheckError {
        CheckError::Memory
    }
}

impl<T: Drop> From<AllocFailed<T>> for CheckError {
    ghost from_gives = { λ _ e. e ≡ Memory };

    fn from(_error: AllocFailed<T>) -> CheckError {
        CheckError::Memory
    }
}

/// Writes what is wrong with the value, and `Out of memory` where memory ran out.
impl fmt::Display for CheckError {
    ghost output = { λ e. Some (spec.error_text e) };

    fn fmt<W: fmt::Write>(&self, f: &mut fmt::Formatter<W>) -> fmt::Result {
        match self {
            CheckError::Message(text) => write!(f, "{text}"),
            CheckError::Memory => write!(f, "Out of memory"),
        }
    }
}

/// A scalar that is none of a type: the type's name, and the scalar, lent (GraphQL October 2021,
/// 3.5 Scalars, input coercion).
#[derive(Debug, Drop, Error)]
pub struct WrongInputScalarTypeError<'a, S> {
    /// The name of the type.
    pub type_name: TextRef<'a>,

    /// The scalar that is none of the type.
    pub input: Scalar<'a, S>,
}

impl<'a, S: ScalarValue> WrongInputScalarTypeError<'a, S> {
    /// The error with this one's text as its message, or want of memory.
    pub fn to_check_error(&self, alloc: Global) -> CheckError
        ensures { result ≢ Memory
            → result
            ≡ Message (spec.wrong_type self.now.type_name (scalar_text (S.answer self.now.input))) }
    {
        match self.to_string(alloc) {
            Ok(text) => CheckError::Message(Text::from_string(text)),
            Err(_) => CheckError::Memory,
        }
    }
}

/// Writes which type was expected, and which scalar was found.
impl<'a, S: ScalarValue> fmt::Display for WrongInputScalarTypeError<'a, S> {
    ghost output = { λ e. Some (spec.wrong_type e.type_name (scalar_text (S.answer e.input))) };

    fn fmt<W: fmt::Write>(&self, f: &mut fmt::Formatter<W>) -> fmt::Result {
        let type_name = &self.type_name;
        let input = &self.input;
        write!(f, "Expected `{type_name}`, found: {input}")
    }
}
