//! Identifiers.

ghost use Rattle.std.specs.Prelude.{◌≡◌, ◌≢◌, Some, None, codes, string_bytes};
ghost use Rattle.std.specs.Fmt.{styled_text};
ghost use Rattle.graphql_values.specs.ConversionLaws.{answers_apart};
ghost use Rattle.graphql_values.specs.ConversionsOfScalars as conversion;
ghost use Rattle.graphql_values.specs.declared.input_value.InputValue.TheVariants as value;
ghost use Rattle.graphql_scalars.specs.CheckErrors.{wrong_type};
ghost use Rattle.graphql_scalars.specs.Conversions.{Refused};
ghost use Rattle.graphql_scalars.specs.ScalarText.{scalar_text};
ghost use Rattle.graphql_scalars.specs.ScalarAnswers.{as_text};
ghost use Rattle.graphql_text.specs.Memory.{Answers};
ghost use Rattle.graphql_scalars.specs.declared.check_error.CheckError.TheVariants.{Message};
ghost use Rattle.graphql_scalars.specs.declared.check_error.CheckError.TheVariants.{Memory};
ghost use Rattle.std.proofs.Common.{rules};
ghost use Rattle.graphql_input_types.specs.Identifiers as spec;

use graphql_scalars::{
    CheckError, FromScalarValue, ParseScalarResult, ParseScalarValue, Scalar, ScalarValue,
    ToScalarValue, WrongInputScalarTypeError,
};
use graphql_text::{ParseError, ScalarToken, Text, TextRef};
use graphql_values::{FromInputValue, InputValue, ToInputValue, no_scalar};
use std::alloc::{AllocError, Global};
use std::fmt::{Display, Formatter, Write};

/// An identifier: a text that is not meant to be read by people (GraphQL October 2021, 3.5.5 ID).
#[derive(Clone, Debug, Drop, PartialEq, Eq)]
pub struct ID {
    /// The text of the identifier.
    text: Text,
}

impl ID {
    /// The identifier of this text. Takes no memory.
    pub fn new(text: String) -> ID
        ensures { result.text ≡ string_bytes text }
    {
        ID {
            text: Text::from_string(text),
        }
    }

    /// The text of the identifier.
    pub fn as_str(&self) -> &str
        ensures { result.now ≡ self.now.text }
    {
        self.text.as_str()
    }
}

impl From<String> for ID {
    ghost from_gives = { λ text id. id.text ≡ string_bytes text };

    fn from(text: String) -> ID {
        ID::new(text)
    }
}

impl From<ID> for String {
    ghost from_gives = { λ id text. string_bytes text ≡ id.text };

    fn from(id: ID) -> String {
        id.text.into_string()
    }
}

/// The text of the identifier, as it stands.
impl Display for ID {
    ghost output = { λ id. Some id.text };

    ghost styled_output = { λ id style. Some (styled_text style id.text) };

    fn fmt<W: Write>(&self, f: &mut Formatter<W>) -> std::fmt::Result {
        f.pad(self.text.as_str())
    }
}

/// Reads strings, with their escapes decoded, and integers of 32 bits (3.5.5 ID, "Input Coercion").
/// The refusal of any other token is that of an integer.
impl<S: ScalarValue> ParseScalarValue<S> for ID {
    ghost reads = { spec.reads_id S.of_text S.of_int };

    fn from_str(alloc: Global, token: &ScalarToken<'_>) -> ParseScalarResult<S> {
        match <String as ParseScalarValue<S>>::from_str(alloc, token) {
            Ok(scalar) => Ok(scalar),
            Err(ParseError::Memory) => Err(ParseError::Memory),
            Err(_) => <i32 as ParseScalarValue<S>>::from_str(alloc, token),
        }
    }
}

/// The text that a scalar answers, or the decimal text of the integer that it answers (3.5.5 ID,
/// "Input Coercion").
impl<'s, S: ScalarValue> FromScalarValue<'s, S> for ID {
    type Error = CheckError;

    ghost means = { λ s id. spec.as_id (S.answer s) ≡ Some id.text };

    ghost refuses = { λ s e.
        Refused (codes "String` or `Int") (scalar_text (S.answer s)) (spec.as_id (S.answer s)) e };

    ghost is_memory = { λ e. e ≡ Memory };

    ghost apart = { Prim.search rules };

    ghost memory = { Prim.search rules };

    fn from_scalar_value(alloc: Global, scalar: &'s S) -> Result<ID, CheckError> {
        match scalar.try_as_str() {
            Some(text) => Ok(ID {
                text: Text::from_str(alloc, text)?,
            }),
            None => of_integer(alloc, scalar),
        }
    }
}

/// The decimal text of the integer that a scalar answers, which answers no text.
fn of_integer<S: ScalarValue>(alloc: Global, scalar: &S) -> Result<ID, CheckError>
    requires { as_text (S.answer scalar.now) ≡ None }
    ensures { Answers (λ id. spec.as_id (S.answer scalar.now) ≡ Some id.text)
        (Refused (codes "String` or `Int") (scalar_text (S.answer scalar.now))
        (spec.as_id (S.answer scalar.now))) (λ e. e ≡ Memory) result }
{
    match scalar.try_to_int() {
        Some(number) => Ok(ID::new(format!(in alloc; "{number}")?)),
        None => Err(refusal(alloc, "String` or `Int", scalar)),
    }
}

/// The refusal of a scalar that is of none of the types of these names.
fn refusal<S: ScalarValue>(alloc: Global, type_names: &str, scalar: &S) -> CheckError
    ensures { result ≢ Memory
        → result ≡ Message (wrong_type type_names.now (scalar_text (S.answer scalar.now))) }
{
    let error = WrongInputScalarTypeError {
        type_name: TextRef::new(type_names),
        input: Scalar::from(scalar),
    };
    error.to_check_error(alloc)
}

/// The scalar of the text (3.5.5 ID, "Result Coercion").
impl<S: ScalarValue> ToScalarValue<S> for ID {
    ghost scalar = { λ id. S.of_text id.text };

    fn to_scalar_value(&self, alloc: Global) -> Result<S, AllocError> {
        self.text.to_scalar_value(alloc)
    }
}

/// The text that a scalar answers, or the decimal text of the integer that it answers (3.5.5 ID,
/// "Input Coercion").
impl<S: ScalarValue> FromInputValue<S> for ID {
    type Error = CheckError;

    ghost means = { λ v id. conversion.MeansAnswer S.answer spec.as_id v id.text };

    ghost refuses = { conversion.RefusesAnswer (codes "String` or `Int") S.answer spec.as_id };

    ghost is_memory = { λ e. e ≡ Memory };

    ghost means_absent = { λ id. ⊥ };

    ghost refuses_absent = { λ e. e ≡ Message (conversion.no_scalar (codes "null")) };

    ghost apart = { λ v id. answers_apart (codes "String` or `Int") S.answer spec.as_id v id.text };

    ghost absent_apart = { λ id e impossible is. impossible };

    ghost memory = { λ _ e is. is };

    fn from_input_value(alloc: Global, value: &InputValue<S>) -> Result<ID, CheckError> {
        match value {
            InputValue::Scalar(scalar) => ID::from_scalar_value(alloc, scalar),
            other => Err(no_scalar(alloc, other)),
        }
    }

    fn from_implicit_null(alloc: Global) -> Result<ID, CheckError> {
        Err(no_scalar(alloc, &"null"))
    }
}

/// The scalar of the text (3.5.5 ID, "Result Coercion").
impl<S: ScalarValue> ToInputValue<S> for ID {
    ghost input = { λ id. value.Scalar (S.of_text id.text) };

    fn to_input_value(&self, alloc: Global) -> Result<InputValue<S>, AllocError> {
        Ok(InputValue::Scalar(self.text.to_scalar_value(alloc)?))
    }
}
