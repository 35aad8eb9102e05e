//! What tokens mean to the types that scalars are made of, at every scalar type.

ghost use Rattle.graphql_text.specs.Memory.{Meets};
ghost use Rattle.graphql_scalars.specs.IntValue.{int_value};
ghost use Rattle.graphql_scalars.specs.Literals as spec;
ghost use Rattle.graphql_scalars.specs.Reading.{IsMemory};
ghost use Rattle.graphql_scalars.specs.StringValue.{string_value};

use crate::int_value::int_value;
use crate::scalar::{ParseScalarResult, ParseScalarValue, ScalarValue};
use crate::string_value::string_value;
use graphql_text::{ParseError, ScalarToken, Text};
use std::alloc::Global;

/// The refusal of a token, by its source text.
pub(crate) fn refusal<S>(alloc: Global, token: &ScalarToken<'_>) -> ParseScalarResult<S>
    ensures { Meets IsMemory result (spec.unexpected_token token.now) }
{
    match token.to_string(alloc) {
        Ok(source) => Err(ParseError::UnexpectedToken(Text::from_string(source))),
        Err(_) => Err(ParseError::Memory),
    }
}

/// The scalar of a string with this source text.
fn text_scalar<S: ScalarValue>(alloc: Global, source: &str) -> ParseScalarResult<S>
    ensures { Meets IsMemory result (spec.scalar_of_text S.of_text (string_value source.now)) }
{
    match string_value(alloc, source) {
        Ok(text) => Ok(S::from_string(text.into_string())),
        Err(refusal) => Err(refusal),
    }
}

/// The scalar of a token that is an integer with this source text, if it is one of 32 bits.
fn int_scalar<S: ScalarValue>(
    alloc: Global,
    source: &str,
    token: &ScalarToken<'_>,
) -> ParseScalarResult<S>
    ensures { Meets IsMemory result
        (spec.int_or S.of_int (int_value source.now) (spec.unexpected_token token.now)) }
{
    match int_value(source) {
        Some(value) => Ok(S::from_int(value)),
        None => refusal(alloc, token),
    }
}

/// Reads strings alone, with their escapes decoded (GraphQL October 2021, 3.5.3 String).
impl<S: ScalarValue> ParseScalarValue<S> for String {
    ghost reads = { spec.reads_text S.of_text };

    fn from_str(alloc: Global, token: &ScalarToken<'_>) -> ParseScalarResult<S> {
        match token {
            ScalarToken::String(source) => text_scalar(alloc, source.as_str()),
            ScalarToken::Int(_) | ScalarToken::Float(_) => refusal(alloc, token),
        }
    }
}

/// Reads integers of 32 bits alone (3.5.1 Int).
impl<S: ScalarValue> ParseScalarValue<S> for i32 {
    ghost reads = { spec.reads_int S.of_int };

    fn from_str(alloc: Global, token: &ScalarToken<'_>) -> ParseScalarResult<S> {
        match token {
            ScalarToken::Int(source) => int_scalar(alloc, source.as_str(), token),
            ScalarToken::String(_) | ScalarToken::Float(_) => refusal(alloc, token),
        }
    }
}

/// Reads nothing: `true` and `false` are names, and no scalar tokens (3.5.4 Boolean).
impl<S: ScalarValue> ParseScalarValue<S> for bool {
    ghost reads = { spec.unexpected_token };

    fn from_str(alloc: Global, token: &ScalarToken<'_>) -> ParseScalarResult<S> {
        refusal(alloc, token)
    }
}
