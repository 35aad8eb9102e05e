//! The scalars of a schema that declares none of its own.

ghost use Rattle.std.specs.Prelude.{◌≡◌, Some, refl, string_bytes};
ghost use Rattle.graphql_scalars.specs.DefaultScalar as spec;
ghost use Rattle.graphql_scalars.specs.ScalarText.{plain_text};
ghost use Rattle.graphql_scalars.specs.declared.default_scalar.DefaultScalarValue.TheVariants.{
  Int,
  String,
  Boolean,
};

use crate::int_value::int_value;
use crate::literals::refusal;
use crate::scalar::{ParseScalarResult, ParseScalarValue, ScalarValue};
use crate::string_value::string_value;
use graphql_text::{ParseError, ScalarToken, Text};
use std::alloc::{AllocError, Global};
use std::fmt;

/// An integer of 32 bits, a text or a boolean (GraphQL October 2021, 3.5.1 Int, 3.5.3 String,
/// 3.5.4 Boolean).
#[derive(Debug, Drop, PartialEq, Eq)]
pub enum DefaultScalarValue {
    /// An integer.
    Int(i32),

    /// A text.
    String(Text),

    /// A boolean.
    Boolean(bool),
}

impl From<i32> for DefaultScalarValue {
    ghost from_gives = { λ value scalar. scalar ≡ Int value };

    fn from(value: i32) -> DefaultScalarValue {
        DefaultScalarValue::Int(value)
    }
}

impl From<Text> for DefaultScalarValue {
    ghost from_gives = { λ value scalar. scalar ≡ String value };

    fn from(value: Text) -> DefaultScalarValue {
        DefaultScalarValue::String(value)
    }
}

impl From<std::string::String> for DefaultScalarValue {
    ghost from_gives = { λ value scalar. scalar ≡ String (string_bytes value) };

    fn from(value: std::string::String) -> DefaultScalarValue {
        DefaultScalarValue::String(Text::from_string(value))
    }
}

impl From<bool> for DefaultScalarValue {
    ghost from_gives = { λ value scalar. scalar ≡ Boolean value };

    fn from(value: bool) -> DefaultScalarValue {
        DefaultScalarValue::Boolean(value)
    }
}

impl Clone for DefaultScalarValue {
    ghost is_clone = { λ x y. y ≡ x };

    /// The same scalar. An error is want of memory.
    fn clone(&self) -> Result<DefaultScalarValue, AllocError> {
        match self {
            DefaultScalarValue::Int(value) => Ok(DefaultScalarValue::Int(*value)),
            DefaultScalarValue::String(text) => Ok(DefaultScalarValue::String(text.clone()?)),
            DefaultScalarValue::Boolean(value) => Ok(DefaultScalarValue::Boolean(*value)),
        }
    }
}

/// Writes an integer in decimal, a boolean as `true` or `false`, and a text as it stands, without
/// quotes.
impl fmt::Display for DefaultScalarValue {
    ghost output = { λ scalar. Some (plain_text (spec.scalar_answer scalar)) };

    fn fmt<W: fmt::Write>(&self, f: &mut fmt::Formatter<W>) -> fmt::Result {
        match self {
            DefaultScalarValue::Int(value) => write!(f, "{value}"),
            DefaultScalarValue::String(text) => write!(f, "{text}"),
            DefaultScalarValue::Boolean(value) => write!(f, "{value}"),
        }
    }
}

/// Reads strings, with their escapes decoded, and integers of 32 bits. A number with a fraction or
/// an exponent is refused, and so is an integer of more bits.
impl ParseScalarValue<DefaultScalarValue> for DefaultScalarValue {
    ghost reads = { spec.reads };

    fn from_str(alloc: Global, token: &ScalarToken<'_>) -> ParseScalarResult<DefaultScalarValue> {
        match token {
            ScalarToken::String(source) => match string_value(alloc, source.as_str()) {
                Ok(text) => Ok(DefaultScalarValue::String(text)),
                Err(refusal) => Err(refusal),
            },
            ScalarToken::Int(source) => match int_value(source.as_str()) {
                Some(value) => Ok(DefaultScalarValue::Int(value)),
                None => refusal(alloc, token),
            },
            ScalarToken::Float(_) => {
                let words = Text::from_str(alloc, "There needs to be a Float type")?;
                Err(ParseError::ExpectedScalarError(words))
            }
        }
    }
}

impl ScalarValue for DefaultScalarValue {
    ghost of_bool = { Boolean };

    ghost of_int = { Int };

    ghost of_text = { String };

    ghost answer = { spec.scalar_answer };

    ghost clones = { λ x y is. is };

    ghost bool_answers = { λ b. refl };

    ghost int_answers = { λ n fits. refl };

    ghost text_answers = { λ text utf8. refl };

    fn from_bool(value: bool) -> DefaultScalarValue {
        DefaultScalarValue::Boolean(value)
    }

    fn from_int(value: i32) -> DefaultScalarValue {
        DefaultScalarValue::Int(value)
    }

    fn from_string(value: std::string::String) -> DefaultScalarValue {
        DefaultScalarValue::String(Text::from_string(value))
    }

    fn try_to_bool(&self) -> Option<bool> {
        match self {
            DefaultScalarValue::Boolean(value) => Some(*value),
            DefaultScalarValue::Int(_) | DefaultScalarValue::String(_) => None,
        }
    }

    fn try_to_int(&self) -> Option<i32> {
        match self {
            DefaultScalarValue::Int(value) => Some(*value),
            DefaultScalarValue::String(_) | DefaultScalarValue::Boolean(_) => None,
        }
    }

    fn try_as_str(&self) -> Option<&str> {
        match self {
            DefaultScalarValue::String(text) => Some(text.as_str()),
            DefaultScalarValue::Int(_) | DefaultScalarValue::Boolean(_) => None,
        }
    }

    fn try_into_string(self) -> Option<std::string::String> {
        match self {
            DefaultScalarValue::String(text) => Some(text.into_string()),
            DefaultScalarValue::Int(_) | DefaultScalarValue::Boolean(_) => None,
        }
    }
}
