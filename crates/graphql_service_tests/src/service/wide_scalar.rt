//! A second type of scalars.

ghost use Rattle.std.specs.Prelude.{◌≡◌, Result, refl};
ghost use Rattle.graphql_text.specs.Memory.{Meets};
ghost use Rattle.graphql_text.specs.declared.parse_error.ParseError.{ParseError};
ghost use Rattle.graphql_scalars.specs.Reading.{IsMemory};
ghost use Rattle.graphql_scalars.specs.declared.default_scalar.DefaultScalarValue.{DefaultScalarValue};
ghost use Rattle.graphql_service_tests.specs.WideScalars as spec;
ghost use Rattle.graphql_service_tests.specs.declared.service.wide_scalar.WideScalar.TheVariants as wide;

use graphql_scalars::{
    CheckError, DefaultScalarValue, ParseScalarResult, ParseScalarValue, ScalarValue,
};
use graphql_schema::{Check, SchemaScalar};
use graphql_text::{ParseError, ScalarToken, Text};
use graphql_values::{InputValue, no_scalar};
use std::alloc::{AllocError, Global};

/// A boolean, a text or an integer, which may be wider than 32 bits: then it is kept by its digits,
/// and answers as a text.
#[derive(Debug, Drop, PartialEq, Eq)]
pub enum WideScalar {
    /// An integer of 32 bits.
    Int(i32),

    /// A wider integer, by its digits.
    Long(Text),

    /// A text.
    String(Text),

    /// A boolean.
    Boolean(bool),
}

impl Clone for WideScalar {
    ghost is_clone = { λ scalar copy. copy ≡ scalar };

    /// The same scalar. An error is want of memory.
    fn clone(&self) -> Result<WideScalar, AllocError> {
        match self {
            WideScalar::Int(value) => Ok(WideScalar::Int(*value)),
            WideScalar::Long(digits) => Ok(WideScalar::Long(digits.clone()?)),
            WideScalar::String(text) => Ok(WideScalar::String(text.clone()?)),
            WideScalar::Boolean(value) => Ok(WideScalar::Boolean(*value)),
        }
    }
}

/// The same scalar.
fn widened(scalar: DefaultScalarValue) -> WideScalar
    ensures { result ≡ spec.widened scalar }
{
    match scalar {
        DefaultScalarValue::Int(value) => WideScalar::Int(value),
        DefaultScalarValue::String(text) => WideScalar::String(text),
        DefaultScalarValue::Boolean(value) => WideScalar::Boolean(value),
    }
}

/// The same scalar, or the same refusal.
fn as_read(narrow: ParseScalarResult<DefaultScalarValue>) -> ParseScalarResult<WideScalar>
    ensures { (wanted : Result DefaultScalarValue ParseError) → Meets IsMemory narrow wanted
        → Meets IsMemory result (spec.as_read wanted) }
{
    match narrow {
        Ok(scalar) => Ok(widened(scalar)),
        Err(refusal) => Err(refusal),
    }
}

/// The same scalar, or an integer of these digits.
fn or_long(
    alloc: Global,
    digits: &str,
    narrow: ParseScalarResult<DefaultScalarValue>,
) -> ParseScalarResult<WideScalar>
    ensures { (wanted : Result DefaultScalarValue ParseError) → Meets IsMemory narrow wanted
        → Meets IsMemory result (spec.or_long digits.now wanted) }
{
    match narrow {
        Ok(scalar) => Ok(widened(scalar)),
        Err(ParseError::Memory) => Err(ParseError::Memory),
        Err(_) => Ok(WideScalar::Long(Text::from_str(alloc, digits)?)),
    }
}

/// Reads what the default scalars read, and wider integers.
impl ParseScalarValue<WideScalar> for WideScalar {
    ghost reads = { spec.reads };

    fn from_str(alloc: Global, token: &ScalarToken<'_>) -> ParseScalarResult<WideScalar> {
        let narrow = <DefaultScalarValue as ParseScalarValue<DefaultScalarValue>>::from_str(
            alloc, token,
        );
        match token {
            ScalarToken::Int(digits) => or_long(alloc, digits.as_str(), narrow),
            ScalarToken::String(_) | ScalarToken::Float(_) => as_read(narrow),
        }
    }
}

impl ScalarValue for WideScalar {
    ghost of_bool = { wide.Boolean };

    ghost of_int = { wide.Int };

    ghost of_text = { wide.String };

    ghost answer = { spec.wide_answer };

    ghost clones = { λ x y is. is };

    ghost bool_answers = { λ b. refl };

    ghost int_answers = { λ n fits. refl };

    ghost text_answers = { λ text utf8. refl };

    fn from_bool(value: bool) -> WideScalar {
        WideScalar::Boolean(value)
    }

    fn from_int(value: i32) -> WideScalar {
        WideScalar::Int(value)
    }

    fn from_string(value: std::string::String) -> WideScalar {
        WideScalar::String(Text::from_string(value))
    }

    fn try_to_bool(&self) -> Option<bool> {
        match self {
            WideScalar::Boolean(value) => Some(*value),
            WideScalar::Int(_) | WideScalar::Long(_) | WideScalar::String(_) => None,
        }
    }

    fn try_to_int(&self) -> Option<i32> {
        match self {
            WideScalar::Int(value) => Some(*value),
            WideScalar::Long(_) | WideScalar::String(_) | WideScalar::Boolean(_) => None,
        }
    }

    fn try_as_str(&self) -> Option<&str> {
        match self {
            WideScalar::Long(digits) => Some(digits.as_str()),
            WideScalar::String(text) => Some(text.as_str()),
            WideScalar::Int(_) | WideScalar::Boolean(_) => None,
        }
    }

    fn try_into_string(self) -> Option<std::string::String> {
        match self {
            WideScalar::Long(digits) => Some(digits.into_string()),
            WideScalar::String(text) => Some(text.into_string()),
            WideScalar::Int(_) | WideScalar::Boolean(_) => None,
        }
    }
}

/// Accepts each scalar, and nothing else.
#[derive(Drop)]
pub struct AnyScalar {
    pub alloc: Global,
}

impl Check<WideScalar> for AnyScalar {
    ghost use Rattle.std.specs.Prelude.{true};
    ghost use Rattle.graphql_service_tests.specs.AnyScalars.{is_scalar, scalar_again};

    ghost accepts = { λ _ value. is_scalar value ≡ true };

    ghost respects_same = { λ _ a b same accepted. scalar_again _ a b same accepted };

    fn check(&self, value: &InputValue<WideScalar>) -> Result<(), CheckError> {
        match value {
            InputValue::Scalar(_) => Ok(()),
            InputValue::Null
            | InputValue::Enum(_)
            | InputValue::Variable(_)
            | InputValue::List(_)
            | InputValue::Object(_) => Err(no_scalar(self.alloc, value)),
        }
    }
}

impl SchemaScalar for WideScalar {
    type Check = AnyScalar;
}
