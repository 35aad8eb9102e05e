//! What leaves are.

ghost use Rattle.std.specs.Prelude.{◌≡◌, map};
ghost use Rattle.std.specs.Option.{option_and_then, option_map};
ghost use Rattle.graphql_text.specs.Memory.{Gives};
ghost use Rattle.graphql_resolvers.specs.Asked.{as_id, as_int, as_word, is_among};
ghost use Rattle.graphql_resolvers.specs.Inputs.{leaf_of};

use graphql_scalars::DefaultScalarValue;
use graphql_text::Text;
use graphql_values::InputValue;
use std::alloc::{AllocError, Global};

/// The id that a scalar is, a text or an integer, as a text (GraphQL October 2021, 3.5.5 ID);
/// `None` where it is none. An error is want of memory.
pub(crate) fn id_of(alloc: Global, scalar: &DefaultScalarValue) -> Result<Option<Text>, AllocError>
    ensures { Gives result (as_id scalar.now) }
{
    match scalar {
        DefaultScalarValue::String(text) => Ok(Some(text.clone()?)),
        DefaultScalarValue::Int(value) => { Ok(Some(Text::from_string(value.to_string(alloc)?))) }
        DefaultScalarValue::Boolean(_) => Ok(None),
    }
}

/// The id that a value is; `None` where it is none. An error is want of memory.
pub(crate) fn id_in(
    alloc: Global,
    value: &InputValue<DefaultScalarValue>,
) -> Result<Option<Text>, AllocError>
    ensures { Gives result (option_and_then as_id (leaf_of value.now)) }
{
    match value {
        InputValue::Scalar(scalar) => id_of(alloc, scalar),
        InputValue::Enum(name) => Ok(Some(name.clone()?)),
        _ => Ok(None),
    }
}

/// The text, or the name of the enum value, that a value is; `None` where it is neither.
pub(crate) fn word_in(value: &InputValue<DefaultScalarValue>) -> Option<&str>
    ensures { option_map (λ word. word.now) result ≡ option_and_then as_word (leaf_of value.now) }
{
    match value {
        InputValue::Scalar(DefaultScalarValue::String(text)) => Some(text.as_str()),
        InputValue::Enum(name) => Some(name.as_str()),
        _ => None,
    }
}

/// The integer that a value is; `None` where it is none.
pub(crate) fn int_in(value: &InputValue<DefaultScalarValue>) -> Option<i32>
    ensures { result ≡ option_and_then as_int (leaf_of value.now) }
{
    match value {
        InputValue::Scalar(DefaultScalarValue::Int(value)) => Some(*value),
        _ => None,
    }
}

/// Whether a text is among these.
pub fn is_among(word: &str, words: &[&str]) -> bool
    ensures { result ≡ is_among word.now (map (λ other. other.now) words.now) }
{
    'words: for other in words {
        if word == *other {
            return true;
        }
    }
    false
}
