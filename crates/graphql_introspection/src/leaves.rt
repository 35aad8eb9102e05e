//! Leaves as answers: texts, truth values, and the names of kinds and of places.

ghost use Rattle.std.specs.Prelude.{◌≡◌};
ghost use Rattle.std.specs.Option.{option_map};
ghost use Rattle.graphql_text.specs.Memory.{Gives};
ghost use Rattle.graphql_values.specs.InputValueText.{input_value_text};
ghost use Rattle.graphql_introspection.specs.Leaves as spec;

use crate::names::{kind_name, location_name};
use crate::nodes::SchemaAnswer;
use graphql_field_results::Resolved;
use graphql_scalars::ScalarValue;
use graphql_schema::{DirectiveLocation, SchemaScalar, TypeKind};
use graphql_text::{Items, Text};
use graphql_values::InputValue;
use std::alloc::{AllocError, Global};

/// A text as a scalar. An error is want of memory.
fn scalar_of<S: ScalarValue>(alloc: Global, text: &str) -> Result<S, AllocError>
    ensures { Gives result (S.of_text text.now) }
{
    Ok(S::from_string(Text::from_str(alloc, text)?.into_string()))
}

/// A text. An error is want of memory.
pub fn text<'s, S: SchemaScalar>(
    alloc: Global,
    text: &str,
) -> Result<SchemaAnswer<'s, S>, AllocError>
    ensures { Gives result (spec.text S.of_text text.now) }
{
    Ok(Resolved::Scalar(scalar_of(alloc, text)?))
}

/// A text, or `null` where there is none. An error is want of memory.
pub fn text_or_null<'s, S: SchemaScalar>(
    alloc: Global,
    words: Option<&str>,
) -> Result<SchemaAnswer<'s, S>, AllocError>
    ensures { Gives result
        (spec.text_or_null S.of_text (option_map (λ text. text.now) words.entry)) }
{
    match words {
        Some(words) => text(alloc, words),
        None => Ok(Resolved::Null),
    }
}

/// What something is for in words, or `null` where nobody says it. An error is want of memory.
pub fn description<'s, S: SchemaScalar>(
    alloc: Global,
    words: &Option<Text>,
) -> Result<SchemaAnswer<'s, S>, AllocError>
    ensures { Gives result (spec.text_or_null S.of_text words.now) }
{
    match words {
        Some(words) => text(alloc, words.as_str()),
        None => Ok(Resolved::Null),
    }
}

/// The text of a default, or `null` where there is none. An error is want of memory.
pub fn default_text<'s, S: SchemaScalar>(
    alloc: Global,
    value: &Option<InputValue<S>>,
) -> Result<SchemaAnswer<'s, S>, AllocError>
    ensures { Gives result
        (spec.text_or_null S.of_text (option_map (input_value_text S.answer) value.now)) }
{
    match value {
        Some(value) => Ok(Resolved::Scalar(S::from_displayable(alloc, value)?)),
        None => Ok(Resolved::Null),
    }
}

/// A truth value.
pub fn truth<'s, S: SchemaScalar>(value: bool) -> SchemaAnswer<'s, S>
    ensures { result ≡ spec.truth S.of_bool value }
{
    Resolved::Scalar(S::from_bool(value))
}

/// The name of a kind, or `null` where there is none. An error is want of memory.
pub fn kind_or_null<'s, S: SchemaScalar>(
    alloc: Global,
    kind: Option<TypeKind>,
) -> Result<SchemaAnswer<'s, S>, AllocError>
    ensures { Gives result (spec.kind_or_null S.of_text kind) }
{
    match kind {
        Some(kind) => text(alloc, kind_name(kind)),
        None => Ok(Resolved::Null),
    }
}

/// The names of places, in order. An error is want of memory.
pub fn locations<'s, S: SchemaScalar + Drop>(
    alloc: Global,
    places: &[DirectiveLocation],
) -> Result<SchemaAnswer<'s, S>, AllocError>
    ensures { Gives result (spec.locations S.of_text places.now) }
{
    let mut list = Items::with_capacity(alloc, places.len())?;
    'places: for place in places {
        list.push(Resolved::Scalar(scalar_of(alloc, location_name(*place))?))?;
    }
    Ok(Resolved::List(list))
}
