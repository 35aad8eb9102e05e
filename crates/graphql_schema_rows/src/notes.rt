//! What a definition tells of itself: a description before it, and a deprecation behind it.

ghost use Rattle.std.specs.Prelude.{◌≡◌, Option, Some};
ghost use Rattle.std.specs.Option.{option_copied};
ghost use Rattle.graphql_text.specs.Memory.{Gives, Meets};
ghost use Rattle.graphql_scalars.specs.Reading as reading;
ghost use Rattle.graphql_schema_rows.specs.Notes as spec;

use crate::note_fault::NoteFault;
use graphql_scalars::{DefaultScalarValue, ParseScalarValue, ScalarValue};
use graphql_schema::DeprecationStatus;
use graphql_text::{Items, ParseError, Spanning, Text, Token};
use graphql_tree::{Arguments, Directive};
use graphql_values::InputValue;
use std::alloc::{AllocError, Global};

/// The text that a string stands for (GraphQL October 2021, 2.9.4 String Value). Another token is
/// refused by its source text.
fn text_of(alloc: Global, token: &Token<'_>) -> Result<Text, ParseError>
    ensures { Meets reading.IsMemory result (spec.text_of_token token.now) }
{
    match token {
        Token::Scalar(scalar) => {
            match <String as ParseScalarValue<DefaultScalarValue>>::from_str(alloc, scalar) {
                Ok(DefaultScalarValue::String(text)) => Ok(text),
                Ok(_) => unreachable!(),
                Err(fault) => Err(fault),
            }
        }
        other => Err(ParseError::unexpected_token(alloc, other)?),
    }
}

/// The text of a description, where there is one (3.2 Descriptions).
pub(crate) fn described(
    alloc: Global,
    description: &Option<Spanning<Token<'_>>>,
) -> Result<Option<Text>, NoteFault>
    ensures { Meets spec.IsMemory result (spec.described description.now) }
{
    match description {
        Some(token) => match text_of(alloc, &token.item) {
            Ok(text) => Ok(Some(text)),
            Err(ParseError::Memory) => Err(NoteFault::Memory),
            Err(fault) => Err(NoteFault::NoDescription(Spanning::new(token.span, fault))),
        },
        None => Ok(None),
    }
}

/// The scalar that a value is.
fn scalar_of<S>(value: &InputValue<S>) -> Option<&S>
    ensures { option_copied result ≡ spec.scalar_of value.now }
{
    match value {
        InputValue::Scalar(scalar) => Some(scalar),
        _ => None,
    }
}

/// The text that a value is. An error is want of memory.
fn text_of_value<S: ScalarValue>(
    alloc: Global,
    value: &InputValue<S>,
) -> Result<Option<Text>, AllocError>
    ensures { Gives result (spec.text_of_value S.answer value.now) }
{
    let Some(scalar) = scalar_of(value) else {
        return Ok(None);
    };
    match scalar.try_as_str() {
        Some(text) => Ok(Some(Text::from_str(alloc, text)?)),
        None => Ok(None),
    }
}

/// The reason that the arguments of `@deprecated` give: a text, `reason`; without arguments its
/// default. `None` where they are not that. An error is want of memory.
fn reason_of<S: ScalarValue>(
    alloc: Global,
    arguments: &Option<Spanning<Arguments<'_, S>>>,
) -> Result<Option<Text>, AllocError>
    ensures { Gives result (spec.reason_of S.answer arguments.now) }
{
    let Some(arguments) = arguments else {
        return Ok(Some(Text::from_str(alloc, "No longer supported")?));
    };
    if arguments.item.len() != 1 {
        return Ok(None);
    }
    match arguments.item.get("reason") {
        Some(value) => text_of_value(alloc, &value.item),
        None => Ok(None),
    }
}

/// The name of a directive, at the directive's place. An error is want of memory.
fn directive_name<S>(
    alloc: Global,
    directive: &Spanning<Directive<'_, S>>,
) -> Result<Spanning<Text>, AllocError>
    ensures { Gives result (spec.directive_name directive.now) }
{
    let name = Text::from_str(alloc, directive.item.name.item.as_str())?;
    Ok(Spanning::new(directive.span, name))
}

/// What one directive tells, which has to be `@deprecated` (3.13.3).
fn deprecated_by<S: ScalarValue>(
    alloc: Global,
    directive: &Spanning<Directive<'_, S>>,
) -> Result<DeprecationStatus, NoteFault>
    ensures { Meets spec.IsMemory result (spec.deprecated_by S.answer directive.now) }
{
    if !directive.item.name.item.is("deprecated") {
        return Err(NoteFault::OtherDirective(directive_name(alloc, directive)?));
    }
    match reason_of(alloc, &directive.item.arguments)? {
        Some(reason) => Ok(DeprecationStatus::Deprecated(Some(reason))),
        None => Err(NoteFault::NoReason(directive_name(alloc, directive)?)),
    }
}

/// Whether directives deprecate what they stand behind: none, or `@deprecated` alone (3.13.3).
pub(crate) fn deprecation<S: ScalarValue>(
    alloc: Global,
    directives: &Option<Items<Spanning<Directive<'_, S>>>>,
) -> Result<DeprecationStatus, NoteFault>
    ensures { Meets spec.IsMemory result (spec.deprecation S.answer directives.now) }
{
    let Some(directives) = directives else {
        return Ok(DeprecationStatus::Current);
    };
    let Some(first) = directives.first() else {
        return Ok(DeprecationStatus::Current);
    };
    let told = deprecated_by(alloc, first)?;
    match directives.get(1) {
        Some(second) => Err(NoteFault::SecondDirective(directive_name(alloc, second)?)),
        None => Ok(told),
    }
}
