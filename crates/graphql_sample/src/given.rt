//! Texts that arguments are, and that stand in them.

ghost use Rattle.std.specs.Prelude.{◌≡◌};
ghost use Rattle.std.specs.List.{find};
ghost use Rattle.std.specs.Option.{option_copied};
ghost use Rattle.std.specs.Str.{bytes_eq};
ghost use Rattle.graphql_arguments.specs.GivenValues.{arguments_told};
ghost use Rattle.graphql_sample.specs.Sample as spec;

use graphql_arguments::Arguments;
use graphql_text::{Spanning, Text};
use graphql_values::{DefaultScalarValue, InputValue};

/// The text that a value is, if it is one.
fn text_of(value: &InputValue<DefaultScalarValue>) -> Option<&Text>
    ensures { option_copied result ≡ spec.text_of value.now }
{
    match value {
        InputValue::Scalar(DefaultScalarValue::String(text)) => Some(text),
        _ => None,
    }
}

type Pair = (Spanning<Text>, Spanning<InputValue<DefaultScalarValue>>);

/// The first field of this name.
fn first_named<'a>(pairs: &'a [Pair], name: &str) -> Option<&'a Pair>
    ensures { option_copied result ≡ find (λ p. bytes_eq p.0.item name.now) pairs.now }
{
    pairs.iter().find(|pair| pair.0.item.is(name))
}

/// The text that the field of this name of an object is, if it is one: the first where several have
/// the name.
fn text_within<'a>(value: &'a InputValue<DefaultScalarValue>, name: &str) -> Option<&'a Text>
    ensures { option_copied result ≡ spec.text_within name.now value.now }
{
    match value {
        InputValue::Object(pairs) => match first_named(pairs.as_slice(), name) {
            Some(pair) => text_of(&pair.1.item),
            None => None,
        },
        _ => None,
    }
}

/// The text that the argument of this name is, if it is one.
pub(crate) fn text_given<'a>(
    arguments: &'a Arguments<'_, DefaultScalarValue>,
    name: &str,
) -> Option<&'a Text>
    ensures { option_copied result ≡ spec.text_given (arguments_told arguments.now) name.now }
{
    match arguments.get_input_value(name) {
        Some(value) => text_of(value),
        None => None,
    }
}

/// The text that the field of this name of the argument is, if it is an object, and that a text.
pub(crate) fn text_given_in<'a>(
    arguments: &'a Arguments<'_, DefaultScalarValue>,
    argument: &str,
    name: &str,
) -> Option<&'a Text>
    ensures { option_copied result
        ≡ spec.text_given_in (arguments_told arguments.now) argument.now name.now }
{
    match arguments.get_input_value(argument) {
        Some(value) => text_within(value, name),
        None => None,
    }
}
