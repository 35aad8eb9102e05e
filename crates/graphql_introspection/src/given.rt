//! What the fields of introspection read of their arguments.

ghost use Rattle.std.specs.Prelude.{◌≡◌};
ghost use Rattle.std.specs.Option.{option_map};
ghost use Rattle.graphql_arguments.specs.GivenValues.{arguments_told};
ghost use Rattle.graphql_introspection.specs.Given as spec;

use graphql_arguments::Arguments;
use graphql_values::{InputValue, ScalarValue};

/// Whether `includeDeprecated` is given as `true`.
pub fn includes_deprecated<S: ScalarValue>(arguments: &Arguments<'_, S>) -> bool
    ensures { result ≡ spec.includes_deprecated S.answer (arguments_told arguments.now) }
{
    match arguments.get_input_value("includeDeprecated") {
        Some(value) => is_true(value),
        None => false,
    }
}

/// Whether the value is `true`.
fn is_true<S: ScalarValue>(value: &InputValue<S>) -> bool
    ensures { result ≡ spec.is_true S.answer value.now }
{
    match value {
        InputValue::Scalar(scalar) => match scalar.try_to_bool() {
            Some(truth) => truth,
            None => false,
        },
        _ => false,
    }
}

/// The text that the value is, if it is one.
pub fn text_of<S: ScalarValue>(value: &InputValue<S>) -> Option<&str>
    ensures { option_map (λ text. text.now) result ≡ spec.text_of S.answer value.now }
{
    match value {
        InputValue::Scalar(scalar) => scalar.try_as_str(),
        _ => None,
    }
}
