//! Whether a value can be read from what it is shown as.

ghost use Rattle.std.specs.Prelude.{◌≡◌, ◌↔◌, IsTrue};
ghost use Rattle.graphql_text.specs.Grammar.{is_string_character};
ghost use Rattle.graphql_plain_text.specs.Writable.{IsWritable};
ghost use Rattle.graphql_plain_text.specs.WritableTest.{name_test, enum_test, plain_test};
ghost use Rattle.graphql_plain_text.specs.WritableTest.{scalar_test, writable};

use graphql_names::Name;
use graphql_text::first_character;
use graphql_values::{DefaultScalarValue, InputValue};

/// Whether a value can be read from what it is shown as (GraphQL October 2021, 2.9 Input Values):
/// its names are names, its enums none of `true`, `false` and `null`, its texts hold no quote,
/// backslash or control but a tab, and where it is a constant it holds no variable. Takes no
/// memory, and stack for each level that the value nests.
pub fn is_writable(value: &InputValue, is_const: bool) -> bool
    ensures { IsTrue result ↔ IsWritable is_const value.now }
{
    passes(value, is_const)
}

/// Whether a value passes the test, by its form.
fn passes(value: &InputValue, is_const: bool) -> bool
    ensures { result ≡ writable is_const value.now }
{
    match value {
        InputValue::Null => true,
        InputValue::Scalar(scalar) => scalar_passes(scalar),
        InputValue::Enum(name) => is_enum_name(name.as_str()),
        InputValue::Variable(name) => !is_const && is_name(name.as_str()),
        InputValue::List(items) => {
            for item in items.as_slice() {
                if !passes(&item.item, is_const) {
                    return false;
                }
            }
            true
        }
        InputValue::Object(pairs) => {
            for pair in pairs.as_slice() {
                if !is_name(pair.0.item.as_str()) {
                    return false;
                }
                if !passes(&pair.1.item, is_const) {
                    return false;
                }
            }
            true
        }
    }
}

/// Whether a scalar passes the test.
fn scalar_passes(scalar: &DefaultScalarValue) -> bool
    ensures { result ≡ scalar_test scalar.now }
{
    match scalar {
        DefaultScalarValue::Int(value) => {
            // What is read has 32 bits; in the scalar, contracts see an integer of any size.
            let _read: i32 = *value;
            true
        }
        DefaultScalarValue::String(text) => is_plain(text.as_str()),
        DefaultScalarValue::Boolean(_) => true,
    }
}

fn is_name(text: &str) -> bool
    ensures { result ≡ name_test text.now }
{
    Name::is_valid(text)
}

fn is_enum_name(text: &str) -> bool
    ensures { result ≡ enum_test text.now }
{
    is_name(text) && text != "true" && text != "false" && text != "null"
}

/// Whether no quote, no backslash and no control but a tab is in a text.
fn is_plain(text: &str) -> bool
    ensures { result ≡ plain_test text.now }
{
    let mut rest = text;
    'characters: while let Some((character, behind)) = first_character(rest) {
        if !stands_in_string(character) {
            return false;
        }
        rest = behind;
    }
    true
}

/// Whether a character may stand in a string as it is (GraphQL October 2021, 2.9.4 String Value).
fn stands_in_string(character: char) -> bool
    ensures { result ≡ is_string_character character }
{
    character != '"' && character != '\\' && (character >= ' ' || character == '\t')
}
