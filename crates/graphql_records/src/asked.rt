//! What arguments ask of a table.

ghost use Rattle.std.specs.Prelude.{◌≡◌};
ghost use Rattle.std.specs.Option.{option_and_then, option_copied};
ghost use Rattle.graphql_text.specs.Memory.{Gives};
ghost use Rattle.graphql_arguments.specs.ArgumentValues.{value_named};
ghost use Rattle.graphql_arguments.specs.GivenValues.{arguments_told};
ghost use Rattle.graphql_records.specs.Asked as spec;

use graphql_arguments::Arguments;
use graphql_scalars::DefaultScalarValue;
use graphql_text::Text;
use graphql_values::InputValue;
use std::alloc::{AllocError, Global};

/// The scalar that a value is, if it is one.
fn scalar_of(value: &InputValue<DefaultScalarValue>) -> Option<&DefaultScalarValue>
    ensures { option_copied result ≡ spec.scalar_of value.now }
{
    match value {
        InputValue::Scalar(scalar) => Some(scalar),
        _ => None,
    }
}

/// The scalar that the argument of this name is, if it is one.
fn scalar_asked<'a>(
    arguments: &'a Arguments<'_, DefaultScalarValue>,
    name: &str,
) -> Option<&'a DefaultScalarValue>
    ensures { let given = value_named (arguments_told arguments.now) name.now in
        option_copied result ≡ option_and_then spec.scalar_of given }
{
    match arguments.get_input_value(name) {
        Some(value) => scalar_of(value),
        None => None,
    }
}

/// The id that a scalar asks for: a text, or an integer by its decimal text. An error is want of
/// memory.
fn id_of_scalar(alloc: Global, scalar: &DefaultScalarValue) -> Result<Option<Text>, AllocError>
    ensures { Gives result (spec.id_of_scalar scalar.now) }
{
    match scalar {
        DefaultScalarValue::String(id) => Ok(Some(id.clone()?)),
        DefaultScalarValue::Int(id) => {
            let id = *id;
            Ok(Some(Text::from_string(format!(in alloc; "{id}")?)))
        }
        DefaultScalarValue::Boolean(_) => Ok(None),
    }
}

/// The id that the argument `id` asks for: none where it is no text and no integer. An error is
/// want of memory.
pub(crate) fn id_asked(
    alloc: Global,
    arguments: &Arguments<'_, DefaultScalarValue>,
) -> Result<Option<Text>, AllocError>
    ensures { Gives result (spec.id_asked (arguments_told arguments.now)) }
{
    match scalar_asked(arguments, "id") {
        Some(scalar) => id_of_scalar(alloc, scalar),
        None => Ok(None),
    }
}

/// How many items the argument `first` asks for, if it is an integer.
pub(crate) fn first_asked(arguments: &Arguments<'_, DefaultScalarValue>) -> Option<i32>
    ensures { result ≡ spec.first_asked (arguments_told arguments.now) }
{
    match scalar_asked(arguments, "first") {
        Some(DefaultScalarValue::Int(count)) => Some(*count),
        _ => None,
    }
}
