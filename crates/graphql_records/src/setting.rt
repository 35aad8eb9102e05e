//! What arguments set in the fields of a record.

ghost use Rattle.std.specs.Prelude.{◌≡◌};
ghost use Rattle.graphql_text.specs.Memory.{Gives};
ghost use Rattle.graphql_arguments.specs.GivenValues.{arguments_told};
ghost use Rattle.graphql_field_results.specs.Answered.{Answered};
ghost use Rattle.graphql_records.specs.Settings as spec;
ghost use Rattle.graphql_records.specs.ValuesSet.{AddsValues, once_set};

use crate::field_value::FieldValue;
use crate::lookups::known_field;
use crate::record::Fields;
use crate::table_type::TableType;
use graphql_arguments::Arguments;
use graphql_field_results::{FieldError, FieldFault, FieldResult};
use graphql_names::NamedItems;
use graphql_scalars::DefaultScalarValue;
use graphql_text::{Items, Text};
use graphql_values::InputValue;
use std::alloc::{AllocError, Global};

/// The value that an argument sets: a scalar itself, an enum value its name, null where it is null,
/// an object or a variable; none where its own value is a list. An error is want of memory.
fn set_by(value: &InputValue<DefaultScalarValue>) -> Result<Option<FieldValue>, AllocError>
    ensures { Gives result (spec.set_by value.now) }
{
    match value {
        InputValue::Scalar(scalar) => Ok(Some(FieldValue::Scalar(scalar.clone()?))),
        InputValue::Enum(name) => {
            let name = name.clone()?;
            Ok(Some(FieldValue::Scalar(DefaultScalarValue::String(name))))
        }
        InputValue::List(_) => Ok(None),
        InputValue::Null | InputValue::Variable(_) | InputValue::Object(_) => {
            Ok(Some(FieldValue::Null))
        }
    }
}

/// Whether a mutation may set a field of an object type.
fn is_settable(types: &NamedItems<TableType>, object: &str, name: &str) -> bool
    ensures { result ≡ spec.is_settable types.now object.now name.now }
{
    match known_field(types, object, name) {
        Some(field) => field.is_settable,
        None => false,
    }
}

/// The value that an argument may set in a field of an object type, if it may. An error is want of
/// memory.
fn settable(
    types: &NamedItems<TableType>,
    object: &str,
    name: &str,
    value: &InputValue<DefaultScalarValue>,
) -> Result<Option<FieldValue>, AllocError>
    ensures { Gives result (spec.settable types.now object.now name.now value.now) }
{
    if is_settable(types, object, name) {
        set_by(value)
    } else {
        Ok(None)
    }
}

/// An object type has no such field that an argument may set. An error is want of memory.
fn no_scalar_field(
    alloc: Global,
    object: &str,
    name: &str,
) -> Result<FieldError<DefaultScalarValue>, AllocError>
    ensures { Gives result (spec.no_scalar_field object.now name.now) }
{
    let message = format!(in alloc; "Type {object} has no scalar field \"{name}\"")?;
    Ok(FieldError::of(Text::from_string(message)))
}

/// Adds the value that an argument sets in the field of its name: `id` sets none. An error says
/// that it may not, or is want of memory.
fn add_one(
    alloc: Global,
    types: &NamedItems<TableType>,
    object: &str,
    name: &str,
    value: &InputValue<DefaultScalarValue>,
    values: &mut Fields,
) -> FieldResult<(), DefaultScalarValue>
    ensures { AddsValues (spec.set_one types.now object.now name.now value.now) values.old result
        values.new }
{
    if name == "id" {
        return Ok(());
    }
    match settable(types, object, name, value)? {
        Some(value) => {
            values.push((Text::from_str(alloc, name)?, value))?;
            Ok(())
        }
        None => Err(FieldFault::Error(no_scalar_field(alloc, object, name)?)),
    }
}

/// Adds the value that the argument at a place sets in its field.
fn add_at(
    alloc: Global,
    types: &NamedItems<TableType>,
    object: &str,
    arguments: &Arguments<'_, DefaultScalarValue>,
    place: usize,
    values: &mut Fields,
) -> FieldResult<(), DefaultScalarValue>
    ensures { let given = arguments_told arguments.now in
        AddsValues (spec.set_at types.now object.now given place) values.old result values.new }
{
    match arguments.get_index(place) {
        Some((name, value)) => add_one(alloc, types, object, name, value, values),
        None => Ok(()),
    }
}

/// The values that arguments set in fields of an object, in order. An error says which is the first
/// that may not, or is want of memory.
pub(crate) fn values_of(
    alloc: Global,
    types: &NamedItems<TableType>,
    object: &str,
    arguments: &Arguments<'_, DefaultScalarValue>,
) -> FieldResult<Fields, DefaultScalarValue>
    ensures { let given = arguments_told arguments.now in (fields : spec.Fields)
        → Answered (spec.set_all types.now object.now given fields) (once_set fields result) }
{
    let mut values = Items::with_capacity(alloc, arguments.len())?;
    'arguments: for place in 0..arguments.len() {
        match add_at(alloc, types, object, arguments, place, &mut values) {
            Ok(()) => {}
            Err(fault) => return Err(fault),
        }
    }
    Ok(values)
}
