//! Written arguments that have a value, and the defaults of the others, by their names.

ghost use Rattle.std.specs.Prelude.{◌≡◌, OnOk};
ghost use Rattle.graphql_written_out.specs.FinalVariables.{value_in};
ghost use Rattle.graphql_arguments.specs.ArgumentValues.{
  declared_defaults,
  with_value,
  with_values,
  written_values,
};
ghost use Rattle.graphql_arguments.specs.GivenValues.{pair_told, values_told};

use crate::given::{GivenValue, given_value};
use graphql_schema::Argument;
use graphql_text::{Spanning, TextRef};
use graphql_values::{InputValue, ScalarValue};
use graphql_written_out::FinalVariables;
use indexmap::IndexMap;
use std::alloc::{AllocError, Global};

/// Values at their places, by their names, in order.
pub type NamedValues<'a, S> = IndexMap<TextRef<'a>, Spanning<GivenValue<'a, S>>>;

/// Puts each written argument that has a value behind the others, unless one of its name is there.
/// An error is want of memory.
pub fn put_written<'a, S: ScalarValue + Drop>(
    values: &mut NamedValues<'a, S>,
    alloc: Global,
    written: &'a [(Spanning<TextRef<'a>>, Spanning<InputValue<S>>)],
    variables: &'a FinalVariables<'a, S>,
) -> Result<(), AllocError>
    ensures { OnOk result (values_told values.new.entries ≡ with_values
        (values_told values.old.entries) (written_values (value_in variables.now) written.now)) }
{
    for argument in written {
        if let Some(item) = given_value(alloc, &argument.1.item, variables)? {
            let span = argument.1.span;
            put_value(values, argument.0.item.copied(), Spanning { item, span })?;
        }
    }
    Ok(())
}

/// Puts the default of each declared argument that has one behind the others, unless a value of its
/// name is there. An error is want of memory.
pub fn put_defaults<'a, S: Drop>(
    values: &mut NamedValues<'a, S>,
    declared: &'a [Argument<S>],
) -> Result<(), AllocError>
    ensures { OnOk result (values_told values.new.entries ≡ with_values
        (values_told values.old.entries) (declared_defaults declared.now)) }
{
    for argument in declared {
        if let Some(value) = &argument.default_value {
            let name = TextRef::new(argument.name.as_str());
            put_value(values, name, Spanning::unlocated(GivenValue::Lent(value)))?;
        }
    }
    Ok(())
}

/// Puts a value behind the others, unless one of its name is there. An error is want of memory.
fn put_value<'a, S: Drop>(
    values: &mut NamedValues<'a, S>,
    name: TextRef<'a>,
    value: Spanning<GivenValue<'a, S>>,
) -> Result<(), AllocError>
    ensures { OnOk result (values_told values.new.entries ≡ with_value
        (values_told values.old.entries) (pair_told (name.entry, value.entry))) }
{
    values.entry(name)?.or_insert(value);
    Ok(())
}
