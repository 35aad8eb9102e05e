//! What definitions define, with what they tell of themselves.

ghost use Rattle.std.specs.Prelude.{◌≡◌};
ghost use Rattle.graphql_text.specs.Memory.{Meets};
ghost use Rattle.graphql_schema_rows.specs.Notes as spec;

use crate::head::Head;
use crate::note_fault::NoteFault;
use crate::notes::{deprecation, described};
use crate::written::{ArgumentDefinition, FieldDefinition, HeadDefinition, ValueDefinition};
use graphql_names::NamedItems;
use graphql_scalars::ScalarValue;
use graphql_schema::{Argument, EnumValue, Field};
use graphql_text::Items;
use std::alloc::Global;

/// The head that is defined.
pub(crate) fn told_head(alloc: Global, definition: HeadDefinition<'_>) -> Result<Head, NoteFault>
    ensures { Meets spec.IsMemory result (spec.told_head definition.entry) }
{
    let description = described(alloc, &definition.description)?;
    Ok(Head {
        name: definition.name,
        description,
    })
}

/// The argument, or the field of an input object, that is defined.
pub(crate) fn told_argument<S: Drop>(
    alloc: Global,
    definition: ArgumentDefinition<'_, S>,
) -> Result<Argument<S>, NoteFault>
    ensures { Meets spec.IsMemory result (spec.told_argument definition.entry) }
{
    let description = described(alloc, &definition.description)?;
    Ok(Argument {
        name: definition.name,
        description,
        arg_type: definition.arg_type,
        default_value: definition.default_value,
    })
}

/// The arguments that are defined, or why the first that can't be told can't.
fn told_arguments<S: Drop>(
    alloc: Global,
    definitions: Items<ArgumentDefinition<'_, S>>,
) -> Result<Items<Argument<S>>, NoteFault>
    ensures { Meets spec.IsMemory result (spec.told_arguments definitions.entry) }
{
    let mut told = Items::with_capacity(alloc, definitions.len())?;
    'arguments: for definition in definitions.into_vec() {
        told.push(told_argument(alloc, definition)?)?;
    }
    Ok(told)
}

/// The arguments that are defined where some are.
fn told_where_given<S: Drop>(
    alloc: Global,
    definitions: Option<Items<ArgumentDefinition<'_, S>>>,
) -> Result<Option<NamedItems<Argument<S>>>, NoteFault>
    ensures { Meets spec.IsMemory result (spec.told_where_given definitions.entry) }
{
    match definitions {
        Some(definitions) => {
            let told = told_arguments(alloc, definitions)?;
            Ok(Some(NamedItems::from_items(told)?))
        }
        None => Ok(None),
    }
}

/// The field that is defined.
pub(crate) fn told_field<S: ScalarValue + Drop>(
    alloc: Global,
    definition: FieldDefinition<'_, S>,
) -> Result<Field<S>, NoteFault>
    ensures { Meets spec.IsMemory result (spec.told_field S.answer definition.entry) }
{
    let description = described(alloc, &definition.description)?;
    let arguments = told_where_given(alloc, definition.arguments)?;
    let deprecation_status = deprecation(alloc, &definition.directives)?;
    Ok(Field {
        name: definition.name,
        description,
        arguments,
        field_type: definition.field_type,
        deprecation_status,
    })
}

/// The value of an enum that is defined.
pub(crate) fn told_value<S: ScalarValue + Drop>(
    alloc: Global,
    definition: ValueDefinition<'_, S>,
) -> Result<EnumValue, NoteFault>
    ensures { Meets spec.IsMemory result (spec.told_value S.answer definition.entry) }
{
    let description = described(alloc, &definition.description)?;
    let deprecation_status = deprecation(alloc, &definition.directives)?;
    Ok(EnumValue {
        name: definition.name,
        description,
        deprecation_status,
    })
}
