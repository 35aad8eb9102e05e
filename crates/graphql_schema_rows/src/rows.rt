//! What rows are, each of them: names, fields, input fields, values of an enum.

ghost use Rattle.std.specs.List.{AllZip};
ghost use Rattle.graphql_text.specs.Memory.{Answers};
ghost use Rattle.graphql_schema_rows.specs.Rows as spec;

use crate::items::{argument_of, field_of, name_of, value_of};
use crate::row_fault::RowFault;
use graphql_scalars::ScalarValue;
use graphql_schema::{Argument, EnumValue, Field};
use graphql_text::{Items, Text};
use std::alloc::Global;

/// The names that these texts are.
pub(crate) fn names_of(alloc: Global, texts: &[&str]) -> Result<Items<Text>, RowFault>
    ensures { Answers (AllZip spec.NameMeans texts.now) (spec.RefusedAt spec.RefusesName texts.now)
        spec.IsMemory result }
{
    let mut names = Items::with_capacity(alloc, texts.len())?;
    'texts: for text in texts {
        names.push(name_of(alloc, text)?)?;
    }
    Ok(names)
}

/// The values of an enum that the rows of a type define.
pub(crate) fn values_of<S: ScalarValue + Drop>(
    alloc: Global,
    head: &str,
    rows: &[&str],
) -> Result<Items<EnumValue>, RowFault>
    ensures { Answers (AllZip (spec.ValueMeans S.reads S.of_bool S.answer) rows.now)
        (spec.RefusedAt (spec.RefusesValue S.reads S.of_bool S.answer head.now) rows.now)
        spec.IsMemory result }
{
    let mut values = Items::with_capacity(alloc, rows.len())?;
    'rows: for row in rows {
        values.push(value_of::<S>(alloc, head, row)?)?;
    }
    Ok(values)
}

/// The fields that the rows of a type define.
pub(crate) fn fields_of<S: ScalarValue + Drop>(
    alloc: Global,
    head: &str,
    rows: &[&str],
) -> Result<Items<Field<S>>, RowFault>
    ensures { Answers (AllZip (spec.FieldMeans S.reads S.of_bool S.answer) rows.now)
        (spec.RefusedAt (spec.RefusesField S.reads S.of_bool S.answer head.now) rows.now)
        spec.IsMemory result }
{
    let mut fields = Items::with_capacity(alloc, rows.len())?;
    'rows: for row in rows {
        fields.push(field_of(alloc, head, row)?)?;
    }
    Ok(fields)
}

/// The input fields that the rows of a type define.
pub(crate) fn arguments_of<S: ScalarValue + Drop>(
    alloc: Global,
    head: &str,
    rows: &[&str],
) -> Result<Items<Argument<S>>, RowFault>
    ensures { Answers (AllZip (spec.ArgumentMeans S.reads S.of_bool) rows.now)
        (spec.RefusedAt (spec.RefusesArgument S.reads S.of_bool head.now) rows.now) spec.IsMemory
        result }
{
    let mut arguments = Items::with_capacity(alloc, rows.len())?;
    'rows: for row in rows {
        arguments.push(argument_of(alloc, head, row)?)?;
    }
    Ok(arguments)
}
