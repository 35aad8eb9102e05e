//! What a row is: a name, the head of a type, a field, an argument, a value of an enum.

ghost use Rattle.std.specs.Prelude.{◌≡◌, ◌≢◌, IfOk};
ghost use Rattle.std.specs.Str.{chars};
ghost use Rattle.graphql_text.specs.Memory.{Answers};
ghost use Rattle.graphql_text.specs.declared.parse_error.ParseError.TheVariants.{Memory};
ghost use Rattle.graphql_scalars.specs.DefaultScalar as default;
ghost use Rattle.graphql_scalars.specs.declared.default_scalar.DefaultScalarValue.{DefaultScalarValue};
ghost use Rattle.graphql_schema_rows.specs.Definitions.{Heads};
ghost use Rattle.graphql_schema_rows.specs.Heads as heads;
ghost use Rattle.graphql_schema_rows.specs.Notes as notes;
ghost use Rattle.graphql_schema_rows.specs.Rows as spec;
ghost use Rattle.graphql_schema_rows.specs.declared.note_fault.NoteFault.TheVariants as note_faults;
ghost use Rattle.graphql_schema_rows.specs.declared.row_fault.RowFault.TheVariants.{BadNote};
ghost use Rattle.graphql_schema_rows.specs.declared.row_fault.RowFault.TheVariants.{BadRow};

use crate::head::{Head, name_part};
use crate::note_fault::NoteFault;
use crate::row_fault::RowFault;
use crate::texts::{argument_of_text, field_of_text, head_of_text, value_of_text};
use crate::told::{told_argument, told_field, told_head, told_value};
use graphql_names::Name;
use graphql_scalars::ScalarValue;
use graphql_schema::{Argument, EnumValue, Field};
use graphql_text::{ParseError, Spanning, Text};
use std::alloc::{AllocError, Global};

/// The name that a text is.
pub(crate) fn name_of(alloc: Global, text: &&str) -> Result<Text, RowFault>
    ensures { Answers (spec.NameMeans text.now) (spec.RefusesName text.now) spec.IsMemory result }
{
    let name = Text::from_str(alloc, *text)?;
    if Name::is_valid(*text) {
        Ok(name)
    } else {
        Err(RowFault::BadName(name))
    }
}

/// The refusal of a row of the type with this head, by the row's first fault. An error is want of
/// memory.
fn bad_row(
    alloc: Global,
    head: &str,
    row: &str,
    fault: Spanning<ParseError>,
) -> Result<RowFault, AllocError>
    ensures { IfOk result
        (λ e. (fault.item ≢ Memory) × (e ≡ BadRow (heads.name_part head.now) row.now fault)) }
{
    if let ParseError::Memory = fault.item {
        return Err(AllocError);
    }
    let type_name = Text::from_str(alloc, name_part(head))?;
    let row = Text::from_str(alloc, row)?;
    Ok(RowFault::BadRow(type_name, row, fault))
}

/// The refusal of a row of the type with this head, by what its definition can't tell of itself. An
/// error is want of memory.
fn bad_note(alloc: Global, head: &str, row: &str, fault: NoteFault) -> Result<RowFault, AllocError>
    ensures { IfOk result
        (λ e. (fault ≢ note_faults.Memory)
        × (e ≡ BadNote (heads.name_part head.now) row.now fault)) }
{
    if let NoteFault::Memory = fault {
        return Err(AllocError);
    }
    let type_name = Text::from_str(alloc, name_part(head))?;
    let row = Text::from_str(alloc, row)?;
    Ok(RowFault::BadNote(type_name, row, fault))
}

/// The head that a text defines, whichever part of it is the name.
fn defined_head(alloc: Global, text: &str) -> Result<Head, RowFault>
    ensures { Answers (spec.HeadDefines text.entry)
        (spec.RefusesRow {S = DefaultScalarValue} default.reads (Heads DefaultScalarValue)
        notes.told_head text.now text.entry)
        spec.IsMemory result }
{
    match head_of_text(alloc, text) {
        Ok(definition) => match told_head(alloc, definition) {
            Ok(head) => Ok(head),
            Err(fault) => Err(bad_note(alloc, text, text, fault)?),
        },
        Err(fault) => Err(bad_row(alloc, text, text, fault)?),
    }
}

/// The head of a type that a text is, which the name ends.
pub(crate) fn head_of(alloc: Global, text: &str) -> Result<Head, RowFault>
    ensures { Answers (spec.HeadMeans text.entry) (spec.RefusesHead text.entry) spec.IsMemory
        result }
{
    let name = name_part(text);
    if !Name::is_valid(name) {
        return Err(RowFault::BadName(Text::from_str(alloc, name)?));
    }
    let head = defined_head(alloc, text)?;
    if head.name.is(name) {
        Ok(head)
    } else {
        Err(RowFault::BadName(head.name))
    }
}

/// The value of an enum that a row of a type defines.
pub(crate) fn value_of<S: ScalarValue + Drop>(
    alloc: Global,
    head: &str,
    row: &&str,
) -> Result<EnumValue, RowFault>
    ensures { Answers (spec.ValueMeans S.reads S.of_bool S.answer row.now)
        (spec.RefusesValue S.reads S.of_bool S.answer head.now row.now) spec.IsMemory result }
{
    match value_of_text::<S>(alloc, *row) {
        Ok(definition) => match told_value(alloc, definition) {
            Ok(value) => Ok(value),
            Err(fault) => Err(bad_note(alloc, head, *row, fault)?),
        },
        Err(fault) => Err(bad_row(alloc, head, *row, fault)?),
    }
}

/// The field that a row of a type defines.
pub(crate) fn field_of<S: ScalarValue + Drop>(
    alloc: Global,
    head: &str,
    row: &&str,
) -> Result<Field<S>, RowFault>
    ensures { Answers (spec.FieldMeans S.reads S.of_bool S.answer row.now)
        (spec.RefusesField S.reads S.of_bool S.answer head.now row.now) spec.IsMemory result }
{
    match field_of_text(alloc, *row) {
        Ok(definition) => match told_field(alloc, definition) {
            Ok(field) => Ok(field),
            Err(fault) => Err(bad_note(alloc, head, *row, fault)?),
        },
        Err(fault) => Err(bad_row(alloc, head, *row, fault)?),
    }
}

/// The argument, or the field of an input object, that a row of a type defines.
pub(crate) fn argument_of<S: ScalarValue + Drop>(
    alloc: Global,
    head: &str,
    row: &&str,
) -> Result<Argument<S>, RowFault>
    ensures { Answers (spec.ArgumentMeans S.reads S.of_bool row.now)
        (spec.RefusesArgument S.reads S.of_bool head.now row.now) spec.IsMemory result }
{
    match argument_of_text(alloc, *row) {
        Ok(definition) => match told_argument(alloc, definition) {
            Ok(argument) => Ok(argument),
            Err(fault) => Err(bad_note(alloc, head, *row, fault)?),
        },
        Err(fault) => Err(bad_row(alloc, head, *row, fault)?),
    }
}
