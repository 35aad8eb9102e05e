//! The definition that a text is.

ghost use Rattle.std.specs.Prelude.{IfErr, IfOk};
ghost use Rattle.std.specs.Str.{chars};
ghost use Rattle.graphql_text.specs.Memory.{UnlessMemory};
ghost use Rattle.graphql_scalars.specs.DefaultScalar as default;
ghost use Rattle.graphql_scalars.specs.declared.default_scalar.DefaultScalarValue.{DefaultScalarValue};
ghost use Rattle.graphql_grammar.specs.Input.{IsMemory};
ghost use Rattle.graphql_schema_rows.specs.Definitions.{Arguments, Fields, Heads, Values};
ghost use Rattle.graphql_schema_rows.specs.Texts.{IsRefused, IsText};

use crate::definitions::{whole_argument, whole_enum_value, whole_field, whole_head};
use crate::written::{ArgumentDefinition, FieldDefinition, HeadDefinition, ValueDefinition};
use graphql_grammar::{Cursor, Fault};
use graphql_scalars::ScalarValue;
use std::alloc::Global;

/// The definition of a field that a text is, as `friends(first: Int = 10): [Human!]!` (GraphQL
/// October 2021, 3.6 Objects), with what it may tell of itself: `"Who knows whom." friends:
/// [Human!]! @deprecated`.
///
/// An error is the first fault of the text, at its place: a lexical one, or the first token that no
/// definition of a field could have there. `ParseError::Memory` comes only where memory ran out,
/// and says nothing of the text.
pub fn field_of_text<S: ScalarValue + Drop>(
    alloc: Global,
    text: &str,
) -> Result<FieldDefinition<'_, S>, Fault>
    ensures field { IfOk result (IsText S.reads (Fields S S.of_bool) (chars text.now)) }
    ensures fault { IfErr result (λ e. UnlessMemory IsMemory e
        (IsRefused S.reads (Fields S S.of_bool) (chars text.now) e)) }
{
    match Cursor::new(alloc, text) {
        Ok(mut cursor) => whole_field(alloc, &mut cursor),
        Err(fault) => Err(fault),
    }
}

/// The definition of an argument, or of a field of an input object, that a text is, as `first: Int
/// = 10` (3.6.1 Field Arguments, 3.10 Input Objects), with a description before it or without. No
/// directive stands behind it.
///
/// An error is the first fault of the text, as [`field_of_text`] says.
pub fn argument_of_text<S: ScalarValue + Drop>(
    alloc: Global,
    text: &str,
) -> Result<ArgumentDefinition<'_, S>, Fault>
    ensures argument { IfOk result (IsText S.reads (Arguments S S.of_bool) (chars text.now)) }
    ensures fault { IfErr result (λ e. UnlessMemory IsMemory e
        (IsRefused S.reads (Arguments S S.of_bool) (chars text.now) e)) }
{
    match Cursor::new(alloc, text) {
        Ok(mut cursor) => whole_argument(alloc, &mut cursor),
        Err(fault) => Err(fault),
    }
}

/// The definition of a value of an enum that a text is, as `"In 1980." EMPIRE @deprecated` (3.9
/// Enums).
///
/// An error is the first fault of the text, as [`field_of_text`] says.
pub fn value_of_text<S: ScalarValue + Drop>(
    alloc: Global,
    text: &str,
) -> Result<ValueDefinition<'_, S>, Fault>
    ensures value { IfOk result (IsText S.reads (Values S S.of_bool) (chars text.now)) }
    ensures fault { IfErr result (λ e. UnlessMemory IsMemory e
        (IsRefused S.reads (Values S S.of_bool) (chars text.now) e)) }
{
    match Cursor::new(alloc, text) {
        Ok(mut cursor) => whole_enum_value(alloc, &mut cursor),
        Err(fault) => Err(fault),
    }
}

/// What a type's definition begins with, of which a text is made: `"A film of the saga." Episode`
/// (3.2 Descriptions, 3.4 Types).
///
/// An error is the first fault of the text, as [`field_of_text`] says.
pub fn head_of_text(alloc: Global, text: &str) -> Result<HeadDefinition<'_>, Fault>
    ensures head { IfOk result (IsText {S = DefaultScalarValue} default.reads
        (Heads DefaultScalarValue) (chars text.now)) }
    ensures fault { IfErr result (λ e. UnlessMemory IsMemory e
        (IsRefused {S = DefaultScalarValue} default.reads (Heads DefaultScalarValue)
        (chars text.now) e)) }
{
    match Cursor::new(alloc, text) {
        Ok(mut cursor) => whole_head(alloc, &mut cursor),
        Err(fault) => Err(fault),
    }
}
