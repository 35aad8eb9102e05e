//! Types as rows that a constant may hold.

ghost use Rattle.std.specs.Prelude.{◌≡◌, IfOk, map};
ghost use Rattle.std.specs.List.{AllZip};
ghost use Rattle.graphql_text.specs.Memory.{Answers};
ghost use Rattle.graphql_schema_rows.specs.Rows as row_specs;
ghost use Rattle.graphql_schema_rows.specs.Types as spec;

use crate::head::name_part;
use crate::row_fault::RowFault;
use crate::types::{enumeration, input_object, interface, object, one_of, union_type};
use graphql_scalars::ScalarValue;
use graphql_schema::MetaType;
use graphql_text::Items;
use std::alloc::{AllocError, Global};

/// A type in rows of text (GraphQL October 2021, 3.4 Types).
///
/// A description, a string, may stand before a type's name, before a row and before an argument in
/// it, as `"Who wrote a book." Author` (3.2 Descriptions). `@deprecated` or `@deprecated(reason:
/// "..")` may stand behind a field and behind a value of an enum (3.13.3 @deprecated).
/// Introspection tells them.
#[derive(Clone, Copy)]
pub enum TypeRow<'a> {
    /// An object: its name, the names of its interfaces, and a row for each field, as
    /// `friends(first: Int = 10): [Human!]!`.
    Object(&'a str, &'a [&'a str], &'a [&'a str]),

    /// An interface, in the same way.
    Interface(&'a str, &'a [&'a str], &'a [&'a str]),

    /// A union: its name, and those of its members.
    Union(&'a str, &'a [&'a str]),

    /// An enum: its name, and a row for each value, as `EMPIRE @deprecated`.
    Enum(&'a str, &'a [&'a str]),

    /// An input object: its name, and a row for each field, as `first: Int = 10`.
    InputObject(&'a str, &'a [&'a str]),

    /// An input object of which exactly one field is given, in the same way: `input By @oneOf { ..
    /// }`.
    OneOf(&'a str, &'a [&'a str]),
}

impl<'a> TypeRow<'a> {
    /// The type's name, as the row has it behind a description, whether it is a name or not.
    pub fn name(&self) -> &'a str
        ensures { result.now ≡ spec.row_name self.now }
    {
        match self {
            TypeRow::Object(head, _, _) | TypeRow::Interface(head, _, _) => name_part(*head),
            TypeRow::Union(head, _) | TypeRow::Enum(head, _) => name_part(*head),
            TypeRow::InputObject(head, _) | TypeRow::OneOf(head, _) => name_part(*head),
        }
    }
}

/// A type in rows of text, and its check.
#[derive(Drop)]
pub struct CheckedRow<'a, C> {
    /// The type.
    pub row: TypeRow<'a>,

    /// Which of the values that the schema finds right for an enum or an input object it accepts.
    /// Of another type it is let go.
    pub check: C,
}

/// The type that a row is. The check is that of an enum or an input object: which of the values
/// that the schema finds right for them they accept; of other types it is let go.
///
/// An error is a refusal of a text that the row has: a name is none, or a row of it is no
/// definition, with that row's first fault, or tells of itself what it can't. `RowFault::Memory` is
/// want of memory.
pub fn type_of_row<S: ScalarValue + Drop, C: Drop>(
    alloc: Global,
    row: TypeRow<'_>,
    check: C,
) -> Result<MetaType<S, C>, RowFault>
    ensures { Answers (spec.IsType S.reads S.of_bool S.answer row.entry check)
        (spec.IsNoType S.reads S.of_bool S.answer row.entry) row_specs.IsMemory result }
{
    match row {
        TypeRow::Object(name, interfaces, fields) => object(alloc, name, interfaces, fields),
        TypeRow::Interface(name, interfaces, fields) => interface(alloc, name, interfaces, fields),
        TypeRow::Union(name, members) => union_type(alloc, name, members),
        TypeRow::Enum(name, values) => enumeration(alloc, name, values, check),
        TypeRow::InputObject(name, fields) => input_object(alloc, name, fields, check),
        TypeRow::OneOf(name, fields) => one_of(alloc, name, fields, check),
    }
}

/// The types that rows are, each of its check, in order.
///
/// An error is the refusal of the first row that is none, as [`type_of_row`] says.
/// `RowFault::Memory` is want of memory.
pub fn types_of_rows<S: ScalarValue + Drop, C: Drop>(
    alloc: Global,
    rows: Vec<CheckedRow<'_, C>>,
) -> Result<Items<MetaType<S, C>>, RowFault>
    ensures { Answers (AllZip (spec.IsTypeOf S.reads S.of_bool S.answer) rows.entry.items)
        (spec.IsFirstRefused S.reads S.of_bool S.answer rows.entry.items) row_specs.IsMemory
        result }
{
    let mut types = Items::with_capacity(alloc, rows.len())?;
    'rows: for checked in rows {
        types.push(type_of_row(alloc, checked.row, checked.check)?)?;
    }
    Ok(types)
}

/// The names of the types that rows are, in order, as the rows have them. An error is want of
/// memory.
pub fn names_of_rows<'a, C>(
    alloc: Global,
    rows: &[CheckedRow<'a, C>],
) -> Result<Items<&'a str>, AllocError>
    ensures { IfOk result (λ names. map (λ name. name.now) names ≡ spec.row_names rows.now) }
{
    let mut names = Items::with_capacity(alloc, rows.len())?;
    'names: for checked in rows {
        names.push(checked.row.name())?;
    }
    Ok(names)
}
