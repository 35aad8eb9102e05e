//! The types that rows make, kind by kind.

ghost use Rattle.graphql_text.specs.Memory.{Answers};
ghost use Rattle.graphql_schema_rows.specs.Rows as row_specs;
ghost use Rattle.graphql_schema_rows.specs.Types as spec;

use crate::items::head_of;
use crate::row_fault::RowFault;
use crate::rows::{arguments_of, fields_of, names_of, values_of};
use graphql_names::NamedItems;
use graphql_scalars::ScalarValue;
use graphql_schema::{EnumMeta, InputObjectMeta, InterfaceMeta, MetaType, ObjectMeta, UnionMeta};
use std::alloc::Global;

/// The object of this head, which lists these interfaces, with a field for each row, in order, as
/// `friends(first: Int = 10): [Human!]!` (GraphQL October 2021, 3.6 Objects). The head is its name,
/// with a description before it or without: `"Who acts." Human` (3.2 Descriptions).
///
/// An error is a refusal of a text that it has: its name or one that it lists is no name, its head
/// or a row is no definition, with the first fault, or tells of itself what it can't.
/// `RowFault::Memory` is want of memory.
pub fn object<S: ScalarValue + Drop, C: Drop>(
    alloc: Global,
    head: &str,
    interfaces: &[&str],
    rows: &[&str],
) -> Result<MetaType<S, C>, RowFault>
    ensures { Answers (spec.IsMadeOf (row_specs.FieldMeans S.reads S.of_bool S.answer) spec.object
        head.entry rows.now interfaces.now)
        (spec.RefusesFields S.reads S.of_bool S.answer head.entry interfaces.now rows.now)
        row_specs.IsMemory result }
{
    let own = head_of(alloc, head)?;
    let listed = names_of(alloc, interfaces)?;
    let fields = NamedItems::from_items(fields_of(alloc, head, rows)?)?;
    let meta = ObjectMeta {
        name: own.name,
        description: own.description,
        fields,
        interface_names: listed,
    };
    Ok(meta.into_meta())
}

/// The interface of this head, which lists these interfaces, with a field for each row, in order
/// (GraphQL October 2021, 3.7 Interfaces). Errors are those of [`object`].
pub fn interface<S: ScalarValue + Drop, C: Drop>(
    alloc: Global,
    head: &str,
    interfaces: &[&str],
    rows: &[&str],
) -> Result<MetaType<S, C>, RowFault>
    ensures { Answers
        (spec.IsMadeOf (row_specs.FieldMeans S.reads S.of_bool S.answer) spec.interface
        head.entry rows.now interfaces.now)
        (spec.RefusesFields S.reads S.of_bool S.answer head.entry interfaces.now rows.now)
        row_specs.IsMemory result }
{
    let own = head_of(alloc, head)?;
    let listed = names_of(alloc, interfaces)?;
    let fields = NamedItems::from_items(fields_of(alloc, head, rows)?)?;
    let meta = InterfaceMeta {
        name: own.name,
        description: own.description,
        fields,
        interface_names: listed,
    };
    Ok(meta.into_meta())
}

/// The union of this head and of these members, in order (GraphQL October 2021, 3.8 Unions).
///
/// An error is a refusal: its head is none, as [`object`] says, or the name of a member is none.
/// `RowFault::Memory` is want of memory.
pub fn union_type<S: ScalarValue + Drop, C: Drop>(
    alloc: Global,
    head: &str,
    members: &[&str],
) -> Result<MetaType<S, C>, RowFault>
    ensures { Answers (spec.IsMade row_specs.NameMeans spec.union_type head.entry members.now)
        (spec.Refuses row_specs.RefusesName head.entry members.now) row_specs.IsMemory result }
{
    let own = head_of(alloc, head)?;
    let members = names_of(alloc, members)?;
    let meta = UnionMeta {
        name: own.name,
        description: own.description,
        of_type_names: members,
    };
    Ok(meta.into_meta())
}

/// The enum of this head, with a value for each row, in order, as `"In 1980." EMPIRE @deprecated`,
/// that accepts what the check accepts of them (GraphQL October 2021, 3.9 Enums).
///
/// An error is a refusal: its head is none, as [`object`] says, or a row is no definition of a
/// value, with the row's first fault, or tells of itself what it can't. `RowFault::Memory` is want
/// of memory.
pub fn enumeration<S: ScalarValue + Drop, C: Drop>(
    alloc: Global,
    head: &str,
    rows: &[&str],
    check: C,
) -> Result<MetaType<S, C>, RowFault>
    ensures { Answers (spec.IsMade (row_specs.ValueMeans S.reads S.of_bool S.answer)
        (spec.enumeration check) head.entry rows.now)
        (spec.Refuses (row_specs.RefusesValue S.reads S.of_bool S.answer head.now) head.entry
        rows.now) row_specs.IsMemory result }
{
    let own = head_of(alloc, head)?;
    let values = NamedItems::from_items(values_of::<S>(alloc, head, rows)?)?;
    let meta = EnumMeta {
        name: own.name,
        description: own.description,
        values,
        check,
    };
    Ok(meta.into_meta())
}

/// The input object of this head, with a field for each row, in order, as `first: Int = 10`, that
/// accepts what the check accepts (GraphQL October 2021, 3.10 Input Objects).
///
/// An error is a refusal: its head is none, as [`object`] says, or a row is no definition of an
/// input field, with the row's first fault, or tells of itself what it can't. `RowFault::Memory` is
/// want of memory.
pub fn input_object<S: ScalarValue + Drop, C: Drop>(
    alloc: Global,
    head: &str,
    rows: &[&str],
    check: C,
) -> Result<MetaType<S, C>, RowFault>
    ensures { Answers (spec.IsMade (row_specs.ArgumentMeans S.reads S.of_bool)
        (spec.input_object check) head.entry rows.now)
        (spec.Refuses (row_specs.RefusesArgument S.reads S.of_bool head.now) head.entry rows.now)
        row_specs.IsMemory result }
{
    let own = head_of(alloc, head)?;
    let fields = NamedItems::from_items(arguments_of(alloc, head, rows)?)?;
    let meta = InputObjectMeta {
        name: own.name,
        description: own.description,
        input_fields: fields,
        check,
        exactly_one: false,
    };
    Ok(meta.into_meta())
}

/// The same, of which exactly one field is given, and not `null`, as `input By @oneOf { .. }` says
/// it: so each row has to be a field with `null` and without a default, which a schema asks
/// (`SchemaError::BadOneOf`). Errors are those of [`input_object`].
pub fn one_of<S: ScalarValue + Drop, C: Drop>(
    alloc: Global,
    head: &str,
    rows: &[&str],
    check: C,
) -> Result<MetaType<S, C>, RowFault>
    ensures { Answers (spec.IsMade (row_specs.ArgumentMeans S.reads S.of_bool) (spec.one_of check)
        head.entry rows.now)
        (spec.Refuses (row_specs.RefusesArgument S.reads S.of_bool head.now) head.entry rows.now)
        row_specs.IsMemory result }
{
    let own = head_of(alloc, head)?;
    let fields = NamedItems::from_items(arguments_of(alloc, head, rows)?)?;
    let meta = InputObjectMeta {
        name: own.name,
        description: own.description,
        input_fields: fields,
        check,
        exactly_one: true,
    };
    Ok(meta.into_meta())
}
