//! What nodes answer.

ghost use Rattle.std.specs.Prelude.{◌≡◌};
ghost use Rattle.std.specs.Option.{option_map};
ghost use Rattle.graphql_text.specs.Memory.{Gives};
ghost use Rattle.graphql_arguments.specs.GivenValues.{arguments_told};
ghost use Rattle.graphql_records.specs.Answers as spec;

use crate::asked::{first_asked, id_asked};
use crate::field_value::FieldValue;
use crate::lookups::known_field;
use crate::record::Record;
use crate::records::Records;
use crate::table_node::TableNode;
use crate::table_type::{TableField, TableType};
use crate::value_answers::{Answer, at_leaf, at_links, cut, picked};
use graphql_arguments::Arguments;
use graphql_field_results::Resolved;
use graphql_names::NamedItems;
use graphql_scalars::DefaultScalarValue;
use graphql_text::Text;
use std::alloc::{AllocError, Global};

/// What a missing field is: a missing `id` the record's id, another null. An error is want of
/// memory.
fn missing(id: &Text, field: &str) -> Result<FieldValue, AllocError>
    ensures { Gives result (spec.missing id.now field.now) }
{
    if field == "id" {
        return Ok(FieldValue::Scalar(DefaultScalarValue::String(id.clone()?)));
    }
    Ok(FieldValue::Null)
}

/// What a value answers at a composite type: all links, or the one that is asked for. An error is
/// want of memory.
fn links_asked(
    records: &Records,
    value: &FieldValue,
    id: Option<Text>,
) -> Result<Answer, AllocError>
    ensures { Gives result (spec.links_asked records.now.entries id value.now) }
{
    match id {
        Some(id) => Ok(picked(records, value, &id)),
        None => at_links(records, value),
    }
}

/// What a value answers. An error is want of memory.
fn value_answer(
    alloc: Global,
    records: &Records,
    is_leaf: bool,
    arguments: &Arguments<'_, DefaultScalarValue>,
    value: &FieldValue,
) -> Result<Answer, AllocError>
    ensures { let given = arguments_told arguments.now in
        Gives result (spec.value_answer records.now.entries is_leaf given value.now) }
{
    if is_leaf {
        at_leaf(value)
    } else {
        links_asked(records, value, id_asked(alloc, arguments)?)
    }
}

/// What a field of this value answers. An error is want of memory.
fn field_answer(
    alloc: Global,
    records: &Records,
    field: &TableField,
    arguments: &Arguments<'_, DefaultScalarValue>,
    value: &FieldValue,
) -> Result<Answer, AllocError>
    ensures { let given = arguments_told arguments.now in
        Gives result (spec.field_answer records.now.entries field.now given value.now) }
{
    let answer = value_answer(alloc, records, field.is_leaf, arguments, value)?;
    Ok(cut(answer, first_asked(arguments)))
}

/// What a known field of a record answers. An error is want of memory.
fn known_answer(
    alloc: Global,
    records: &Records,
    id: &Text,
    found: &Record,
    field: &TableField,
    name: &str,
    arguments: &Arguments<'_, DefaultScalarValue>,
) -> Result<Answer, AllocError>
    ensures { let given = arguments_told arguments.now in
        let value = spec.value_in_record id.now found.now name.now in
        Gives result (spec.field_answer records.now.entries field.now given value) }
{
    match found.value_of(name) {
        Some(value) => field_answer(alloc, records, field, arguments, value),
        None => {
            let value = missing(id, name)?;
            field_answer(alloc, records, field, arguments, &value)
        }
    }
}

/// What a field of a record answers. An error is want of memory.
fn record_answer(
    alloc: Global,
    types: &NamedItems<TableType>,
    records: &Records,
    id: &Text,
    found: &Record,
    name: &str,
    arguments: &Arguments<'_, DefaultScalarValue>,
) -> Result<Answer, AllocError>
    ensures { let given = arguments_told arguments.now in
        let entries = records.now.entries in
        Gives result (spec.record_answer types.now entries id.now found.now name.now given) }
{
    match known_field(types, found.type_name.as_str(), name) {
        Some(field) => known_answer(alloc, records, id, found, field, name, arguments),
        None => Ok(Resolved::Null),
    }
}

/// The record of a node, with its id.
fn record_at<'a>(records: &'a Records, node: &TableNode) -> Option<(&'a Text, &'a Record)>
    ensures { option_map (λ r. (r.0.now, r.1.now)) result ≡ spec.record_at records.now node.now }
{
    match node {
        TableNode::Root => records.get(records.root()),
        TableNode::At(place) => records.get(*place),
    }
}

/// What a field of a node answers (GraphQL October 2021, 6.4.2 Value Resolution): the value that
/// the node's record has for it; where it has none, for `id` the record's id, else null. Null too
/// for a field that the record's type lacks, and of a node without a record.
///
/// At a composite type texts are links to the records of these ids, null where there is none, and
/// other scalars are answered as they are. There an argument `id`, a text or an integer by its
/// decimal text, picks the first link to it, in the value or its lists however deep, else null; one
/// that is null, or of another form, asks for nothing. At each type an argument `first`, an
/// integer, cuts a list to so many first items, to none where it is negative: the outermost list
/// alone, and after `id` has picked, so that what is picked stays whole. An error is want of
/// memory.
pub fn node_answer(
    alloc: Global,
    types: &NamedItems<TableType>,
    records: &Records,
    node: &TableNode,
    name: &str,
    arguments: &Arguments<'_, DefaultScalarValue>,
) -> Result<Answer, AllocError>
    ensures { let given = arguments_told arguments.now in
        Gives result (spec.answer types.now records.now node.now name.now given) }
{
    match record_at(records, node) {
        Some((id, found)) => record_answer(alloc, types, records, id, found, name, arguments),
        None => Ok(Resolved::Null),
    }
}

/// The name of a node's object type; the empty one where it has no record.
pub fn type_of<'a>(records: &'a Records, node: &TableNode) -> &'a str
    ensures { result.now ≡ spec.type_of records.now node.now }
{
    match record_at(records, node) {
        Some((_, found)) => found.type_name.as_str(),
        None => "",
    }
}
