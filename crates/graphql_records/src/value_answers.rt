//! What values of fields answer.

ghost use Rattle.std.specs.Prelude.{◌≡◌, map};
ghost use Rattle.std.specs.List.{list_any};
ghost use Rattle.graphql_text.specs.Memory.{Gives};
ghost use Rattle.graphql_records.specs.Fields as spec;

use crate::field_value::FieldValue;
use crate::records::Records;
use crate::table_node::TableNode;
use graphql_field_results::Resolved;
use graphql_scalars::DefaultScalarValue;
use graphql_text::{Items, Text};
use std::alloc::{AllocError, Global};

/// What a table answers for a field.
pub type Answer = Resolved<DefaultScalarValue, TableNode>;

/// What a value answers at a leaf type: itself. Takes stack for each level that lists nest. An
/// error is want of memory.
#[cycle(leaves)]
#[tactic(auto, using(crate::proofs::ValueEquations::value_folds))]
pub(crate) fn at_leaf(value: &FieldValue) -> Result<Answer, AllocError>
    ensures { Gives result (spec.at_leaf value.now) }
{
    match value {
        FieldValue::Null => Ok(Resolved::Null),
        FieldValue::Scalar(scalar) => Ok(Resolved::Scalar(scalar.clone()?)),
        FieldValue::List(values) => Ok(Resolved::List(leaves(values)?)),
    }
}

/// What values answer at a leaf type.
#[cycle(leaves)]
#[tactic(auto, using(crate::proofs::ValueEquations::value_folds))]
fn leaves(values: &Items<FieldValue>) -> Result<Items<Answer>, AllocError>
    ensures { Gives result (map spec.at_leaf values.now) }
{
    let mut answers = Items::with_capacity(*values.allocator(), values.len())?;
    'values: for value in values.as_slice() {
        answers.push(at_leaf(value)?)?;
    }
    Ok(answers)
}

/// The record of an id, null where there is none.
pub(crate) fn linked(records: &Records, id: &Text) -> Answer
    ensures { result ≡ spec.linked records.now.entries id.now }
{
    match records.place_of(id) {
        Some(place) => Resolved::Node(TableNode::At(place)),
        None => Resolved::Null,
    }
}

/// A scalar where texts are links. An error is want of memory.
fn link_of_scalar(records: &Records, scalar: &DefaultScalarValue) -> Result<Answer, AllocError>
    ensures { Gives result (spec.link_of_scalar records.now.entries scalar.now) }
{
    match scalar {
        DefaultScalarValue::String(id) => Ok(linked(records, id)),
        _ => Ok(Resolved::Scalar(scalar.clone()?)),
    }
}

/// What a value answers at a composite type, where texts are links, and other scalars themselves.
/// Takes stack for each level that lists nest. An error is want of memory.
#[cycle(links)]
#[tactic(auto, using(crate::proofs::ValueEquations::value_folds))]
pub(crate) fn at_links(records: &Records, value: &FieldValue) -> Result<Answer, AllocError>
    ensures { Gives result (spec.at_links records.now.entries value.now) }
{
    match value {
        FieldValue::Null => Ok(Resolved::Null),
        FieldValue::Scalar(scalar) => link_of_scalar(records, scalar),
        FieldValue::List(values) => Ok(Resolved::List(links(records, values)?)),
    }
}

/// What values answer at a composite type.
#[cycle(links)]
#[tactic(auto, using(crate::proofs::ValueEquations::value_folds))]
fn links(records: &Records, values: &Items<FieldValue>) -> Result<Items<Answer>, AllocError>
    ensures { Gives result (map (spec.at_links records.now.entries) values.now) }
{
    let mut answers = Items::with_capacity(*values.allocator(), values.len())?;
    'values: for value in values.as_slice() {
        answers.push(at_links(records, value)?)?;
    }
    Ok(answers)
}

/// Whether a scalar is a link to an id.
fn is_link(scalar: &DefaultScalarValue, id: &str) -> bool
    ensures { result ≡ spec.is_link id.now scalar.now }
{
    match scalar {
        DefaultScalarValue::String(other) => other.is(id),
        _ => false,
    }
}

/// Whether a link to an id stands in a value or its lists. Takes stack for each level that lists
/// nest.
#[cycle(has_link)]
#[tactic(auto, using(crate::proofs::ValueEquations::value_folds))]
fn has_link(value: &FieldValue, id: &str) -> bool
    ensures { result ≡ spec.has_link id.now value.now }
{
    match value {
        FieldValue::Null => false,
        FieldValue::Scalar(scalar) => is_link(scalar, id),
        FieldValue::List(values) => have_link(values.as_slice(), id),
    }
}

/// Whether a link to an id stands in one of the values.
#[cycle(has_link)]
#[tactic(auto, using(crate::proofs::ValueEquations::value_folds))]
fn have_link(values: &[FieldValue], id: &str) -> bool
    ensures { result ≡ list_any (spec.has_link id.now) values.now }
{
    'values: for value in values {
        if has_link(value, id) {
            return true;
        }
    }
    false
}

/// The record of the first link equal to an id in a value or its lists, null where there is none.
pub(crate) fn picked(records: &Records, value: &FieldValue, id: &Text) -> Answer
    ensures { result ≡ spec.picked records.now.entries id.now value.now }
{
    if has_link(value, id.as_str()) {
        linked(records, id)
    } else {
        Resolved::Null
    }
}

/// How many items an integer asks for: none where it is negative.
fn count_of(count: i32) -> usize
    ensures { result ≡ spec.count_of count }
{
    match usize::try_from(count) {
        Ok(count) => count,
        Err(_) => 0,
    }
}

/// An answer of which, if it is a list, so many first items stay.
pub(crate) fn cut(answer: Answer, first: Option<i32>) -> Answer
    ensures { result ≡ spec.cut_to first answer }
{
    match (answer, first) {
        (Resolved::List(mut answers), Some(count)) => {
            answers.truncate(count_of(count));
            Resolved::List(answers)
        }
        (answer, _) => answer,
    }
}
