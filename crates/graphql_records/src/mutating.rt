//! What the fields of a mutation's root set in records.

ghost use Rattle.std.specs.Prelude.{◌≡◌, OnErr, OnOk};
ghost use Rattle.graphql_text.specs.Memory.{Gives};
ghost use Rattle.graphql_arguments.specs.GivenValues.{arguments_told};
ghost use Rattle.graphql_field_results.specs.Answered.{Answered, Leaves};
ghost use Rattle.graphql_records.specs.ValuesSet.{changed, once_set, once_changed};
ghost use Rattle.graphql_records.specs.Settings as spec;

use crate::asked::id_asked;
use crate::lookups::is_possible;
use crate::record::{Fields, Record};
use crate::records::Records;
use crate::setting::values_of;
use crate::table_node::TableNode;
use crate::table_type::TableType;
use crate::value_answers::Answer;
use graphql_arguments::Arguments;
use graphql_field_results::{FieldError, FieldFault, FieldResult, Resolved};
use graphql_names::NamedItems;
use graphql_scalars::DefaultScalarValue;
use graphql_text::Text;
use std::alloc::{AllocError, Global};

/// A record can't stand at a place of a type. An error is want of memory.
fn misfit_record(
    alloc: Global,
    id: &str,
    of_type: &str,
) -> Result<FieldError<DefaultScalarValue>, AllocError>
    ensures { Gives result (spec.misfit_record id.now of_type.now) }
{
    let message = format!(in alloc; "Record \"{id}\" does not fit type {of_type}")?;
    Ok(FieldError::of(Text::from_string(message)))
}

/// The values that the arguments of a mutation's field set in a record. An error says why they are
/// not set, or is want of memory.
fn values_for(
    alloc: Global,
    types: &NamedItems<TableType>,
    of_type: &str,
    id: &Text,
    found: &Record,
    arguments: &Arguments<'_, DefaultScalarValue>,
) -> FieldResult<Fields, DefaultScalarValue>
    ensures { let given = arguments_told arguments.now in
        Answered (spec.fields_set types.now of_type.now id.now found.now given)
        (once_set found.now.fields result) }
{
    if !is_possible(types, of_type, &found.type_name) {
        return Err(FieldFault::Error(misfit_record(alloc, id.as_str(), of_type)?));
    }
    values_of(alloc, types, found.type_name.as_str(), arguments)
}

/// The same of the record at a place; none where there is no record.
fn values_at(
    alloc: Global,
    types: &NamedItems<TableType>,
    records: &Records,
    of_type: &str,
    place: usize,
    arguments: &Arguments<'_, DefaultScalarValue>,
) -> FieldResult<Option<Fields>, DefaultScalarValue>
    ensures { let given = arguments_told arguments.now in
        Answered (spec.fields_set_at types.now records.now.entries of_type.now given place)
        (once_changed records.now.entries place result) }
{
    match records.get(place) {
        Some((id, found)) => {
            let values = values_for(alloc, types, of_type, id, found, arguments)?;
            Ok(Some(values))
        }
        None => Ok(None),
    }
}

/// Where the record stands that arguments ask for by `id`, if there is one. An error is want of
/// memory.
fn place_asked(
    alloc: Global,
    records: &Records,
    arguments: &Arguments<'_, DefaultScalarValue>,
) -> Result<Option<usize>, AllocError>
    ensures { Gives result (spec.place_asked records.now.entries (arguments_told arguments.now)) }
{
    match id_asked(alloc, arguments)? {
        Some(id) => Ok(records.place_of(&id)),
        None => Ok(None),
    }
}

/// Sets values in the fields of the record at a place, if there are any; the record's node, null
/// where there are none. An error is want of memory, and sets none.
fn set_record(
    records: &mut Records,
    place: usize,
    values: Option<Fields>,
) -> Result<Answer, AllocError>
    ensures answer { Gives result (spec.node_set place (changed records.old.entries place values)) }
    ensures after { OnOk result (records.new ≡ spec.record_set records.old place
        (changed records.old.entries place values)) }
    ensures err { OnErr result (records.new ≡ records.old) }
{
    match values {
        Some(values) => {
            records.set_values(place, values)?;
            Ok(Resolved::Node(TableNode::At(place)))
        }
        None => Ok(Resolved::Null),
    }
}

/// What a field of a mutation's root answers, and sets, by the innermost name of its type (GraphQL
/// October 2021, 6.2.2 Mutation): the record whose id is the argument `id`, a text or the decimal
/// text of an integer, in which each other argument that has a value sets the field of its name;
/// null where there is no such record. A scalar is set as it is, an enum value as the text of its
/// name; null, an object and a variable set null. A new field stands behind the record's others. Of
/// several arguments of one name, which no valid document has, the last one sets.
///
/// An error says why nothing is set: the record's type is not possible at the field's, or which
/// argument but `id`, the first in order, has a list for its own value or names no field of the
/// record's type that is, non-null aside, a scalar. No record is changed then. `FieldFault::Memory`
/// is want of memory, and changes nothing.
pub fn set_asked(
    alloc: Global,
    types: &NamedItems<TableType>,
    records: &mut Records,
    of_type: &str,
    arguments: &Arguments<'_, DefaultScalarValue>,
) -> FieldResult<Answer, DefaultScalarValue>
    ensures answer { let given = arguments_told arguments.now in
        Answered (spec.root_answer types.now records.old of_type.now given) result }
    ensures after { let given = arguments_told arguments.now in
        Leaves records.old (spec.table_after types.now records.old of_type.now given) result
        records.new }
{
    let Some(place) = place_asked(alloc, &*records, arguments)? else {
        return Ok(Resolved::Null);
    };
    let values = values_at(alloc, types, &*records, of_type, place, arguments)?;
    Ok(set_record(records, place, values)?)
}
