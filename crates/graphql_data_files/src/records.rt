//! The records of a file, judged by the types that a table knows.

ghost use Rattle.std.specs.Prelude.{◌≡◌};
ghost use Rattle.std.specs.List.{list_all};
ghost use Rattle.graphql_text.specs.Memory.{Meets};
ghost use Rattle.graphql_data_files.specs.DataFiles as spec;
ghost use Rattle.graphql_data_files.specs.Links as link;
ghost use Rattle.graphql_data_files.specs.declared.data_file_error.DataFileError.TheVariants.{Memory};

use crate::data_file_error::DataFileError;
use crate::links::all_lead;
use graphql_names::NamedItems;
use graphql_records::{FieldValue, Record, Records, TableType, is_possible, known_field};
use graphql_text::{Items, Text};
use std::alloc::Global;

/// Whether a record is of an object type.
pub(crate) fn is_of_object_type(types: &NamedItems<TableType>, record: &(Text, Record)) -> bool
    ensures { result ≡ spec.is_of_object_type types.now record.now }
{
    is_possible(types, record.1.type_name.as_str(), &record.1.type_name)
}

/// Whether each record is of an object type.
fn are_of_object_types(types: &NamedItems<TableType>, records: &[(Text, Record)]) -> bool
    ensures { result ≡ list_all (spec.is_of_object_type types.now) records.now }
{
    records
        .iter()
        .all(|record| is_of_object_type(types, record))
}

/// Whether an object type has a field.
pub(crate) fn has_field(
    types: &NamedItems<TableType>,
    object: &str,
    field: &(Text, FieldValue),
) -> bool
    ensures { result ≡ spec.has_field types.now object.now field.now }
{
    known_field(types, object, field.0.as_str()).is_some()
}

/// Whether a record's type has each of the record's fields.
pub(crate) fn has_fields(types: &NamedItems<TableType>, record: &(Text, Record)) -> bool
    ensures { result ≡ spec.has_fields types.now record.now }
{
    let object = record.1.type_name.as_str();
    record
        .1
        .fields
        .as_slice()
        .iter()
        .all(|field| has_field(types, object, field))
}

/// Whether each record's type has each of the record's fields.
fn have_fields(types: &NamedItems<TableType>, records: &[(Text, Record)]) -> bool
    ensures { result ≡ list_all (spec.has_fields types.now) records.now }
{
    records.iter().all(|record| has_fields(types, record))
}

/// Whether the record at a place is of the query type.
fn is_query(records: &Records, query: &str, place: usize) -> bool
    ensures { result ≡ link.is_query records.now.entries query.now place }
{
    match records.get(place) {
        Some((_, record)) => query == record.type_name.as_str(),
        None => false,
    }
}

/// The place of the record of an id, if it is of the query type.
fn root_of(records: &Records, query: &str, id: &Text) -> Option<usize>
    ensures { result ≡ link.query_root records.now.entries query.now id.now }
{
    let place = records.place_of(id)?;
    if is_query(records, query, place) {
        Some(place)
    } else {
        None
    }
}

/// The table whose queries start from the record of an id, if that is of the query type.
fn rooted(query: &str, id: &Text, mut records: Records) -> Result<Records, DataFileError>
    ensures { result ≡ spec.rooted query.now id.now records.entries }
{
    match root_of(&records, query, id) {
        Some(place) => {
            records.set_root(place);
            Ok(records)
        }
        None => Err(DataFileError::BadRoot),
    }
}

/// The table of records whose fields are known, or the first of its faults.
fn linked(
    types: &NamedItems<TableType>,
    query: &str,
    root: &Text,
    records: Records,
) -> Result<Records, DataFileError>
    ensures { result ≡ spec.linked types.now query.now root.now records.entries }
{
    if all_lead(types, &records) {
        rooted(query, root, records)
    } else {
        Err(DataFileError::BadLink)
    }
}

/// The table of records, or the first of their faults. `Memory` is want of memory.
pub(crate) fn judged(
    alloc: Global,
    types: &NamedItems<TableType>,
    query: &str,
    root: &str,
    records: Items<(Text, Record)>,
) -> Result<Records, DataFileError>
    ensures { Meets (λ e. e ≡ Memory) result (spec.judged types.now query.now root.now records) }
{
    let root = Text::from_str(alloc, root)?;
    // The table takes the records over, and tells whether ids repeat: a fault that comes before
    // these.
    let are_typed = are_of_object_types(types, records.as_slice());
    let are_known = have_fields(types, records.as_slice());
    let Some(records) = Records::from_items(alloc, records)? else {
        return Err(DataFileError::DuplicateId);
    };
    if !are_typed {
        return Err(DataFileError::UnknownType);
    }
    if !are_known {
        return Err(DataFileError::UnknownField);
    }
    linked(types, query, &root, records)
}
