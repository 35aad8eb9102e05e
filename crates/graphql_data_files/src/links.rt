//! Links that lead to records.

ghost use Rattle.std.specs.Prelude.{◌≡◌};
ghost use Rattle.std.specs.List.{list_all};
ghost use Rattle.graphql_data_files.specs.Links as spec;

use graphql_names::NamedItems;
use graphql_records::{FieldValue, Record, Records, TableType, known_field};
use graphql_scalars::DefaultScalarValue;
use graphql_text::Text;

/// Whether a scalar that is a text leads to a record.
fn scalar_leads(records: &Records, scalar: &DefaultScalarValue) -> bool
    ensures { result ≡ spec.scalar_leads records.now.entries scalar.now }
{
    match scalar {
        DefaultScalarValue::String(id) => records.place_of(id).is_some(),
        _ => true,
    }
}

/// Whether each text in a value or its lists leads to a record. Takes stack for each level that
/// lists nest, of which `serde_json` reads 127 at most.
#[cycle(leads)]
#[tactic(auto, using(graphql_records::proofs::ValueEquations::value_folds))]
fn value_leads(records: &Records, value: &FieldValue) -> bool
    ensures { result ≡ spec.value_leads records.now.entries value.now }
{
    match value {
        FieldValue::Null => true,
        FieldValue::Scalar(scalar) => scalar_leads(records, scalar),
        FieldValue::List(values) => values_lead(records, values.as_slice()),
    }
}

/// Whether each text in each value leads to a record.
#[cycle(leads)]
#[tactic(auto, using(graphql_records::proofs::ValueEquations::value_folds))]
fn values_lead(records: &Records, values: &[FieldValue]) -> bool
    ensures { result ≡ list_all (spec.value_leads records.now.entries) values.now }
{
    'values: for value in values {
        if !value_leads(records, value) {
            return false;
        }
    }
    true
}

/// Whether each link in a field's value leads to a record. At a leaf type there are none.
pub(crate) fn field_leads(
    types: &NamedItems<TableType>,
    records: &Records,
    object: &str,
    field: &(Text, FieldValue),
) -> bool
    ensures { result ≡ spec.field_leads records.now.entries types.now object.now field.now }
{
    match known_field(types, object, field.0.as_str()) {
        Some(known) => known.is_leaf || value_leads(records, &field.1),
        None => true,
    }
}

/// Whether each link in a record leads to a record.
pub(crate) fn record_leads(
    types: &NamedItems<TableType>,
    records: &Records,
    record: &Record,
) -> bool
    ensures { result ≡ spec.record_leads records.now.entries types.now record.now }
{
    let object = record.type_name.as_str();
    record
        .fields
        .as_slice()
        .iter()
        .all(|field| field_leads(types, records, object, field))
}

/// Whether each link in the record at a place, if there is one, leads to a record.
fn leads_at(types: &NamedItems<TableType>, records: &Records, place: usize) -> bool
    ensures { result ≡ spec.leads_at records.now.entries types.now place }
{
    match records.get(place) {
        Some((_, record)) => record_leads(types, records, record),
        None => true,
    }
}

/// Whether each link in each record leads to a record.
pub(crate) fn all_lead(types: &NamedItems<TableType>, records: &Records) -> bool
    ensures { result ≡ spec.all_lead records.now.entries types.now }
{
    'records: for place in 0..records.len() {
        if !leads_at(types, records, place) {
            return false;
        }
    }
    true
}
