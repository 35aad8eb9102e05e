//! Records.

ghost use Rattle.std.specs.Prelude.{◌≡◌, ◌+◌, ◌<◌, ◌≤◌, length, position, vec_capacity, vec_len};
ghost use Rattle.std.specs.Prelude.{OnErr, OnOk};
ghost use Rattle.std.specs.Option.{option_copied};
ghost use Rattle.std.specs.Str.{bytes_eq};
ghost use Rattle.graphql_output_values.specs.Objects.{field_value, with_field, with_fields};

use crate::field_value::FieldValue;
use graphql_names::same_name;
use graphql_text::{Items, Text};
use std::alloc::AllocError;
use std::mem;

/// Values of fields, by the fields' names.
pub type Fields = Items<(Text, FieldValue)>;

/// What is known of an object.
#[derive(Drop)]
pub struct Record {
    /// The name of its object type.
    pub type_name: Text,

    /// The values of its fields, by their names.
    pub fields: Items<(Text, FieldValue)>,
}

impl Record {
    /// The value of a field, if it has one.
    pub fn value_of(&self, name: &str) -> Option<&FieldValue>
        ensures { option_copied result ≡ field_value self.now.fields name.now }
    {
        match place_of(self.fields.as_slice(), name) {
            Some(place) => Some(&self.fields.as_slice()[place].1),
            None => None,
        }
    }
}

/// Where the value of a field stands.
fn place_of(fields: &[(Text, FieldValue)], name: &str) -> Option<usize>
    ensures { result ≡ position (λ field. bytes_eq name.now field.0) fields.now }
{
    fields
        .iter()
        .position(|field| same_name(name, field.0.as_str()))
}

/// Sets a value in the field of its name; a new field stands behind the others. There is room for
/// it.
fn set_value(fields: &mut Vec<(Text, FieldValue)>, name: Text, value: FieldValue)
    requires { vec_len fields.old < vec_capacity fields.old }
    ensures value { fields.new.items ≡ with_field fields.old.items name value }
    ensures len { vec_len fields.new ≤ vec_len fields.old + 1 }
    ensures room { vec_capacity fields.new ≡ vec_capacity fields.old }
{
    match place_of(fields.as_slice(), name.as_str()) {
        Some(place) => fields[place].1 = value,
        None => fields.push_reserved((name, value)),
    }
}

/// Sets values in the fields of their names, in turn. There is room for as many new fields.
fn set_in_turn(fields: &mut Vec<(Text, FieldValue)>, values: Fields)
    requires { vec_len fields.old + length values ≤ vec_capacity fields.old }
    ensures { fields.new.items ≡ with_fields fields.old.items values }
{
    'values: for (name, value) in values.into_vec() {
        set_value(fields, name, value);
    }
}

/// Sets values in the fields of their names, in turn; a new field stands behind the others. An
/// error is want of memory, and sets none.
pub(crate) fn set_values(fields: &mut Fields, values: Fields) -> Result<(), AllocError>
    ensures ok { OnOk result (fields.new ≡ with_fields fields.old values) }
    ensures err { OnErr result (fields.new ≡ fields.old) }
{
    let none = Items::new(*fields.allocator());
    let mut held = mem::replace(fields, none).into_vec();
    let room = held.reserve(values.len());
    if room.is_ok() {
        set_in_turn(&mut held, values);
    }
    *fields = Items::from_vec(held);
    room
}
