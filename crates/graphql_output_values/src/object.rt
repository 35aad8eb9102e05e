//! Objects: fields with their values.

ghost use Rattle.std.specs.Prelude.{◌≡◌, ◌↔◌, IsTrue, [], Some, None, IfOk, OnOk, OnErr, length};
ghost use Rattle.std.specs.Prelude.{is_some, position, ◌<◌, ◌^◌, slice_get};
ghost use Rattle.std.specs.Borrow.{sem};
ghost use Rattle.std.specs.Option.{option_copied, option_copied_mut, option_map};
ghost use Rattle.std.specs.Str.{bytes_eq};
ghost use Rattle.std.specs.Slice.Iter.{iter_rest, iter_steps};
ghost use Rattle.std.specs.Iterator.Runs.{EveryRun, ItemsMapTo};
ghost use Rattle.graphql_output_values.specs.DistinctKeys.{HasDistinctKeysThroughout};
ghost use Rattle.graphql_output_values.specs.DistinctKeys.{ObjectHasDistinctKeysThroughout};
ghost use Rattle.graphql_output_values.specs.FieldsLent.{fields_left};
ghost use Rattle.graphql_output_values.specs.Lending.{LendsField, LendsFields, LendsPlace};
ghost use Rattle.graphql_output_values.specs.Objects.{HasDistinctKeys, field_value, with_field};

mod fields_mut;
mod traits;

use crate::key::Key;
use crate::value::Value;
pub use fields_mut::FieldsMut;
use graphql_text::Items;
use std::alloc::{AllocError, Global};
use std::mem;
use std::slice::Iter;

/// Fields with their values, in order; no two fields have one key (GraphQL October 2021, 7.2.2
/// Serialized Map Ordering). The list is private, and each call that makes or changes an object
/// keeps its keys distinct: they say so by contract, since a type that holds itself can keep no
/// such fact. Keys are found by a scan: an object has few fields. Where each object in the values
/// has distinct keys too, each call keeps that, by contract or by the laws of `laws`.
#[cycle(values)]
#[derive(Debug, Drop)]
pub struct Object<S> {
    pub(crate) fields: Items<(Key, Value<S>)>,
}

impl<S> Object<S> {
    /// The object of no field. Room for `capacity` fields is asked for at once, which contracts do
    /// not see. An error is want of memory.
    pub fn with_capacity(alloc: Global, capacity: usize) -> Result<Object<S>, AllocError>
        ensures { IfOk result (λ object. object.fields ≡ []) }
    {
        Ok(Object {
            fields: Items::with_capacity(alloc, capacity)?,
        })
    }

    /// The object of these fields, whose keys are distinct. It looks for no key, and takes no
    /// memory.
    pub fn from_distinct(fields: Items<(Key, Value<S>)>) -> Object<S>
        requires { HasDistinctKeys fields }
        ensures { result.fields ≡ fields }
    {
        Object { fields }
    }

    /// How many fields there are.
    pub fn field_count(&self) -> usize
        ensures { result ≡ length self.now.fields }
    {
        self.fields.len()
    }

    /// The place of the field of this key, counted from zero. A scan.
    pub(crate) fn place_of(&self, key: &str) -> Option<usize>
        ensures { result ≡ position (λ field. bytes_eq key.now field.0) self.now.fields }
    {
        self.fields.iter().position(|field| key == field.0.as_str())
    }

    /// Whether the first field of this key stands at this place. A scan.
    pub(crate) fn is_first(&self, key: &str, place: usize) -> bool
        ensures { IsTrue result
            ↔ (position (λ field. bytes_eq key.now field.0) self.now.fields ≡ Some place) }
    {
        self.place_of(key) == Some(place)
    }

    /// Whether there is a field of this key. A scan.
    pub fn contains_field(&self, key: &str) -> bool
        ensures { result ≡ is_some (field_value self.now.fields key.now) }
    {
        self.place_of(key).is_some()
    }

    /// The value of the field of this key, if there is one. A scan.
    pub fn get_field_value(&self, key: &str) -> Option<&Value<S>>
        ensures { option_copied result ≡ field_value self.now.fields key.now }
    {
        match self.place_of(key) {
            Some(place) => Some(&self.fields.as_slice()[place].1),
            None => None,
        }
    }

    /// Puts `value` under `key`. Where a field has the key, it keeps its place, and its old value
    /// comes back; else the field is the last. An error is want of memory, at a field that is new:
    /// the object stays. A scan, so that as many calls as there are fields take the square of their
    /// number: where the keys are known to be distinct, `from_distinct` makes the object of all
    /// fields at once. The law `distinct_under_keys` speaks of the old value's keys.
    pub fn add_field(&mut self, key: Key, value: Value<S>) -> Result<Option<Value<S>>, AllocError>
    where
        S: Drop,
        ensures old { IfOk result (λ old. old ≡ field_value self.old.fields key) }
        ensures fields { OnOk result (self.new.fields ≡ with_field self.old.fields key value) }
        ensures err { OnErr result (self.new ≡ self.old) }
        ensures absent { OnErr result (field_value self.old.fields key ≡ None) }
        ensures distinct { HasDistinctKeys self.old.fields → HasDistinctKeys self.new.fields }
        ensures throughout { ObjectHasDistinctKeysThroughout self.old
            → HasDistinctKeysThroughout value → ObjectHasDistinctKeysThroughout self.new }
    {
        match self.place_of(key.as_str()) {
            Some(place) => {
                let field = &mut self.fields[place];
                Ok(Some(mem::replace(&mut field.1, value)))
            }
            None => {
                self.fields.push((key, value))?;
                Ok(None)
            }
        }
    }

    /// The value of the field at this place, counted from zero, to be written to: the law
    /// `keys_stay_in_place` speaks of the keys.
    pub fn value_mut_at(&mut self, place: usize) -> &mut Value<S>
        requires { place < length self.old.fields }
        ensures* writes_back { sem 𝓛 (LendsPlace S.row self.entry place result) }
        ensures value { option_map (λ field. field.1) (slice_get self.old.fields place)
            ≡ Some result.now }
    {
        let field = &mut self.fields[place];
        &mut field.1
    }

    /// The value of the field of this key, if there is one, to be written to. A scan. The laws
    /// `distinct_under_keys` and `distinct_once_written` speak of the keys in it.
    pub fn get_mut_field_value(&mut self, key: &str) -> Option<&mut Value<S>>
        ensures* writes_back { sem 𝓛 (LendsField S.row self.entry key.now result) }
        ensures value { option_copied_mut result ≡ field_value self.old.fields key.now }
    {
        match self.place_of(key) {
            Some(place) => Some(self.value_mut_at(place)),
            None => None,
        }
    }

    /// The fields in order, each its key and its value, as a slice.
    pub fn as_slice(&self) -> &[(Key, Value<S>)]
        ensures { result.now ≡ self.now.fields }
    {
        self.fields.as_slice()
    }

    /// The fields in order, each its key and its value.
    pub fn iter(&self) -> Iter<'_, (Key, Value<S>)>
        ensures rest { iter_rest result ≡ self.now.fields }
        ensures bound { length (iter_rest result) < 2 ^ 64 }
        ensures runs { EveryRun (iter_steps {A = Key × Value S})
            (λ p. ItemsMapTo p (λ y. y.now) (iter_rest p.from)) }
    {
        self.fields.iter()
    }

    /// The fields in order, each key to be read and each value to be written to: keys are lent for
    /// reading alone, so that they stay, and no field comes or goes. What a loop writes no contract
    /// says: where it must be known, each value is lent by `value_mut_at`.
    pub fn iter_mut(&mut self) -> FieldsMut<'_, S>
        ensures* writes_back { sem 𝓛 (LendsFields S.row self.entry result) }
        ensures rest { fields_left result ≡ self.old.fields }
        ensures bound { length (fields_left result) < 2 ^ 64 }
    {
        FieldsMut {
            rest: self.fields.iter_mut(),
        }
    }
}
