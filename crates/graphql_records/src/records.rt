//! Records, which are answered from and changed.

ghost use Rattle.std.specs.Prelude.{◌≡◌, ◌↔◌, ◌++◌, ◌∷◌, [], false, length, slice_get, option_map};
ghost use Rattle.std.specs.Prelude.{IfOk, IsTrue, OnErr, OnOk};
ghost use Rattle.std.specs.Map.{keys_of};
ghost use Rattle.graphql_names.specs.Names.{is_one_of};
ghost use Rattle.graphql_records.specs.ValuesSet.{values_set};
ghost use Rattle.graphql_records.specs.Tables.{IsTableOf, record_index};

use crate::field_value::FieldValue;
use crate::record::{Record, set_values};
use graphql_text::{Items, Text};
use indexmap::IndexMap;
use std::alloc::{AllocError, Global};
use std::marker::Model;

/// Records, by their ids, in order; and the place of the one from which queries start.
#[derive(Drop)]
pub struct Records {
    by_id: IndexMap<Text, Record>,
    root: usize,
}

/// A contract sees the list of the records with their ids, and the place.
impl Model for Records {
    ghost use Rattle.std.specs.Coded.{codes};
    ghost use Rattle.graphql_records.specs.Tables.{Table};
    ghost use Rattle.graphql_records.specs.contracts.field_value.FieldValue as field_value;

    ghost coded = { Prim.hlevel (codes, field_value.the_row.coded) };

    ghost Value = { Table };

    ghost view = { λ records. record { entries = records.by_id.entries; root = records.root } };
}

impl Records {
    /// No records.
    pub fn new(alloc: Global) -> Records
        ensures { result ≡ record { entries = []; root = 0 } }
    {
        Records {
            by_id: IndexMap::new(alloc),
            root: 0,
        }
    }

    /// Where the record of an id stands, from zero. Takes the time of a look-up.
    pub fn place_of(&self, id: &Text) -> Option<usize>
        ensures { result ≡ record_index self.now.entries id.now }
    {
        self.by_id.get_index_of(id)
    }

    /// The record at a place, with its id.
    pub fn get(&self, place: usize) -> Option<(&Text, &Record)>
        ensures { option_map (λ r. (r.0.now, r.1.now)) result ≡ slice_get self.now.entries place }
    {
        self.by_id.get_index(place)
    }

    /// The place of the record from which queries start.
    pub fn root(&self) -> usize
        ensures { result ≡ self.now.root }
    {
        self.root
    }

    /// Sets these values in the fields of their names of the record at a place, in turn, if there
    /// is one; a new field stands behind the others. An error is want of memory, and sets none.
    pub fn set_values(
        &mut self,
        place: usize,
        values: Items<(Text, FieldValue)>,
    ) -> Result<(), AllocError>
        ensures entries { OnOk result
            (self.new.entries ≡ values_set self.old.entries place values) }
        ensures err { OnErr result (self.new.entries ≡ self.old.entries) }
        ensures root { self.new.root ≡ self.old.root }
    {
        match self.by_id.get_index_mut(place) {
            Some(record) => set_values(&mut record.fields, values),
            None => Ok(()),
        }
    }

    /// Adds a record behind the others, if none has its id; whether one has. An error is want of
    /// memory.
    fn push(&mut self, id: Text, added: Record) -> Result<bool, AllocError>
        ensures taken { IfOk result (λ taken. is_one_of (keys_of self.old.entries) id ≡ taken) }
        ensures entries { IfOk result (λ taken.
            taken ≡ false → self.new.entries ≡ self.old.entries ++ (id, added) ∷ []) }
        ensures root { self.new.root ≡ self.old.root }
    {
        let old = self.by_id.insert(id, added)?;
        Ok(old.is_some())
    }

    /// These records, by their ids, in order, queries starting from the first; none where two have
    /// one id. An error is want of memory.
    pub fn from_items(
        alloc: Global,
        items: Items<(Text, Record)>,
    ) -> Result<Option<Records>, AllocError>
        ensures { IfOk result (IsTableOf items) }
    {
        let mut records = Records::new(alloc);
        'items: for (id, added) in items.into_vec() {
            if records.push(id, added)? {
                return Ok(None);
            }
        }
        Ok(Some(records))
    }

    /// Makes the record at a place the one from which queries start.
    pub fn set_root(&mut self, place: usize)
        ensures { self.new ≡ record { entries = self.old.entries; root = place } }
    {
        self.root = place;
    }

    /// How many records there are.
    pub fn len(&self) -> usize
        ensures { result ≡ length self.now.entries }
    {
        self.by_id.len()
    }

    /// Whether there is no record.
    pub fn is_empty(&self) -> bool
        ensures { IsTrue result ↔ (length self.now.entries ≡ 0) }
    {
        self.by_id.is_empty()
    }
}
