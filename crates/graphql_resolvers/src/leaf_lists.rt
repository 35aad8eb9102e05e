//! Lists of leaves that are asked for.

ghost use Rattle.std.specs.Prelude.{◌≡◌, ◌∷◌, [], map};
ghost use Rattle.std.specs.Option.{option_and_then, option_map};
ghost use Rattle.graphql_text.specs.Memory.{GivesBy};
ghost use Rattle.graphql_resolvers.specs.Asked as spec;
ghost use Rattle.graphql_resolvers.specs.Asked.{all_some, as_id, as_int, as_word};
ghost use Rattle.graphql_resolvers.specs.Inputs.{leaves_of};
ghost use Rattle.graphql_resolvers.specs.Refusals.{TellsBy};
ghost use Rattle.graphql_resolvers.specs.Told.{given_to};

use crate::asks::Asked;
use crate::given::Given;
use crate::leaves::{id_in, id_of, int_in, word_in};
use crate::refusals::refused;
use graphql_scalars::DefaultScalarValue;
use graphql_text::{Spanning, Text};
use graphql_values::InputValue;
use std::alloc::{AllocError, Global};

type Item = Spanning<InputValue<DefaultScalarValue>>;

/// The list of one item. An error is want of memory.
fn alone<T: Drop>(alloc: Global, item: T) -> Result<Vec<T>, AllocError>
    ensures { GivesBy (λ found. found.items) result (item ∷ []) }
{
    let mut found = Vec::new(alloc);
    found.push(item)?;
    Ok(found)
}

/// The texts and names of enum values that these are; `None` where one of them is neither. An error
/// is want of memory.
fn words_in<'a>(alloc: Global, items: &'a [Item]) -> Result<Option<Vec<&'a str>>, AllocError>
    ensures { GivesBy (option_map (λ words. map (λ word. word.now) words.items)) result
        (all_some (map (option_and_then as_word) (leaves_of items.now))) }
{
    let mut words = Vec::new(alloc);
    'items: for item in items {
        match word_in(&item.item) {
            Some(word) => words.push(word)?,
            None => return Ok(None),
        }
    }
    Ok(Some(words))
}

/// The integers that these are; `None` where one of them is none. An error is want of memory.
fn integers_in(alloc: Global, items: &[Item]) -> Result<Option<Vec<i32>>, AllocError>
    ensures { GivesBy (option_map (λ integers. integers.items)) result
        (all_some (map (option_and_then as_int) (leaves_of items.now))) }
{
    let mut integers = Vec::new(alloc);
    'items: for item in items {
        match int_in(&item.item) {
            Some(integer) => integers.push(integer)?,
            None => return Ok(None),
        }
    }
    Ok(Some(integers))
}

/// The ids that these are; `None` where one of them is none. An error is want of memory.
fn ids_in(alloc: Global, items: &[Item]) -> Result<Option<Vec<Text>>, AllocError>
    ensures { GivesBy (option_map (λ ids. ids.items)) result
        (all_some (map (option_and_then as_id) (leaves_of items.now))) }
{
    let mut ids = Vec::new(alloc);
    'items: for item in items {
        match id_in(alloc, &item.item)? {
            Some(id) => ids.push(id)?,
            None => return Ok(None),
        }
    }
    Ok(Some(ids))
}

impl<'a> Given<'a> {
    /// The texts, or the names of enum values, that stand under this name, in order; `None` where
    /// it is `null` or absent. One that is no list is the list of it alone (GraphQL October 2021,
    /// 3.11 List). It takes memory.
    pub fn words_or_null(&self, name: &str) -> Asked<Option<Vec<&'a str>>>
        ensures { TellsBy (option_map (λ words. map (λ word. word.now) words.items)) result
            (spec.words_or_null (given_to self.now) name.now) }
    {
        match self.value(name) {
            None => Ok(None),
            Some(InputValue::Null) => Ok(None),
            Some(InputValue::List(items)) => match words_in(self.alloc, items.as_slice())? {
                Some(words) => Ok(Some(words)),
                None => Err(refused(self.alloc, name, "no list of texts")),
            },
            Some(InputValue::Scalar(DefaultScalarValue::String(text))) => {
                Ok(Some(alone(self.alloc, text.as_str())?))
            }
            Some(InputValue::Enum(value)) => Ok(Some(alone(self.alloc, value.as_str())?)),
            Some(_) => Err(refused(self.alloc, name, "no list of texts")),
        }
    }

    /// The integers that stand under this name, in order; `None` where it is `null` or absent. One
    /// that is no list is the list of it alone. It takes memory.
    pub fn integers_or_null(&self, name: &str) -> Asked<Option<Vec<i32>>>
        ensures { TellsBy (option_map (λ integers. integers.items)) result
            (spec.integers_or_null (given_to self.now) name.now) }
    {
        match self.value(name) {
            None => Ok(None),
            Some(InputValue::Null) => Ok(None),
            Some(InputValue::List(items)) => match integers_in(self.alloc, items.as_slice())? {
                Some(integers) => Ok(Some(integers)),
                None => Err(refused(self.alloc, name, "no list of integers")),
            },
            Some(InputValue::Scalar(DefaultScalarValue::Int(value))) => {
                Ok(Some(alone(self.alloc, *value)?))
            }
            Some(_) => Err(refused(self.alloc, name, "no list of integers")),
        }
    }

    /// The ids that stand under this name, texts or integers, as texts, in order; `None` where it
    /// is `null` or absent. One that is no list is the list of it alone. It takes memory.
    pub fn ids_or_null(&self, name: &str) -> Asked<Option<Vec<Text>>>
        ensures { TellsBy (option_map (λ ids. ids.items)) result
            (spec.ids_or_null (given_to self.now) name.now) }
    {
        match self.value(name) {
            None => Ok(None),
            Some(InputValue::Null) => Ok(None),
            Some(InputValue::List(items)) => match ids_in(self.alloc, items.as_slice())? {
                Some(ids) => Ok(Some(ids)),
                None => Err(refused(self.alloc, name, "no list of ids")),
            },
            Some(InputValue::Enum(value)) => Ok(Some(alone(self.alloc, value.clone()?)?)),
            Some(InputValue::Scalar(scalar)) => match id_of(self.alloc, scalar)? {
                Some(id) => Ok(Some(alone(self.alloc, id)?)),
                None => Err(refused(self.alloc, name, "no list of ids")),
            },
            Some(_) => Err(refused(self.alloc, name, "no list of ids")),
        }
    }
}
