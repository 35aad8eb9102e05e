//! Variables' values from JSON, whose texts and keys they take over.

ghost use Rattle.std.specs.Prelude.{◌≡◌, Some, None, OnOk, option_map};
ghost use Rattle.std.specs.HashMap.{Updates};
ghost use Rattle.std.specs.String.{string_eq};
ghost use Rattle.graphql_text.specs.Memory.{Answers, Gives};
ghost use Rattle.serde_json.specs.View.{view, number_view, items_view, members_view};
ghost use Rattle.graphql_values.specs.declared.input_value.InputValue.TheVariants as value;
ghost use Rattle.graphql_lines.specs.declared.refusal.LineRefusal.TheVariants.{BadNumber, Memory};
ghost use Rattle.graphql_lines.specs.Variables as spec;

use crate::refusal::LineRefusal;
use graphql_text::{Items, Spanning, Text};
use graphql_values::{InputValue, ScalarValue, Variables};
use serde_json::{Map, Number, Value};
use std::alloc::{AllocError, Global};
use std::collections::HashMap;

/// The integer of 32 bits that a number of JSON is; `None` where it is not held as a whole one, or
/// is none of 32 bits. Takes no memory.
pub fn whole(number: &Number) -> Option<i32>
    ensures { result ≡ spec.whole_of (number_view number.now) }
{
    match number.as_i64() {
        Some(value) => match i32::try_from(value) {
            Ok(value) => Some(value),
            Err(_) => None,
        },
        None => None,
    }
}

/// The value that JSON stands for, in no text, or None where a number in it is no whole one of 32
/// bits.
#[cycle(inputs)]
fn input_value<S: ScalarValue>(
    alloc: Global,
    json: Value,
) -> Result<Option<InputValue<S>>, AllocError>
    ensures { Gives result (spec.input_of S.of_bool S.of_int S.of_text (view json)) }
{
    match json {
        Value::Null => Ok(Some(InputValue::Null)),
        Value::Bool(value) => Ok(Some(InputValue::Scalar(S::from_bool(value)))),
        Value::Number(number) => match whole(&number) {
            Some(value) => Ok(Some(InputValue::Scalar(S::from_int(value)))),
            None => Ok(None),
        },
        Value::String(text) => Ok(Some(InputValue::Scalar(S::from_string(text)))),
        Value::Array(items) => list(alloc, items),
        Value::Object(members) => object(alloc, members),
    }
}

/// The list of what these stand for.
#[cycle(inputs)]
fn list<S: ScalarValue>(
    alloc: Global,
    items: Vec<Value>,
) -> Result<Option<InputValue<S>>, AllocError>
    ensures { Gives result (option_map value.List
        (spec.inputs_of S.of_bool S.of_int S.of_text (items_view items.items))) }
{
    let mut found = Items::with_capacity(alloc, items.len())?;
    'items: for item in items {
        match input_value(alloc, item)? {
            Some(value) => found.push(Spanning::unlocated(value))?,
            None => return Ok(None),
        }
    }
    Ok(Some(InputValue::List(found)))
}

/// The object of what these members stand for.
#[cycle(inputs)]
fn object<S: ScalarValue>(
    alloc: Global,
    members: Map<String, Value>,
) -> Result<Option<InputValue<S>>, AllocError>
    ensures { Gives result (option_map value.Object
        (spec.fields_of S.of_bool S.of_int S.of_text (members_view members.entries))) }
{
    let mut found = Items::with_capacity(alloc, members.len())?;
    'members: for (key, member) in members {
        match input_value(alloc, member)? {
            Some(value) => {
                let name = Spanning::unlocated(Text::from_string(key));
                found.push((name, Spanning::unlocated(value)))?;
            }
            None => return Ok(None),
        }
    }
    Ok(Some(InputValue::Object(found)))
}

/// Gives a variable a value, and lets its old one go.
fn set<S: Drop>(
    variables: &mut Variables<S>,
    name: String,
    value: InputValue<S>,
) -> Result<(), AllocError>
    ensures { OnOk result (Updates string_eq variables.old variables.new name (Some value)) }
{
    match variables.insert(name, value) {
        Ok(_) => Ok(()),
        Err(refused) => Err(AllocError::from(refused)),
    }
}

/// The values of these members, by name.
///
/// `BadNumber` where a number in one is not held as a whole one, or lies outside 32 bits; `Memory`
/// where memory ran out.
fn values_by_name<S: ScalarValue>(
    alloc: Global,
    members: Map<String, Value>,
) -> Result<Variables<S>, LineRefusal>
    ensures { let ms = members_view members.entries in
        Answers (λ variables. spec.HasValues S.of_bool S.of_int S.of_text ms variables)
        (λ e. (e ≡ BadNumber) × (spec.fields_of S.of_bool S.of_int S.of_text ms ≡ None))
        (λ e. e ≡ Memory) result }
{
    let mut variables = HashMap::new(alloc);
    'members: for (key, member) in members {
        match input_value(alloc, member)? {
            Some(value) => set(&mut variables, key, value)?,
            None => return Err(LineRefusal::BadNumber),
        }
    }
    Ok(variables)
}

/// The values of a request's variables, of their JSON value, whose texts and keys they take over:
/// an object, or null, which has none. No value holds a variable.
///
/// `NotARequest` where the JSON value is of another kind; else `BadNumber` where a number anywhere
/// in it is not held as a whole one, or lies outside 32 bits; `Memory` where memory ran out.
pub fn variables_of_json<S: ScalarValue>(
    alloc: Global,
    json: Value,
) -> Result<Variables<S>, LineRefusal>
    ensures { spec.AnswersVariables S.of_bool S.of_int S.of_text result
        (spec.members_of_variables (view json)) }
{
    match json {
        Value::Null => Ok(HashMap::new(alloc)),
        Value::Object(members) => values_by_name(alloc, members),
        Value::Bool(_) | Value::Number(_) | Value::String(_) | Value::Array(_) => {
            Err(LineRefusal::NotARequest)
        }
    }
}

/// The values of a request's variables, as `variables_of_json` gives them, of a JSON value that is
/// lent and copied.
pub fn variables_from_json<S: ScalarValue>(
    alloc: Global,
    json: &Value,
) -> Result<Variables<S>, LineRefusal>
    ensures { spec.AnswersVariables S.of_bool S.of_int S.of_text result
        (spec.members_of_variables (view json.now)) }
{
    variables_of_json(alloc, json.clone()?)
}
