//! The join of two data.

ghost use Rattle.std.specs.Prelude.{◌≡◌, ◌++◌, ◌∷◌, [], Some, None, IfOk, IfSome, OnOk, is_some};
ghost use Rattle.std.specs.List.{All};
ghost use Rattle.graphql_output_values.specs.DistinctKeys.{HasDistinctKeysThroughout};
ghost use Rattle.graphql_output_values.specs.DistinctKeys.{ObjectHasDistinctKeysThroughout};
ghost use Rattle.std.specs.Option.{option_copied};
ghost use Rattle.graphql_output_values.specs.Lookups.{IsIndex, indexed};
ghost use Rattle.graphql_text.specs.Memory.{Gives};
ghost use Rattle.graphql_output_values.specs.declared.value.Value.TheVariants as value;
ghost use Rattle.graphql_joined_data.specs.Joining.{FieldJoinsOrDiffers, JoinsOrDiffers};
ghost use Rattle.graphql_joined_data.specs.Joining.{new_fields};

use crate::join_fault::JoinFault;
use graphql_output_values::{Key, Object, ScalarValue, Value};
use graphql_text::{Items, Text};
use std::alloc::{AllocError, Global};
use std::collections::HashMap;

/// The values of an object by their keys.
type Index<'v, S> = HashMap<&'v str, &'v Value<S>>;

/// The join of two data: null with anything is null, objects are joined key by key with new keys
/// last, lists item by item, and a scalar with the same scalar is it (GraphQL October 2021, 6.4.3
/// Value Completion, MergeSelectionSets). No object in either has two fields of one key, and none
/// in the join has. Takes stack for each level that both nest.
///
/// An error is `JoinFault::Disagree` exactly where there is no join, with the response keys down to
/// a place where the two differ; or want of memory.
#[cycle(joins)]
pub fn join_data<S: ScalarValue + Drop>(
    alloc: Global,
    first: &Value<S>,
    second: &Value<S>,
) -> Result<Value<S>, JoinFault>
    requires first_distinct { HasDistinctKeysThroughout first.now }
    requires second_distinct { HasDistinctKeysThroughout second.now }
    ensures joins { JoinsOrDiffers S.eq first.now second.now result }
    ensures distinct { IfOk result HasDistinctKeysThroughout }
{
    if second.is_null() {
        return Ok(Value::Null);
    }
    match first {
        Value::Null => Ok(Value::Null),
        Value::Scalar(scalar) => match second.as_scalar() {
            Some(other) => joined_scalars(alloc, scalar, other),
            None => Err(JoinFault::Disagree(Items::new(alloc))),
        },
        Value::List(items) => match second.as_list_value() {
            Some(others) => joined_items(alloc, items.as_slice(), others),
            None => Err(JoinFault::Disagree(Items::new(alloc))),
        },
        Value::Object(object) => match second.as_object_value() {
            Some(other) => joined_objects(alloc, object, other),
            None => Err(JoinFault::Disagree(Items::new(alloc))),
        },
    }
}

/// The join of scalars: either, where they are equal.
fn joined_scalars<S: ScalarValue + Drop>(
    alloc: Global,
    first: &S,
    second: &S,
) -> Result<Value<S>, JoinFault>
    ensures joins { JoinsOrDiffers S.eq (value.Scalar first.now) (value.Scalar second.now) result }
    ensures distinct { IfOk result HasDistinctKeysThroughout }
{
    if first == second {
        Ok(Value::Scalar(first.clone()?))
    } else {
        Err(JoinFault::Disagree(Items::new(alloc)))
    }
}

/// The join of lists, item by item, where they have one length.
#[cycle(joins)]
fn joined_items<S: ScalarValue + Drop>(
    alloc: Global,
    first: &[Value<S>],
    second: &[Value<S>],
) -> Result<Value<S>, JoinFault>
    requires first_distinct { All HasDistinctKeysThroughout first.now }
    requires second_distinct { All HasDistinctKeysThroughout second.now }
    ensures joins { JoinsOrDiffers S.eq (value.List first.now) (value.List second.now) result }
    ensures distinct { IfOk result HasDistinctKeysThroughout }
{
    if first.len() != second.len() {
        return Err(JoinFault::Disagree(Items::new(alloc)));
    }
    let mut items = Items::with_capacity(alloc, first.len())?;
    for (place, item) in first.iter().enumerate() {
        add(&mut items, join_data(alloc, item, &second[place])?)?;
    }
    Ok(Value::List(items))
}

/// The join of objects, key by key in the order of the first, new keys last.
#[cycle(joins)]
fn joined_objects<S: ScalarValue + Drop>(
    alloc: Global,
    first: &Object<S>,
    second: &Object<S>,
) -> Result<Value<S>, JoinFault>
    requires first_distinct { ObjectHasDistinctKeysThroughout first.now }
    requires second_distinct { ObjectHasDistinctKeysThroughout second.now }
    ensures joins { JoinsOrDiffers S.eq (value.Object first.now) (value.Object second.now) result }
    ensures distinct { IfOk result HasDistinctKeysThroughout }
{
    let values = index_of(alloc, second)?;
    let mut fields = Items::with_capacity(alloc, first.field_count())?;
    for field in first.as_slice() {
        let other = found(&values, field.0.as_str());
        add(&mut fields, joined_field(alloc, &field.0, &field.1, other)?)?;
    }
    push_new_fields(alloc, first, second, &mut fields)?;
    Ok(Value::Object(Object::from_distinct(fields)))
}

/// The field of this key, its value joined with what the other object has under the key, if it has
/// the key.
#[cycle(joins)]
fn joined_field<S: ScalarValue + Drop>(
    alloc: Global,
    key: &Key,
    first: &Value<S>,
    other: Option<&Value<S>>,
) -> Result<(Key, Value<S>), JoinFault>
    requires first_distinct { HasDistinctKeysThroughout first.now }
    requires other_distinct { IfSome (option_copied other) HasDistinctKeysThroughout }
    ensures joins { FieldJoinsOrDiffers S.eq key.now first.now (option_copied other.entry) result }
    ensures distinct { IfOk result (λ field. HasDistinctKeysThroughout field.1) }
{
    match other {
        None => copied_field(key, first),
        Some(second) => joined_under_key(alloc, key, first, second),
    }
}

/// The field of a key that the other object does not have.
fn copied_field<S: ScalarValue + Drop>(
    key: &Key,
    first: &Value<S>,
) -> Result<(Key, Value<S>), JoinFault>
    requires { HasDistinctKeysThroughout first.now }
    ensures joins { FieldJoinsOrDiffers S.eq key.now first.now None result }
    ensures distinct { IfOk result (λ field. HasDistinctKeysThroughout field.1) }
{
    Ok((key.clone()?, first.clone()?))
}

/// The field of a key that both objects have, which leads the path where their values differ.
#[cycle(joins)]
fn joined_under_key<S: ScalarValue + Drop>(
    alloc: Global,
    key: &Key,
    first: &Value<S>,
    second: &Value<S>,
) -> Result<(Key, Value<S>), JoinFault>
    requires first_distinct { HasDistinctKeysThroughout first.now }
    requires second_distinct { HasDistinctKeysThroughout second.now }
    ensures joins { FieldJoinsOrDiffers S.eq key.now first.now (Some second.now) result }
    ensures distinct { IfOk result (λ field. HasDistinctKeysThroughout field.1) }
{
    match join_data(alloc, first, second) {
        Ok(joined) => Ok((key.clone()?, joined)),
        Err(JoinFault::Disagree(path)) => Err(JoinFault::Disagree(behind(key, path)?)),
        Err(JoinFault::Memory) => Err(JoinFault::Memory),
    }
}

/// The path that starts with this key, and goes on with this one.
fn behind(key: &Key, mut path: Items<Text>) -> Result<Items<Text>, AllocError>
    ensures { Gives result (key.now ∷ path) }
{
    path.insert(0, Text::from_str(*path.allocator(), key.as_str())?)?;
    Ok(path)
}

/// Adds the fields of the second object whose keys the first does not have.
fn push_new_fields<S: ScalarValue + Drop>(
    alloc: Global,
    first: &Object<S>,
    second: &Object<S>,
    fields: &mut Items<(Key, Value<S>)>,
) -> Result<(), AllocError>
    ensures { OnOk result (fields.new
        ≡ fields.old ++ new_fields first.now.fields second.now.fields) }
{
    let values = index_of(alloc, first)?;
    for field in second.as_slice() {
        if !has(&values, field.0.as_str()) {
            add(fields, (field.0.clone()?, field.1.clone()?))?;
        }
    }
    Ok(())
}

/// The value under a key, if there is one.
fn found<'v, S>(values: &Index<'v, S>, key: &str) -> Option<&'v Value<S>>
    ensures { option_copied result ≡ indexed values.now key.now }
{
    match values.get(key) {
        Some(value) => Some(*value),
        None => None,
    }
}

/// Whether there is a value under a key.
fn has<S>(values: &Index<'_, S>, key: &str) -> bool
    ensures { result ≡ is_some (indexed values.now key.now) }
{
    found(values, key).is_some()
}

/// The values of an object by their keys: of fields of one key, the first one's. An error is want
/// of memory.
fn index_of<'v, S>(alloc: Global, object: &'v Object<S>) -> Result<Index<'v, S>, AllocError>
    ensures { IfOk result (λ values. IsIndex values object.now.fields) }
{
    let fields = object.as_slice();
    let mut values = HashMap::with_capacity(alloc, fields.len())?;
    let mut left = fields.len();
    'fields: while left > 0 {
        left -= 1;
        let field = &fields[left];
        let _ = values.insert(field.0.as_str(), &field.1)?;
    }
    Ok(values)
}

/// Adds one more at the end. An error is want of memory.
fn add<T: Drop>(items: &mut Items<T>, it: T) -> Result<(), AllocError>
    ensures { OnOk result (items.new ≡ items.old ++ it ∷ []) }
{
    items.push(it)?;
    Ok(())
}
