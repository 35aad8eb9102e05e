//! Equality of values and of objects, to which the order of fields says nothing.

ghost use Rattle.std.specs.Prelude.{◌≡◌, ◌↔◌, IsTrue, Some, is_some};
ghost use Rattle.std.specs.List.{list_all};
ghost use Rattle.std.specs.Map.{keys_of};
ghost use Rattle.std.specs.Option.{option_copied};
ghost use Rattle.graphql_output_values.specs.Equality.{agree, equal, equal_objects, items_equal};
ghost use Rattle.graphql_output_values.specs.Lookups.{value_under};
ghost use Rattle.graphql_output_values.specs.Objects.{field_value};

use crate::lookup::Lookup;
use crate::object::Object;
use crate::value::Value;

/// Whether the values have one form, and are equal in what they hold.
#[cycle(equality)]
fn same_value<S: PartialEq>(mine: &Value<S>, theirs: &Value<S>) -> bool
    ensures { result ≡ equal S.eq mine.now theirs.now }
{
    match mine {
        Value::Null => theirs.is_null(),
        Value::Scalar(scalar) => match theirs.as_scalar() {
            Some(other) => scalar == other,
            None => false,
        },
        Value::List(items) => match theirs.as_list_value() {
            Some(others) => same_items(items.as_slice(), others),
            None => false,
        },
        Value::Object(object) => match theirs.as_object_value() {
            Some(other) => same_fields(object, other),
            None => false,
        },
    }
}

/// Whether there are as many items, and equal ones place by place.
#[cycle(equality)]
fn same_items<S: PartialEq>(mine: &[Value<S>], theirs: &[Value<S>]) -> bool
    ensures { result ≡ items_equal (equal S.eq) mine.now theirs.now }
{
    if mine.len() != theirs.len() {
        return false;
    }
    for (place, item) in mine.iter().enumerate() {
        if !same_value(item, &theirs[place]) {
            return false;
        }
    }
    true
}

/// Whether there are equal values under each key of either object. In proportion to the fields
/// where the keys stand in one order, or where there is memory for an index; no two values are
/// compared twice.
#[cycle(equality)]
fn same_fields<S: PartialEq>(mine: &Object<S>, theirs: &Object<S>) -> bool
    ensures { result ≡ equal_objects S.eq mine.now theirs.now }
{
    if have_same_keys(mine, theirs) {
        return same_in_order(mine, theirs);
    }
    same_by_keys(mine, theirs)
}

/// Whether the objects have the same keys, in the same order.
fn have_same_keys<S>(mine: &Object<S>, theirs: &Object<S>) -> bool
    ensures { IsTrue result ↔ (keys_of mine.now.fields ≡ keys_of theirs.now.fields) }
{
    let others = theirs.fields.as_slice();
    if mine.field_count() != others.len() {
        return false;
    }
    for (place, field) in mine.fields.as_slice().iter().enumerate() {
        if field.0 != others[place].0 {
            return false;
        }
    }
    true
}

/// The same of objects with the same keys in the same order, whose values are compared place by
/// place.
#[cycle(equality)]
fn same_in_order<S: PartialEq>(mine: &Object<S>, theirs: &Object<S>) -> bool
    requires { keys_of mine.now.fields ≡ keys_of theirs.now.fields }
    ensures { result ≡ equal_objects S.eq mine.now theirs.now }
{
    let others = theirs.fields.as_slice();
    for (place, field) in mine.fields.as_slice().iter().enumerate() {
        if !same_value(&field.1, &others[place].1) && mine.is_first(field.0.as_str(), place) {
            return false;
        }
    }
    true
}

/// The same of any objects, where the values of the other one are looked up by their keys.
#[cycle(equality)]
fn same_by_keys<S: PartialEq>(mine: &Object<S>, theirs: &Object<S>) -> bool
    ensures { result ≡ equal_objects S.eq mine.now theirs.now }
{
    let others = Lookup::new(theirs);
    for (place, field) in mine.fields.as_slice().iter().enumerate() {
        let found = others.get(field.0.as_str());
        if !same_found(&field.1, found) && mine.is_first(field.0.as_str(), place) {
            return false;
        }
    }
    has_keys_of(mine, theirs)
}

/// Whether a value was found, and an equal one.
#[cycle(equality)]
fn same_found<S: PartialEq>(mine: &Value<S>, found: Option<&Value<S>>) -> bool
    ensures { result ≡ agree (equal S.eq) (Some mine.now) (option_copied found.entry) }
{
    match found {
        Some(value) => same_value(mine, value),
        None => false,
    }
}

/// Whether the object has a field of each key that the other has.
fn has_keys_of<S>(object: &Object<S>, other: &Object<S>) -> bool
    ensures { result
        ≡ list_all (λ field. is_some (field_value object.now.fields field.0)) other.now.fields }
{
    let values = Lookup::new(object);
    finds_all(&values, other)
}

/// Whether a field of each key of the object is found.
fn finds_all<S>(values: &Lookup<'_, S>, object: &Object<S>) -> bool
    ensures { result ≡ list_all
        (λ field. is_some (value_under values.now field.0)) object.now.fields }
{
    object
        .fields
        .iter()
        .all(|field| values.contains(field.0.as_str()))
}

// Values of one form that are equal in what they hold: scalars by their own equality, lists item by
// item, objects under each key. Takes stack for each level that both nest.
impl<S: PartialEq> PartialEq for Value<S> {
    ghost use Rattle.graphql_output_values.specs.Equality.{equal};
    ghost use Rattle.graphql_output_values.specs.EqualValues.{equal_per};

    ghost eq = { equal S.eq };

    ghost laws = { equal_per S.eq S.laws };

    fn eq(&self, other: &Value<S>) -> bool {
        same_value(self, other)
    }
}

impl<S: Eq> Eq for Value<S> {
    ghost use Rattle.graphql_output_values.specs.EqualValues.{equal_equiv};

    ghost laws = { equal_equiv S.eq S.Eq.laws };
}

// Objects with equal values under each key, in whatever order. Takes stack for each level that both
// nest.
impl<S: PartialEq> PartialEq for Object<S> {
    ghost use Rattle.graphql_output_values.specs.Equality.{equal_objects};
    ghost use Rattle.graphql_output_values.specs.EqualValues.{objects_per};

    ghost eq = { equal_objects S.eq };

    ghost laws = { objects_per S.eq S.laws };

    fn eq(&self, other: &Object<S>) -> bool {
        same_fields(self, other)
    }
}

impl<S: Eq> Eq for Object<S> {
    ghost use Rattle.graphql_output_values.specs.EqualValues.{objects_equiv};

    ghost laws = { objects_equiv S.eq S.Eq.laws };
}
