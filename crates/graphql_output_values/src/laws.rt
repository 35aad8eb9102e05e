//! Laws of objects and of their equality: each function's contract is a law, and its body does
//! nothing.

ghost use Rattle.graphql_output_values.specs.DistinctLaws.{
  DistinctByForms,
  DistinctOnceWritten,
  DistinctUnderKeys,
  KeysStayInPlace,
  MadeDistinctThroughout,
  MappedKeepsKeys,
};
ghost use Rattle.graphql_output_values.specs.Equality.{equal};
ghost use Rattle.graphql_output_values.specs.Laws.{EqualByFields, EqualInAnyOrder, KeysKeepPlaces};
ghost use Rattle.graphql_output_values.specs.Laws.{MadeDistinct, PutUnder};
ghost use Rattle.graphql_output_values.specs.declared.object.Object.{Object};
ghost use Rattle.graphql_output_values.specs.declared.value.Value.{Value};

/// Objects of distinct keys are equal exactly where they have equally many fields, and each field
/// of the one stands in the other with an equal value.
pub fn equal_by_fields<S: PartialEq>()
    ensures { (one other : Object S) → EqualByFields (equal S.eq) one.fields other.fields }
{}

/// Objects of distinct keys with the same fields in another order are equal.
pub fn equal_in_any_order<S: Eq>()
    ensures { (one other : Object S) → EqualInAnyOrder (equal S.eq) one.fields other.fields }
{}

/// An object that is made of pairs has distinct keys.
pub fn made_distinct<S>()
    ensures { MadeDistinct (Value S) }
{}

/// A value that is put under a key stands there, and what stands under any other key stays.
pub fn put_under<S>()
    ensures { PutUnder (Value S) }
{}

/// Putting a value under a key keeps the keys in their places, and a new key is the last.
pub fn keys_keep_places<S>()
    ensures { KeysKeepPlaces (Value S) }
{}

/// Which values have distinct keys throughout, form by form: `null` and each scalar, a list where
/// its items have, the value of an object where its own keys are distinct and its values have. So
/// `Value::list`, `Value::object`, `Value::into_object`, `Value::as_mut_object_value` and the
/// iterators of an object keep it.
pub fn distinct_by_forms<S>()
    ensures { DistinctByForms S }
{}

/// The value that `get_field_value` or `get_mut_field_value` gives of an object that has distinct
/// keys throughout has them too.
pub fn distinct_under_keys<S>()
    ensures { DistinctUnderKeys S }
{}

/// An object that has distinct keys throughout still has once a value that has them is written by
/// `get_mut_field_value`.
pub fn distinct_once_written<S>()
    ensures { DistinctOnceWritten S }
{}

/// A value that is written by `value_mut_at` leaves all keys in their places, and an object that has
/// distinct keys throughout still has where the value has.
pub fn keys_stay_in_place<S>()
    ensures { KeysStayInPlace S }
{}

/// An object that is made of pairs has distinct keys throughout where the pairs' values have.
pub fn made_distinct_throughout<S>()
    ensures { MadeDistinctThroughout S }
{}

/// `map_scalar_value` keeps the keys of each object in a value, and so that they are distinct.
pub fn mapped_keeps_keys<S, T>()
    ensures { MappedKeepsKeys S T }
{}
