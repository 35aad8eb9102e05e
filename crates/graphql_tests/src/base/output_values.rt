ghost use Rattle.std.specs.Prelude.{◌≡◌, IfOk};
ghost use Rattle.graphql_text.specs.Memory.{Gives};

use crate::told::check;
use graphql_output_values::{DefaultScalarValue, IntoValue, Key, Object, Value};
use graphql_scalars::ToScalarValue;
use graphql_text::{Items, Text};
use std::alloc::{AllocError, Global};
use std::borrow::CowStr;

/// The value that another value becomes.
fn made<S, T: IntoValue<S>>(alloc: Global, value: T) -> Result<Value<S>, AllocError>
    ensures { Gives result (T.becomes value) }
{
    value.into_value(alloc)
}

type Fields = Object<DefaultScalarValue>;

/// The object with this value under this key.
fn with_field(
    fields: Fields,
    alloc: Global,
    key: &str,
    value: Value,
) -> Result<Fields, AllocError> {
    let mut fields = fields;
    let _ = fields.add_field(Key::from_str(alloc, key)?, value)?;
    Ok(fields)
}

/// The object of an integer, `null` and a text.
fn sample(alloc: Global) -> Result<Fields, AllocError> {
    let text = made(alloc, "foo")?;
    let one = with_field(
        Object::with_capacity(alloc, 3)?,
        alloc,
        "int",
        Value::scalar(1),
    )?;
    let two = with_field(one, alloc, "null", Value::null())?;
    with_field(two, alloc, "string", text)
}

/// The object of the same fields in another order.
fn sample_in_another_order(alloc: Global) -> Result<Fields, AllocError> {
    let text = made(alloc, "foo")?;
    let one = with_field(Object::with_capacity(alloc, 3)?, alloc, "string", text)?;
    let two = with_field(one, alloc, "null", Value::null())?;
    with_field(two, alloc, "int", Value::scalar(1))
}

/// The list of `true` and a text with quotes.
fn list_of_two(alloc: Global) -> Result<Value, AllocError> {
    let mut items = Items::new(alloc);
    items.push(Value::scalar(true))?;
    items.push(made(alloc, "a \"b\"")?)?;
    Ok(Value::list(items))
}

/// What `{}` writes of a value.
fn written(alloc: Global, value: Result<Value, AllocError>) -> Result<String, AllocError> {
    value?.to_string(alloc)
}

/// What `{}` writes of the value of an object.
fn object_text(alloc: Global, object: Result<Fields, AllocError>) -> Result<String, AllocError> {
    Value::object(object?).to_string(alloc)
}

/// Puts `false` where this key has a value.
fn set_false(object: &mut Fields, key: &str) {
    if let Some(value) = object.get_mut_field_value(key) {
        *value = Value::scalar(false);
    }
}

/// Whether the sample's integer was 1, and the sample with 2 for it and `false` for `null`.
fn put_text(alloc: Global) -> Result<String, AllocError> {
    let mut object = sample(alloc)?;
    let old = object.add_field(Key::from_str(alloc, "int")?, Value::scalar(2))?;
    let was_one = old == Some(Value::scalar(1));
    set_false(&mut object, "null");
    let value = Value::object(object);
    format!(in alloc; "{was_one} {value}")
}

/// The sample's value with `true` for each scalar.
fn hidden_text(alloc: Global) -> Result<String, AllocError> {
    let value: Value = Value::object(sample(alloc)?);
    let hidden: Value = value.map_scalar_value(|_scalar: DefaultScalarValue| {
        DefaultScalarValue::Boolean(true)
    })?;
    hidden.to_string(alloc)
}

/// The field of this key and value.
fn pair(alloc: Global, key: &str, value: i32) -> Result<(Key, Value), AllocError> {
    Ok((Key::from_str(alloc, key)?, Value::scalar(value)))
}

/// The pairs of `a`, `b` and `a` again.
fn three_pairs(alloc: Global) -> Result<Vec<(Key, Value)>, AllocError> {
    let pairs = vec![in alloc;
        pair(alloc, "a", 1)?,
        pair(alloc, "b", 2)?,
        pair(alloc, "a", 3)?,
    ]?;
    Ok(pairs)
}

/// The keys of an object, in order.
fn keys_of(alloc: Global, object: &Fields) -> Result<String, AllocError> {
    let mut keys = String::new(alloc);
    for field in object {
        keys.push_str(field.0.as_str())?;
    }
    Ok(keys)
}

/// An object of two long keys that differ in their last byte, a copy of it, and whether both are
/// the same: 16 bytes stand in a key, and 17 on the heap.
fn long_keys(alloc: Global) -> Result<String, AllocError> {
    let one = Object::with_capacity(alloc, 2)?;
    let two = with_field(one, alloc, "sixteen_bytes_ab", Value::scalar(1))?;
    let all = with_field(two, alloc, "sixteen_bytes_abc", Value::scalar(2))?;
    let copy = all.clone()?;
    let is_same = copy == all;
    let value = Value::object(copy);
    format!(in alloc; "{is_same} {value}")
}

/// The keys of the object that is made of three pairs.
fn made_keys(alloc: Global) -> Result<String, AllocError> {
    let object = Object::from_iter(alloc, three_pairs(alloc)?)?;
    keys_of(alloc, &object)
}

#[test]
fn values_are_displayed(rt: HostRuntime) {
    let alloc = rt.alloc();
    check(
        &rt,
        written(alloc, list_of_two(alloc)),
        "[true, \"a \"b\"\"]",
    );
    check(
        &rt,
        object_text(alloc, sample(alloc)),
        "{\"int\": 1, \"null\": null, \"string\": \"foo\"}",
    );
    check(
        &rt,
        written(alloc, Ok(Value::list(Items::new(alloc)))),
        "[]",
    );
    check(
        &rt,
        object_text(alloc, Object::with_capacity(alloc, 0)),
        "{}",
    );
    check(
        &rt,
        put_text(alloc),
        "true {\"int\": 2, \"null\": false, \"string\": \"foo\"}",
    );
    check(
        &rt,
        hidden_text(alloc),
        "{\"int\": true, \"null\": null, \"string\": true}",
    );
    check(&rt, made_keys(alloc), "ab");
    check(
        &rt,
        long_keys(alloc),
        "true {\"sixteen_bytes_ab\": 1, \"sixteen_bytes_abc\": 2}",
    );
}

/// The list of `true`, this value and `false`.
fn within_list(alloc: Global, value: Value) -> Result<Value, AllocError> {
    let mut items = Items::with_capacity(alloc, 3)?;
    items.push(Value::scalar(true))?;
    items.push(value)?;
    items.push(Value::scalar(false))?;
    Ok(Value::list(items))
}

/// The object of `true`, this value and `false`.
fn within_object(alloc: Global, value: Value) -> Result<Value, AllocError> {
    let one = Object::with_capacity(alloc, 3)?;
    let two = with_field(one, alloc, "a", Value::scalar(true))?;
    let three = with_field(two, alloc, "b", value)?;
    let all = with_field(three, alloc, "c", Value::scalar(false))?;
    Ok(Value::object(all))
}

/// `null` within as many lists and as many objects, in turn.
fn nested(alloc: Global, turns: usize) -> Result<Value, AllocError> {
    let mut value: Value = Value::null();
    for _ in 0..turns {
        value = within_object(alloc, within_list(alloc, value)?)?;
    }
    Ok(value)
}

#[test]
fn deep_values_are_displayed_and_let_go(rt: HostRuntime) {
    let alloc = rt.alloc();
    check(
        &rt,
        written(alloc, nested(alloc, 1)),
        "{\"a\": true, \"b\": [true, null, false], \"c\": false}",
    );
    let text = written(alloc, nested(alloc, 50_000)).expect(&rt, "memory");
    assert_eq!(rt; text.len(), 50_000 * 45 + 4);
}

/// Whether the sample is equal to that of another order, and whether it is to null.
fn equalities(alloc: Global) -> Result<(bool, bool), AllocError> {
    let one = Value::object(sample(alloc)?);
    let other = Value::object(sample_in_another_order(alloc)?);
    Ok((one == other, one == Value::null()))
}

#[test]
fn order_of_fields_is_not_seen(rt: HostRuntime) {
    let (same, null) = equalities(rt.alloc()).expect(&rt, "memory");
    assert!(rt; same && !null);
}

/// The object of a field for each of these letters, whose value is `true`.
fn lettered(alloc: Global, letters: &str) -> Result<Fields, AllocError> {
    let mut fields: Fields = Object::with_capacity(alloc, letters.len())?;
    for letter in letters.chars() {
        let mut key = Text::new(alloc);
        key.push(letter)?;
        let key = Key::from_str(alloc, key.as_str())?;
        let _ = fields.add_field(key, Value::scalar(true))?;
    }
    Ok(fields)
}

/// Whether objects of more fields than are gone through for each key are equal: a clone, another
/// order, and another key.
fn many_equalities(alloc: Global) -> Result<(bool, bool, bool), AllocError> {
    let fields = lettered(alloc, "abcdefghijkl")?;
    Ok((
        fields == fields.clone()?,
        fields == lettered(alloc, "lkjihgfedcba")?,
        fields == lettered(alloc, "zkjihgfedcba")?,
    ))
}

#[test]
fn order_of_many_fields_is_not_seen(rt: HostRuntime) {
    let (copy, same, other) = many_equalities(rt.alloc()).expect(&rt, "memory");
    assert!(rt; copy && same && !other);
}

/// Which value another value becomes, as `{}` writes it.
fn becoming<T: IntoValue<DefaultScalarValue>>(
    alloc: Global,
    value: Result<T, AllocError>,
) -> Result<String, AllocError> {
    let becomes: Value = made(alloc, value?)?;
    becomes.to_string(alloc)
}

#[test]
fn other_values_become_values(rt: HostRuntime) {
    let alloc = rt.alloc();
    let nothing: Option<i32> = None;
    check(&rt, becoming(alloc, Ok(nothing)), "null");
    check(&rt, becoming(alloc, Ok(Some(5))), "5");
    check(&rt, becoming(alloc, Ok(&5)), "5");
    check(&rt, becoming(alloc, Ok(true)), "true");
    check(&rt, becoming(alloc, Ok(CowStr::Borrowed("b"))), "\"b\"");
    check(&rt, becoming(alloc, String::from_str(alloc, "a")), "\"a\"");
}
