use crate::told::check;
use graphql_scalars::DefaultScalarValue;
use graphql_text::Text;
use graphql_values::laws::{
    same_objects_have_the_same_fields, same_value_is_an_equivalence, variables_are_listed,
    variables_are_replaced,
};
use graphql_values::{InputValue, Variables};
use std::alloc::{AllocError, Global};
use std::collections::HashMap;

/// The list of the variable `v`, the enum value `JEDI`, null and the text `a"b`.
fn list_of_four(alloc: Global) -> Result<InputValue, AllocError> {
    let variable = InputValue::variable(alloc, "v")?;
    let name = InputValue::enum_value(alloc, "JEDI")?;
    let text = InputValue::scalar(Text::from_str(alloc, "a\"b")?);
    let values = vec![in alloc; variable, name, InputValue::null(), text]?;
    InputValue::list(alloc, values)
}

/// The object of a value as `k`.
fn under_k(alloc: Global, value: InputValue) -> Result<InputValue, AllocError> {
    let name = Text::from_str(alloc, "k")?;
    let fields = vec![in alloc; (name, value)]?;
    InputValue::object(alloc, fields)
}

/// The object of that list as `k`.
fn sample(alloc: Global) -> Result<InputValue, AllocError> {
    under_k(alloc, list_of_four(alloc)?)
}

/// Two names, each with its integer.
type TwoFields = [(&'static str, i32); 2];

/// The object of two integers by these names.
fn two_fields(alloc: Global, rows: TwoFields) -> Result<InputValue, AllocError> {
    let mut fields = Vec::new(alloc);
    for row in rows {
        let name = Text::from_str(alloc, row.0)?;
        fields.push((name, InputValue::scalar(row.1)))?;
    }
    InputValue::object(alloc, fields)
}

/// What `{}` writes of a value.
fn written(alloc: Global, value: Result<InputValue, AllocError>) -> Result<String, AllocError> {
    value?.to_string(alloc)
}

/// What `{:?}` writes of a value.
fn debugged(alloc: Global, value: Result<InputValue, AllocError>) -> Result<String, AllocError> {
    let value = value?;
    format!(in alloc; "{value:?}")
}

/// What `{:?}` writes of the object of null as `k`, which stands in no text.
const DEBUGGED: &str =
    "Object([(Spanning { item: \"k\", span: Span { start: SourcePosition { index: 0, line: 0, column: 0 }, end: SourcePosition { index: 0, line: 0, column: 0 } } }, Spanning { item: Null, span: Span { start: SourcePosition { index: 0, line: 0, column: 0 }, end: SourcePosition { index: 0, line: 0, column: 0 } } })])";

#[test]
fn values_are_displayed(rt: HostRuntime) {
    let alloc = rt.alloc();
    let numbers = two_fields(alloc, [("k", 1), ("l", -2)]);
    let v = InputValue::variable(alloc, "v");
    let object = under_k(alloc, InputValue::null());
    check(
        &rt,
        written(alloc, sample(alloc)),
        "{k: [$v, JEDI, null, \"a\"b\"]}",
    );
    check(&rt, written(alloc, numbers), "{k: 1, l: -2}");
    check(&rt, debugged(alloc, v), "Variable(\"v\")");
    check(&rt, debugged(alloc, object), DEBUGGED);
}

/// Whether null, the enum value `RED` and the scalar 5 are told as what they are, and not as
/// another.
fn kinds(alloc: Global) -> Result<[bool; 5], AllocError> {
    let red: InputValue = InputValue::enum_value(alloc, "RED")?;
    let null: InputValue = InputValue::null();
    let five: InputValue = InputValue::scalar(5);
    Ok([
        null.is_null() && !red.is_null(),
        red.as_enum_value() == Some("RED"),
        five.as_enum_value().is_none(),
        five.as_scalar() == Some(&DefaultScalarValue::Int(5)),
        null.as_scalar().is_none(),
    ])
}

#[test]
fn kinds_are_told(rt: HostRuntime) {
    let kinds = kinds(rt.alloc()).expect(&rt, "memory");
    assert_eq!(rt; kinds, [true; 5]);
}

/// How many items a list lends.
fn item_count(alloc: Global, list: &InputValue) -> Result<Option<usize>, AllocError> {
    match list.to_list_value(alloc)? {
        Some(values) => Ok(Some(values.len())),
        None => Ok(None),
    }
}

/// How many fields an object lends.
fn field_count(alloc: Global, object: &InputValue) -> Result<Option<usize>, AllocError> {
    match object.to_object_value(alloc)? {
        Some(fields) => Ok(Some(fields.len())),
        None => Ok(None),
    }
}

/// How many items a list of four lends, and how many fields an object with one name twice.
fn counts(alloc: Global) -> Result<String, AllocError> {
    let items = item_count(alloc, &list_of_four(alloc)?)?;
    let fields = field_count(alloc, &two_fields(alloc, [("k", 1), ("k", 2)])?)?;
    format!(in alloc; "{items:?} {fields:?}")
}

/// The variables of the sample.
fn variables(alloc: Global) -> Result<String, AllocError> {
    let object = sample(alloc)?;
    let names = object.referenced_variables(alloc)?;
    format!(in alloc; "{names:?}")
}

/// `true` for the variable `v`.
fn values_of_v(alloc: Global) -> Result<Variables<DefaultScalarValue>, AllocError> {
    let name = String::from_str(alloc, "v")?;
    let mut variables = HashMap::new(alloc);
    variables.insert(name, InputValue::scalar(true))?;
    Ok(variables)
}

/// What `{}` writes of a copy of the sample with values for its variables, if each has one.
fn constant_text(
    alloc: Global,
    variables: &Variables<DefaultScalarValue>,
) -> Result<String, AllocError> {
    let copy = sample(alloc)?.clone()?;
    match copy.into_const(alloc, variables)? {
        Some(constant) => constant.to_string(alloc),
        None => String::from_str(alloc, "no value"),
    }
}

/// What `{}` writes of the sample with `true` for its variable.
fn filled(alloc: Global) -> Result<String, AllocError> {
    let variables = values_of_v(alloc)?;
    constant_text(alloc, &variables)
}

#[test]
fn parts_are_lent_and_variables_filled(rt: HostRuntime) {
    let alloc = rt.alloc();
    let none: Variables<DefaultScalarValue> = HashMap::new(alloc);
    check(&rt, counts(alloc), "Some(4) Some(1)");
    check(&rt, variables(alloc), "[\"v\"]");
    check(&rt, filled(alloc), "{k: [true, JEDI, null, \"a\"b\"]}");
    check(&rt, constant_text(alloc, &none), "no value");
}

/// Whether two objects are the same but for their places.
fn are_same(alloc: Global, one: TwoFields, other: TwoFields) -> Result<bool, AllocError> {
    let one = two_fields(alloc, one)?;
    let other = two_fields(alloc, other)?;
    one.unlocated_eq(alloc, &other)
}

/// An object of one field, which is an object of one field, and so on.
fn nested(alloc: Global, depth: usize) -> Result<InputValue, AllocError> {
    let mut value = InputValue::scalar(1);
    for _ in 0..depth {
        value = under_k(alloc, value)?;
    }
    Ok(value)
}

/// The list of two values.
fn list_of_two(
    alloc: Global,
    first: InputValue,
    second: InputValue,
) -> Result<InputValue, AllocError> {
    let values = vec![in alloc; first, second]?;
    InputValue::list(alloc, values)
}

/// A list whose first item is such a list, and so on.
fn nested_lists(alloc: Global, depth: usize) -> Result<InputValue, AllocError> {
    let mut value = InputValue::scalar(1);
    for _ in 0..depth {
        value = list_of_two(alloc, value, InputValue::null())?;
    }
    Ok(value)
}

/// A list whose last item is an object of such a list, and so on.
fn nested_by_turns(alloc: Global, depth: usize) -> Result<InputValue, AllocError> {
    let mut value = InputValue::scalar(1);
    for _ in 0..depth {
        value = list_of_two(alloc, InputValue::null(), under_k(alloc, value)?)?;
    }
    Ok(value)
}

#[test]
fn deep_values_go(rt: HostRuntime) {
    let alloc = rt.alloc();
    let _lists = nested_lists(alloc, 100_000).expect(&rt, "memory");
    let _objects = nested(alloc, 100_000).expect(&rt, "memory");
    let _both = nested_by_turns(alloc, 100_000).expect(&rt, "memory");
}

/// How long the text of a deep list is, and how many variables stand in it.
fn told_of_deep(alloc: Global) -> Result<(usize, usize), AllocError> {
    let value = nested_lists(alloc, 50_000)?;
    let text = value.to_string(alloc)?;
    let names = value.referenced_variables(alloc)?;
    Ok((text.len(), names.len()))
}

#[test]
fn deep_values_are_told(rt: HostRuntime) {
    let (length, variables) = told_of_deep(rt.alloc()).expect(&rt, "memory");
    assert_eq!(rt; length, 400_001);
    assert_eq!(rt; variables, 0);
}

/// Whether a deep object is the same as itself, and not as one less deep.
fn deep_are_same(alloc: Global) -> Result<(bool, bool), AllocError> {
    let one = nested(alloc, 50_000)?;
    let other = nested(alloc, 49_999)?;
    Ok((
        one.unlocated_eq(alloc, &one)?,
        one.unlocated_eq(alloc, &other)?,
    ))
}

/// An object of two fields of one name, of which the first is such an object, and so on.
fn nested_twice(alloc: Global, depth: usize) -> Result<InputValue, AllocError> {
    let mut value = InputValue::scalar(1);
    for _ in 0..depth {
        let first = (Text::from_str(alloc, "k")?, value);
        let second = (Text::from_str(alloc, "k")?, InputValue::null());
        let fields = vec![in alloc; first, second]?;
        value = InputValue::object(alloc, fields)?;
    }
    Ok(value)
}

/// Whether deep objects in which names stand twice are the same, in a time that grows with the
/// number of their fields.
fn repeated_are_same(alloc: Global) -> Result<bool, AllocError> {
    let one = nested_twice(alloc, 200)?;
    let other = nested_twice(alloc, 200)?;
    one.unlocated_eq(alloc, &other)
}

/// The object of a field for each of these letters, whose value is null.
fn lettered(alloc: Global, letters: &str) -> Result<InputValue, AllocError> {
    let mut fields = Vec::new(alloc);
    for letter in letters.chars() {
        let mut name = Text::new(alloc);
        name.push(letter)?;
        fields.push((name, InputValue::null()))?;
    }
    InputValue::object(alloc, fields)
}

/// Whether objects of many fields are the same: in another order, and with another name.
fn many_are_same(alloc: Global) -> Result<(bool, bool), AllocError> {
    let one = lettered(alloc, "abcdefghijklmnopqrstuvwxyz")?;
    let turned = lettered(alloc, "zyxwvutsrqponmlkjihgfedcba")?;
    let other = lettered(alloc, "zyxwvutsrqponmlkjihgfedcbz")?;
    Ok((
        one.unlocated_eq(alloc, &turned)?,
        one.unlocated_eq(alloc, &other)?,
    ))
}

#[test]
fn many_fields_are_compared(rt: HostRuntime) {
    let (turned, other) = many_are_same(rt.alloc()).expect(&rt, "memory");
    assert!(rt; turned && !other);
}

#[test]
fn objects_are_compared(rt: HostRuntime) {
    let alloc = rt.alloc();
    let two = [("k", 1), ("l", 2)];
    let repeated = [("k", 1), ("k", 1)];
    let turned = are_same(alloc, two, [("l", 2), ("k", 1)]).expect(&rt, "memory");
    assert!(rt; turned);
    let first = are_same(alloc, repeated, two).expect(&rt, "memory");
    let last = are_same(alloc, two, repeated).expect(&rt, "memory");
    assert!(rt; !first && !last);
    let in_order = are_same(alloc, [("k", 1), ("k", 2)], [("k", 1), ("k", 2)]).expect(
        &rt, "memory",
    );
    let out_of_order = are_same(alloc, [("k", 1), ("k", 2)], [("k", 2), ("k", 1)]).expect(
        &rt, "memory",
    );
    assert!(rt; in_order && !out_of_order);
    let (same, other) = deep_are_same(alloc).expect(&rt, "memory");
    assert!(rt; same && !other);
    let repeated = repeated_are_same(alloc).expect(&rt, "memory");
    assert!(rt; repeated);
}

#[test]
fn laws_are_stated() {
    same_value_is_an_equivalence::<DefaultScalarValue>();
    same_objects_have_the_same_fields::<DefaultScalarValue>();
    variables_are_listed::<DefaultScalarValue>();
    variables_are_replaced::<DefaultScalarValue>();
}
