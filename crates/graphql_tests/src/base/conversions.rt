use crate::told::check;
use graphql_input_types::{ID, Nullable};
use graphql_output_values::Value;
use graphql_scalars::DefaultScalarValue;
use graphql_text::Text;
use graphql_values::{
    FromInputValue, FromInputValueArrayError, FromInputValueVecError, InputValue, IntoInputValue,
    ToInputValue,
};
use std::alloc::{AllocError, Global};
use std::borrow::CowStr;
use std::fmt::Debug;
use std::rc::Rc;

/// What no value and then each of some values means at a type, or its error, as `{:?}` writes them.
fn readings<T: FromInputValue<DefaultScalarValue> + Debug + Drop>(
    alloc: Global,
    values: &[InputValue],
) -> Result<String, AllocError>
where
    T::Error: Debug + Drop,
{
    let absent = T::from_implicit_null(alloc);
    let mut told = format!(in alloc; "{absent:?}")?;
    for value in values {
        let read: Result<T, T::Error> = value.convert(alloc);
        write!(told, "; {read:?}")?;
    }
    Ok(told)
}

/// What no value and then each value of a list that was made means at a type.
fn reads<T: FromInputValue<DefaultScalarValue> + Debug + Drop>(
    alloc: Global,
    values: Result<Vec<InputValue>, AllocError>,
) -> Result<String, AllocError>
where
    T::Error: Debug + Drop,
{
    readings::<T>(alloc, values?.as_slice())
}

/// The list of 1, 2 and a last value.
fn one_two_and(alloc: Global, last: InputValue) -> Result<InputValue, AllocError> {
    let values = vec![in alloc; InputValue::scalar(1), InputValue::scalar(2), last]?;
    InputValue::list(alloc, values)
}

/// Null, 1, and the lists of 1, 2 and 3 or null.
fn numbers(alloc: Global) -> Result<Vec<InputValue>, AllocError> {
    let whole = one_two_and(alloc, InputValue::scalar(3))?;
    let gap = one_two_and(alloc, InputValue::null())?;
    let values = vec![in alloc; InputValue::null(), InputValue::scalar(1), whole, gap]?;
    Ok(values)
}

#[test]
fn lists_are_read(rt: HostRuntime) {
    let alloc = rt.alloc();
    check(
        &rt,
        reads::<Vec<i32>>(alloc, numbers(alloc)),
        "Err(Null); Err(Null); Ok([1]); Ok([1, 2, 3]); Err(Item(Message(\"Expected GraphQL scalar, found: null\")))",
    );
    check(
        &rt,
        reads::<Vec<Vec<i32>>>(alloc, numbers(alloc)),
        "Err(Null); Err(Null); Ok([[1]]); Ok([[1], [2], [3]]); Err(Item(Null))",
    );
    check(
        &rt,
        reads::<Vec<Option<i32>>>(alloc, numbers(alloc)),
        "Err(Null); Err(Null); Ok([Some(1)]); Ok([Some(1), Some(2), Some(3)]); Ok([Some(1), Some(2), None])",
    );
    check(
        &rt,
        reads::<Option<Vec<i32>>>(alloc, numbers(alloc)),
        "Ok(None); Ok(None); Ok(Some([1])); Ok(Some([1, 2, 3])); Err(Item(Message(\"Expected GraphQL scalar, found: null\")))",
    );
    check(
        &rt,
        reads::<Option<Vec<Option<i32>>>>(alloc, numbers(alloc)),
        "Ok(None); Ok(None); Ok(Some([Some(1)])); Ok(Some([Some(1), Some(2), Some(3)])); Ok(Some([Some(1), Some(2), None]))",
    );
}

#[test]
fn arrays_are_read(rt: HostRuntime) {
    let alloc = rt.alloc();
    check(
        &rt,
        reads::<[i32; 3]>(alloc, numbers(alloc)),
        "Err(Null); Err(Null); Err(WrongCount { actual: 1, expected: 3 }); Ok([1, 2, 3]); Err(Item(Message(\"Expected GraphQL scalar, found: null\")))",
    );
    check(
        &rt,
        reads::<[i32; 1]>(alloc, numbers(alloc)),
        "Err(Null); Err(Null); Ok([1]); Err(WrongCount { actual: 3, expected: 1 }); Err(WrongCount { actual: 3, expected: 1 })",
    );
    check(
        &rt,
        reads::<[i32; 0]>(alloc, numbers(alloc)),
        "Err(Null); Err(Null); Err(WrongCount { actual: 1, expected: 0 }); Err(WrongCount { actual: 3, expected: 0 }); Err(WrongCount { actual: 3, expected: 0 })",
    );
    check(
        &rt,
        reads::<[i32; 2]>(alloc, numbers(alloc)),
        "Err(Null); Err(Null); Err(WrongCount { actual: 1, expected: 2 }); Err(WrongCount { actual: 3, expected: 2 }); Err(WrongCount { actual: 3, expected: 2 })",
    );
}

#[test]
fn arrays_of_others_are_read(rt: HostRuntime) {
    let alloc = rt.alloc();
    check(
        &rt,
        reads::<[[i32; 1]; 1]>(alloc, numbers(alloc)),
        "Err(Null); Err(Null); Ok([[1]]); Err(WrongCount { actual: 3, expected: 1 }); Err(WrongCount { actual: 3, expected: 1 })",
    );
    check(
        &rt,
        reads::<[Vec<i32>; 1]>(alloc, numbers(alloc)),
        "Err(Null); Err(Null); Ok([[1]]); Err(WrongCount { actual: 3, expected: 1 }); Err(WrongCount { actual: 3, expected: 1 })",
    );
    check(
        &rt,
        reads::<[Option<i32>; 2]>(alloc, numbers(alloc)),
        "Err(Null); Err(Null); Err(WrongCount { actual: 1, expected: 2 }); Err(WrongCount { actual: 3, expected: 2 }); Err(WrongCount { actual: 3, expected: 2 })",
    );
    check(
        &rt,
        reads::<[Option<i32>; 3]>(alloc, numbers(alloc)),
        "Err(Null); Err(Null); Err(WrongCount { actual: 1, expected: 3 }); Ok([Some(1), Some(2), Some(3)]); Ok([Some(1), Some(2), None])",
    );
}

/// What absence, null, 1 and the two lists mean where an integer may be null.
const NULLABLE: &str =
    "Ok(None); Ok(None); Ok(Some(1)); Err(Message(\"Expected GraphQL scalar, found: [1, 2, 3]\")); Err(Message(\"Expected GraphQL scalar, found: [1, 2, null]\"))";

#[test]
fn nullable_values_are_read(rt: HostRuntime) {
    let alloc = rt.alloc();
    check(&rt, reads::<Option<i32>>(alloc, numbers(alloc)), NULLABLE);
    check(
        &rt,
        reads::<Box<Option<i32>>>(alloc, numbers(alloc)),
        NULLABLE,
    );
    check(
        &rt,
        reads::<Rc<Option<i32>>>(alloc, numbers(alloc)),
        NULLABLE,
    );
    check(
        &rt,
        reads::<Nullable<i32>>(alloc, numbers(alloc)),
        "Ok(ImplicitNull); Ok(ExplicitNull); Ok(Some(1)); Err(Message(\"Expected GraphQL scalar, found: [1, 2, 3]\")); Err(Message(\"Expected GraphQL scalar, found: [1, 2, null]\"))",
    );
}

/// The text `ab`, `true` and the enum value `RED`.
fn words(alloc: Global) -> Result<Vec<InputValue>, AllocError> {
    let text = InputValue::scalar(Text::from_str(alloc, "ab")?);
    let color = InputValue::enum_value(alloc, "RED")?;
    let values = vec![in alloc; text, InputValue::scalar(true), color]?;
    Ok(values)
}

/// The integer -7.
fn integers(alloc: Global) -> Result<Vec<InputValue>, AllocError> {
    let values = vec![in alloc; InputValue::scalar(-7)]?;
    Ok(values)
}

#[test]
fn scalars_are_read(rt: HostRuntime) {
    let alloc = rt.alloc();
    check(
        &rt,
        reads::<String>(alloc, words(alloc)),
        "Err(Message(\"Expected GraphQL scalar, found: null\")); Ok(\"ab\"); Err(Message(\"Expected `String`, found: true\")); Err(Message(\"Expected GraphQL scalar, found: RED\"))",
    );
    check(
        &rt,
        reads::<bool>(alloc, words(alloc)),
        "Err(Message(\"Expected GraphQL scalar, found: null\")); Err(Message(\"Expected `Boolean`, found: \\\"ab\\\"\")); Ok(true); Err(Message(\"Expected GraphQL scalar, found: RED\"))",
    );
    check(
        &rt,
        reads::<i32>(alloc, words(alloc)),
        "Err(Message(\"Expected GraphQL scalar, found: null\")); Err(Message(\"Expected `Int`, found: \\\"ab\\\"\")); Err(Message(\"Expected `Int`, found: true\")); Err(Message(\"Expected GraphQL scalar, found: RED\"))",
    );
    check(
        &rt,
        reads::<ID>(alloc, words(alloc)),
        "Err(Message(\"Expected GraphQL scalar, found: null\")); Ok(ID { text: \"ab\" }); Err(Message(\"Expected `String` or `Int`, found: true\")); Err(Message(\"Expected GraphQL scalar, found: RED\"))",
    );
    check(
        &rt,
        reads::<ID>(alloc, integers(alloc)),
        "Err(Message(\"Expected GraphQL scalar, found: null\")); Ok(ID { text: \"-7\" })",
    );
}

/// Which input value stands for a value, as `{}` writes it.
fn giving<T: ToInputValue<DefaultScalarValue> + Drop>(
    alloc: Global,
    value: Result<T, AllocError>,
) -> Result<String, AllocError> {
    let input: InputValue = value?.to_input_value(alloc)?;
    input.to_string(alloc)
}

/// The identifier of a text.
fn identifier(alloc: Global, text: &str) -> Result<ID, AllocError> {
    Ok(ID::new(String::from_str(alloc, text)?))
}

#[test]
fn values_are_given(rt: HostRuntime) {
    let alloc = rt.alloc();
    let numbers = [1, 2];
    let none: Option<i32> = None;
    let list = numbers.to_vec(alloc);
    let identifier = identifier(alloc, "ab");
    let boxed = Box::new(alloc, 1).map_err(AllocError::from);
    let shared = Rc::new(alloc, 1).map_err(AllocError::from);
    check(&rt, giving(alloc, Ok(none)), "null");
    check(&rt, giving(alloc, Ok(Some(1))), "1");
    check(&rt, giving(alloc, Ok(Nullable::Some(1))), "1");
    check(&rt, giving(alloc, identifier), "\"ab\"");
    check(&rt, giving(alloc, Ok(numbers.as_slice())), "[1, 2]");
    check(&rt, giving(alloc, Ok([[true]; 2])), "[[true], [true]]");
    check(&rt, giving(alloc, Ok(&&1)), "1");
    check(&rt, giving(alloc, Ok("ab")), "\"ab\"");
    check(&rt, giving(alloc, list), "[1, 2]");
    check(&rt, giving(alloc, boxed), "1");
    check(&rt, giving(alloc, shared), "1");
    check(&rt, giving(alloc, String::from_str(alloc, "ab")), "\"ab\"");
    check(&rt, giving(alloc, Ok(Value::scalar(1))), "1");
}

/// Which input value a value becomes, as `{}` writes it.
fn becoming<T: IntoInputValue<DefaultScalarValue>>(
    alloc: Global,
    value: Result<T, AllocError>,
) -> Result<String, AllocError> {
    let input: InputValue = value?.into_input_value(alloc)?;
    input.to_string(alloc)
}

#[test]
fn values_become_input(rt: HostRuntime) {
    let alloc = rt.alloc();
    let none: Option<i32> = None;
    check(&rt, becoming(alloc, Ok(none)), "null");
    check(&rt, becoming(alloc, Ok(Some(true))), "true");
    check(&rt, becoming(alloc, Ok(&1)), "1");
    check(&rt, becoming(alloc, Ok(1)), "1");
    check(&rt, becoming(alloc, Ok("ab")), "\"ab\"");
    check(&rt, becoming(alloc, Ok(CowStr::Borrowed("ab"))), "\"ab\"");
    check(
        &rt,
        becoming(alloc, one_two_and(alloc, InputValue::null())),
        "[1, 2, null]",
    );
    check(
        &rt,
        becoming(alloc, String::from_str(alloc, "ab")),
        "\"ab\"",
    );
}

#[test]
fn errors_are_displayed(rt: HostRuntime) {
    let alloc = rt.alloc();
    let no_list: FromInputValueVecError<Vec<i32>, DefaultScalarValue> =
        FromInputValueVecError::Item(FromInputValueVecError::Null);
    let no_array: FromInputValueArrayError<i32, DefaultScalarValue> =
        FromInputValueArrayError::Null;
    let other: FromInputValueArrayError<i32, DefaultScalarValue> =
        FromInputValueArrayError::WrongCount {
            actual: 3,
            expected: 2,
        };
    check(
        &rt,
        no_list.to_string(alloc),
        "Failed to convert into `Vec`: Value cannot be `null`",
    );
    check(
        &rt,
        no_array.to_string(alloc),
        "Failed to convert into exact-size array: Value cannot be `null`",
    );
    check(
        &rt,
        other.to_string(alloc),
        "Failed to convert into exact-size array: wrong elements count: 3 instead of 2",
    );
}
