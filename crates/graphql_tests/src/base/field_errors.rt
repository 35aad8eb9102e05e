use crate::told::check;
use graphql_field_results::{ExecutionError, FieldError, FieldFault, IntoFieldError};
use graphql_output_values::Value;
use graphql_scalars::{CheckError, DefaultScalarValue, Scalar, WrongInputScalarTypeError};
use graphql_text::{Text, TextRef};
use graphql_values::{FromInputValueArrayError, FromInputValueVecError};
use std::alloc::{AllocError, Global};
use std::borrow::CowStr;
use std::process::Abort;

/// The reason of the error that a value becomes.
fn reason<E: IntoFieldError<DefaultScalarValue>>(
    alloc: Global,
    value: E,
) -> Result<String, AllocError> {
    match value.into_field_error(alloc) {
        FieldFault::Error(error) => error.to_string(alloc),
        FieldFault::Memory => Err(AllocError),
    }
}

/// The same of a text that is held in the ways of texts.
fn reasons_held(alloc: Global, words: &str) -> Result<String, AllocError> {
    let lent = reason(alloc, words)?;
    let moved = reason(alloc, CowStr::Borrowed(lent.as_str()))?;
    let held = reason(alloc, moved)?;
    let boxed = reason(alloc, held.into_boxed_str())?;
    let text = reason(alloc, Text::from_string(boxed))?;
    let checked = reason(alloc, CheckError::Message(Text::from_string(text)))?;
    reason(alloc, FieldError::of(Text::from_string(checked)))
}

/// The reason of the error of the scalar 1 that is no Boolean.
fn no_boolean(alloc: Global) -> Result<String, AllocError> {
    let scalar = DefaultScalarValue::Int(1);
    let error = WrongInputScalarTypeError {
        type_name: TextRef::new("Boolean"),
        input: Scalar::from(&scalar),
    };
    reason(alloc, error)
}

#[test]
fn values_become_errors_of_fields(rt: HostRuntime) {
    let alloc = rt.alloc();
    let no_list: FromInputValueVecError<Vec<i32>, DefaultScalarValue> =
        FromInputValueVecError::Item(FromInputValueVecError::Null);
    let other: FromInputValueArrayError<i32, DefaultScalarValue> =
        FromInputValueArrayError::WrongCount {
            actual: 3,
            expected: 2,
        };
    check(&rt, reasons_held(alloc, "No such flag"), "No such flag");
    check(&rt, no_boolean(alloc), "Expected `Boolean`, found: 1");
    check(
        &rt,
        reason(alloc, no_list),
        "Failed to convert into `Vec`: Value cannot be `null`",
    );
    check(
        &rt,
        reason(alloc, other),
        "Failed to convert into exact-size array: wrong elements count: 3 instead of 2",
    );
}

/// The error whose reason is 7, with a flag told beside it.
fn seven(rt: &impl Abort, alloc: Global, beside: bool) -> FieldError<DefaultScalarValue> {
    let reason: i32 = 7;
    FieldError::new(alloc, &reason, Value::scalar(beside)).expect(rt, "memory")
}

/// Where an error stands, how many keys its path has, why, and what is told beside.
fn error_told(
    alloc: Global,
    error: &ExecutionError<DefaultScalarValue>,
) -> Result<String, AllocError> {
    let place = (error.location().index(), error.path().len());
    let beside = error.error().extensions();
    format!(in alloc; "{place:?} {} {beside}", error.error())
}

#[test]
fn errors_are_compared_with_what_is_told_beside(rt: HostRuntime) {
    let alloc = rt.alloc();
    let error = seven(&rt, alloc, true);
    let other = seven(&rt, alloc, false);
    assert!(rt; error == other);
    assert!(rt; !error.tells_the_same(&other));
    assert!(rt; error.tells_the_same(&seven(&rt, alloc, true)));
    let told = error_told(alloc, &ExecutionError::at_origin(alloc, error));
    check(&rt, told, "(0, 0) 7 true");
    let counted = other.map_scalar_value(|_scalar: DefaultScalarValue| DefaultScalarValue::Int(1));
    let counted = counted.expect(&rt, "memory");
    let told = error_told(alloc, &ExecutionError::at_origin(alloc, counted));
    check(&rt, told, "(0, 0) 7 1");
}
