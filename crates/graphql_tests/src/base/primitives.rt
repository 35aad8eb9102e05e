use crate::told::check;
use graphql_scalars::{CheckError, DefaultScalarValue, TryToPrimitive};
use graphql_text::Text;
use std::alloc::Global;

/// A scalar as a plain value, or why it is none.
fn primitive<'me, T, S: TryToPrimitive<'me, T, Error = CheckError>>(
    scalar: &'me S,
    alloc: Global,
) -> Result<T, CheckError> {
    scalar.try_to_primitive(alloc)
}

/// The scalar of the text `a`, as a plain text.
fn letter(alloc: Global) -> Result<String, CheckError> {
    let text = DefaultScalarValue::from(Text::from_str(alloc, "a")?);
    primitive(&text, alloc)
}

#[test]
fn scalars_are_plain_values(rt: HostRuntime) {
    let told = letter(rt.alloc());
    check(&rt, told, "a");
}

/// Why the integer -5 is no boolean.
fn refusal(alloc: Global) -> CheckError {
    let answer: Result<bool, CheckError> = primitive(&DefaultScalarValue::Int(-5), alloc);
    answer.err().unwrap_or(CheckError::Memory)
}

#[test]
fn other_scalars_are_refused(rt: HostRuntime) {
    let error = refusal(rt.alloc());
    assert_eq!(rt; error.message(), "Expected `Boolean`, found: -5");
}
