use crate::told::check;
use graphql_scalars::{CheckError, DefaultScalarValue, Scalar, WrongInputScalarTypeError};
use graphql_text::{Text, TextRef};
use std::alloc::{AllocError, Global};

/// The error of a text that is no Boolean, as it is written.
fn no_boolean(alloc: Global) -> Result<String, AllocError> {
    let text = DefaultScalarValue::from(Text::from_str(alloc, "yes")?);
    let error = WrongInputScalarTypeError {
        type_name: TextRef::new("Boolean"),
        input: Scalar::from(&text),
    };
    error.to_check_error(alloc).to_string(alloc)
}

#[test]
fn errors_say_what_was_found(rt: HostRuntime) {
    let told = no_boolean(rt.alloc());
    check(&rt, told, "Expected `Boolean`, found: \"yes\"");
}

/// The copy of an error, as `{:?}` writes it.
fn copy_text(alloc: Global) -> Result<String, AllocError> {
    let error = CheckError::Message(Text::from_str(alloc, "no name")?);
    let copy = error.clone()?;
    format!(in alloc; "{copy:?}")
}

#[test]
fn errors_are_copied(rt: HostRuntime) {
    let told = copy_text(rt.alloc());
    check(&rt, told, "Message(\"no name\")");
}
