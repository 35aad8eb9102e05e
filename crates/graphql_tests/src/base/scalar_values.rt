use crate::told::check;
use graphql_scalars::{DefaultScalarValue, ScalarValue};
use graphql_text::Text;
use std::alloc::{AllocError, Global};
use std::fmt::Display;

/// The same answer in another type of scalars.
fn another<S: ScalarValue + Drop, T: ScalarValue>(scalar: S) -> T {
    scalar.into_another()
}

/// The scalar of what is displayed.
fn displayed<S: ScalarValue>(alloc: Global, value: &impl Display) -> Result<S, AllocError> {
    S::from_displayable(alloc, value)
}

/// The text of a scalar, lent and owned.
fn texts(
    alloc: Global,
    scalar: Result<DefaultScalarValue, AllocError>,
) -> Result<String, AllocError> {
    let scalar: DefaultScalarValue = another(scalar?);
    let owned = scalar.try_to_string(alloc)?;
    let lent = scalar.try_as_str();
    format!(in alloc; "{lent:?} {owned:?}")
}

#[test]
fn scalars_are_asked(rt: HostRuntime) {
    let alloc = rt.alloc();
    check(
        &rt,
        texts(alloc, displayed(alloc, &-50)),
        "Some(\"-50\") Some(\"-50\")",
    );
    check(
        &rt,
        texts(alloc, Ok(DefaultScalarValue::Int(5))),
        "None None",
    );
}
