use crate::told::check;
use graphql_scalars::{DefaultScalarValue, ToScalarValue};
use graphql_text::Text;
use std::alloc::{AllocError, Global};

/// The scalar of a value, as `{:?}` writes it.
fn scalar_text<T: ToScalarValue<DefaultScalarValue> + Drop>(
    alloc: Global,
    value: Result<T, AllocError>,
) -> Result<String, AllocError> {
    let scalar = value?.to_scalar_value(alloc)?;
    format!(in alloc; "{scalar:?}")
}

#[test]
fn values_are_scalars(rt: HostRuntime) {
    let alloc = rt.alloc();
    let seven = Box::new(alloc, 7).map_err(AllocError::from);
    let letters = "String(\"a\\n\")";
    check(&rt, scalar_text(alloc, seven), "Int(7)");
    check(&rt, scalar_text(alloc, Ok("a\n")), letters);
    check(
        &rt,
        scalar_text(alloc, String::from_str(alloc, "a\n")),
        letters,
    );
    check(
        &rt,
        scalar_text(alloc, Text::from_str(alloc, "a\n")),
        letters,
    );
}
