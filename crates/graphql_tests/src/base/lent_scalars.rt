use crate::told::check;
use graphql_scalars::{DefaultScalarValue, Scalar};
use graphql_text::Text;
use std::alloc::{AllocError, Global};

/// How a scalar displays where it is lent, and then by itself.
fn scalar_texts(alloc: Global, scalar: DefaultScalarValue) -> Result<String, AllocError> {
    let lent = Scalar::from(&scalar);
    format!(in alloc; "{lent} {scalar}")
}

/// How a text displays where it is lent, and then by itself.
fn texts(alloc: Global, text: &str) -> Result<String, AllocError> {
    scalar_texts(
        alloc,
        DefaultScalarValue::from(Text::from_str(alloc, text)?),
    )
}

#[test]
fn scalars_are_displayed(rt: HostRuntime) {
    let alloc = rt.alloc();
    let least = DefaultScalarValue::Int(-2147483648);
    let truth = DefaultScalarValue::Boolean(true);
    check(
        &rt,
        texts(alloc, "a \"b\" \\n\n"),
        "\"a \"b\" \\n\n\" a \"b\" \\n\n",
    );
    check(&rt, scalar_texts(alloc, least), "-2147483648 -2147483648");
    check(&rt, scalar_texts(alloc, truth), "true true");
}
