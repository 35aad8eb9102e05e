use crate::told::check;
use graphql_scalars::{CheckError, DefaultScalarValue, FromScalarValue, Scalar};
use graphql_text::Text;
use std::alloc::{AllocError, Global};
use std::fmt::Debug;
use std::rc::Rc;

/// What a scalar means at another type, or why it means nothing there, as `{:?}` writes it.
fn meaning<'s, T: FromScalarValue<'s, DefaultScalarValue, Error = CheckError> + Debug + Drop>(
    alloc: Global,
    scalar: &'s DefaultScalarValue,
) -> Result<String, AllocError> {
    let meant: Result<T, CheckError> = T::from_scalar_value(alloc, scalar);
    format!(in alloc; "{meant:?}")
}

#[test]
fn scalars_mean_values(rt: HostRuntime) {
    let alloc = rt.alloc();
    let seven = DefaultScalarValue::Int(7);
    let text = Text::from_str(alloc, "a\"b").expect(&rt, "memory");
    let text = DefaultScalarValue::from(text);
    let refused = "Err(Message(\"Expected `Int`, found: \\\"a\\\"b\\\"\"))";
    check(&rt, meaning::<Box<i32>>(alloc, &seven), "Ok(7)");
    check(&rt, meaning::<Rc<i32>>(alloc, &seven), "Ok(7)");
    check(
        &rt,
        meaning::<Scalar<DefaultScalarValue>>(alloc, &seven),
        "Ok(Scalar { held: Int(7) })",
    );
    check(&rt, meaning::<String>(alloc, &text), "Ok(\"a\\\"b\")");
    check(&rt, meaning::<Text>(alloc, &text), "Ok(\"a\\\"b\")");
    check(&rt, meaning::<Box<i32>>(alloc, &text), refused);
}
