use crate::validation::examples::{Row, Schema, schema};
use graphql_scalars::CheckError;
use graphql_validation::{Check, RootNode};
use graphql_values::InputValue;

/// Whether the check of the type of this name accepts `null`. `None` where there is no check, and
/// at want of memory.
fn accepts(schema: &Schema, name: &str) -> Option<bool> {
    let check = schema.concrete_type_by_name(name)?.input_value_parse_fn()?;
    match check.check(&InputValue::Null) {
        Ok(()) => Some(true),
        Err(CheckError::Message(_)) => Some(false),
        Err(CheckError::Memory) => None,
    }
}

/// Whether the checks answer of a scalar that refuses every value, one that accepts every value,
/// and an object, which has none.
fn answer(schema: &Schema) -> bool {
    matches!(accepts(schema, "Never"), Some(false))
        && matches!(accepts(schema, "String"), Some(true))
        && accepts(schema, "Query").is_none()
}

#[test]
fn a_schema_asks_the_checks_of_its_scalars(rt: HostRuntime) {
    let schema = schema(&rt, rt.alloc(), &[Row::Refusing("Never")], None);
    let told = answer(RootNode::new(schema).schema());
    assert!(rt; told);
}
