use crate::validation::examples::{
    Schema, argument, declared_alone, nullable, schema, selections, text,
};
use graphql_validation::{DirectiveType, SchemaError};
use graphql_values::DefaultScalarValue;
use std::alloc::Global;
use std::process::Abort;

/// A directive of this name where the standard has its conditions, with the argument `if` of this
/// type, with `null`.
fn directive(
    rt: &impl Abort,
    alloc: Global,
    name: &str,
    type_name: &str,
) -> DirectiveType<DefaultScalarValue> {
    let arguments = declared_alone(rt, alloc, argument(rt, alloc, "if", nullable(type_name)));
    DirectiveType::new(
        text(rt, alloc, name),
        selections(rt, alloc),
        arguments,
        false,
    )
}

/// Whether the directive was refused for an unknown type of this name.
fn is_unknown(added: &Result<(), SchemaError>, name: &str) -> bool {
    match added {
        Err(SchemaError::UnknownType(unknown)) => unknown.is(name),
        _ => false,
    }
}

/// Whether a directive of an unknown type is refused, and changes nothing.
fn refuses(rt: &impl Abort, alloc: Global, schema: &mut Schema) -> bool {
    let refused = schema.add_directive(directive(rt, alloc, "include", "Nowhere"));
    is_unknown(&refused, "Nowhere") && schema.has_standard_conditions()
}

/// Whether a directive stands in place of one of the standard, among four as before.
fn takes(rt: &impl Abort, alloc: Global, schema: &mut Schema) -> bool {
    let added = schema.add_directive(directive(rt, alloc, "skip", "Boolean"));
    added.is_ok() && !schema.has_standard_conditions() && schema.directive_list().len() == 4
}

fn changes(rt: &impl Abort, alloc: Global, schema: &mut Schema) -> bool {
    schema.has_standard_conditions() && refuses(rt, alloc, schema) && takes(rt, alloc, schema)
}

#[test]
fn directives_are_added(rt: HostRuntime) {
    let alloc = rt.alloc();
    let changed = changes(&rt, alloc, &mut schema(&rt, alloc, &[], None));
    assert!(rt; changed);
}
