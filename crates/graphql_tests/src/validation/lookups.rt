use crate::validation::examples::{
    Meta, Row, Schema, non_null, nullable, plain, reference, says, schema,
};
use graphql_text::Text;
use graphql_validation::RootNode;
use std::alloc::Global;
use std::process::Abort;

/// Types of all kinds, with a mutation root.
fn all_kinds(rt: &impl Abort, alloc: Global) -> Schema {
    let name = plain("name", "String");
    let rows = [
        Row::Interface("Named", name),
        Row::Implementor("Human", name, "Named"),
        Row::Union("Anyone", "Human"),
        Row::Enum("Color", "RED"),
        Row::InputObject("Point", "x", non_null("String")),
    ];
    schema(rt, alloc, &rows, Some("Human"))
}

/// Asserts the names of metadata, each with a space behind it.
fn are_named(rt: &impl Abort, alloc: Global, list: &[&Meta], names: &str) {
    let mut text = Text::new(alloc);
    for meta in list {
        text.push_str(meta.name().unwrap_or("?"))
            .expect(rt, "memory");
        text.push(' ').expect(rt, "memory");
    }
    assert_eq!(rt; text.as_str(), names);
}

/// Asserts how the list of the type of this name without `null` is written.
fn is_written(rt: &impl Abort, alloc: Global, schema: &Schema, name: &str, words: &str) {
    let needed = reference(rt, alloc, non_null(name));
    let list = needed.wrap_list(None).expect(rt, "memory");
    let made = schema.make_type(alloc, &list).expect(rt, "memory");
    let written = made.expect(rt, "a type").to_string(alloc);
    assert_eq!(rt; written.expect(rt, "memory").as_str(), words);
}

/// Whether there is no type of this name to refer to.
fn is_unknown(rt: &impl Abort, alloc: Global, schema: &Schema, name: &str) -> bool {
    let named = reference(rt, alloc, nullable(name));
    schema
        .make_type(alloc, &named)
        .expect(rt, "memory")
        .is_none()
}

/// Asserts the names of the possible types of the type of this name.
fn has_possible(rt: &impl Abort, alloc: Global, schema: &Schema, name: &str, names: &str) {
    let of = schema.concrete_type_by_name(name).expect(rt, "a type");
    let possible = schema.possible_types(alloc, of).expect(rt, "memory");
    are_named(rt, alloc, possible.as_slice(), names);
}

/// Whether the types of these names overlap, and whether the second is possible at the first.
fn meet(schema: &Schema, name: &str, other: &str) -> Option<(bool, bool)> {
    let a = schema.concrete_type_by_name(name)?;
    let b = schema.concrete_type_by_name(other)?;
    Some((schema.type_overlap(a, b), schema.is_possible_type(a, b)))
}

/// Whether types are found by their names.
fn finds(schema: &Schema) -> bool {
    schema.concrete_type_by_name("Human").is_some()
        && schema.concrete_type_by_name("human").is_none()
        && schema.type_by_name("Point").is_some()
}

/// Whether the query root is `Query`, with the fields of introspection.
fn has_query(schema: &Schema) -> bool {
    let query = schema.concrete_query_type();
    says(query.name(), "Query")
        && query.field_by_name("__type").is_some()
        && says(schema.query_type().innermost_concrete().name(), "Query")
}

/// Whether there is a mutation root, and no subscription root.
fn has_mutations(schema: &Schema) -> bool {
    schema.concrete_mutation_type().is_some()
        && schema.concrete_subscription_type().is_none()
        && schema.mutation_type().is_some()
        && schema.subscription_type().is_none()
}

fn types_are_found(schema: &Schema) -> bool {
    finds(schema) && has_query(schema) && has_mutations(schema)
}

/// Asserts the names of all types, by kind.
fn types_are_listed(rt: &impl Abort, alloc: Global, schema: &Schema) {
    let list = schema.concrete_type_list(alloc).expect(rt, "memory");
    let by_kind = "Color Point Named Boolean String Human Query __Schema __Type Anyone ";
    are_named(rt, alloc, list.as_slice(), by_kind);
}

/// Whether so many types are listed.
fn has_types(rt: &impl Abort, alloc: Global, schema: &Schema, count: usize) -> bool {
    schema.type_list(alloc).expect(rt, "memory").len() == count
}

/// Whether the directives of the standard are listed, and found without their `@`.
fn directives_are_listed(schema: &Schema) -> bool {
    let directives = schema.directive_list();
    let first = match directives.first() {
        Some(directive) => directive.name.is("deprecated"),
        None => false,
    };
    first
        && directives.len() == 4
        && schema.directive_by_name("specifiedBy").is_some()
        && schema.directive_by_name("@skip").is_none()
}

fn possible_types_are_listed(rt: &impl Abort, alloc: Global, schema: &Schema) {
    has_possible(rt, alloc, schema, "Named", "Human ");
    has_possible(rt, alloc, schema, "Anyone", "Human ");
    has_possible(rt, alloc, schema, "Point", "");
}

fn types_are_related(schema: &Schema) -> bool {
    matches!(meet(schema, "Named", "Anyone"), Some((true, false)))
        && matches!(meet(schema, "Anyone", "Human"), Some((true, true)))
        && matches!(meet(schema, "Anyone", "Query"), Some((false, false)))
        && schema.is_named_subtype("Human", "Named")
        && !schema.is_named_subtype("Named", "Human")
}

/// Whether lists of the one type are below lists of the other, and not the other way round.
fn lists_are_related(rt: &impl Abort, alloc: Global, schema: &Schema) -> bool {
    let sub = reference(rt, alloc, non_null("Human"));
    let sub = sub.wrap_list(None).expect(rt, "memory");
    let above = reference(rt, alloc, nullable("Named"));
    let above = above.wrap_list(Some(2)).expect(rt, "memory");
    schema.is_subtype(&sub, &above) && !schema.is_subtype(&above, &sub)
}

fn all_is_told(rt: &impl Abort, alloc: Global, schema: &Schema) {
    assert!(rt; types_are_found(schema));
    is_written(rt, alloc, schema, "Human", "[Human!]");
    assert!(rt; is_unknown(rt, alloc, schema, "Nobody"));
    types_are_listed(rt, alloc, schema);
    assert!(rt; has_types(rt, alloc, schema, 10));
    assert!(rt; directives_are_listed(schema));
    possible_types_are_listed(rt, alloc, schema);
    assert!(rt; types_are_related(schema));
    assert!(rt; lists_are_related(rt, alloc, schema));
}

#[test]
fn a_schema_tells_of_its_types(rt: HostRuntime) {
    let alloc = rt.alloc();
    all_is_told(&rt, alloc, &all_kinds(&rt, alloc));
}

/// Whether the schema has no root but that of queries, and no description.
fn has_queries_alone(schema: &Schema) -> bool {
    schema.concrete_mutation_type().is_none()
        && schema.concrete_subscription_type().is_none()
        && schema.description().is_none()
}

/// Whether a root node of the schema has introspection as it is told to.
fn switches(schema: Schema) -> bool {
    let root = RootNode::new(schema);
    let at_first = root.introspection_disabled;
    let root = root.disable_introspection();
    let disabled = root.introspection_disabled;
    let root = root.enable_introspection();
    !at_first && disabled && !root.introspection_disabled && has_queries_alone(root.schema())
}

/// Introspection is switched; and the name of no mutation root is taken.
#[test]
fn introspection_is_switched(rt: HostRuntime) {
    let switched = switches(schema(&rt, rt.alloc(), &[], Some("_EmptyMutation")));
    assert!(rt; switched);
}
