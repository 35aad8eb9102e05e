use crate::validation::examples::{Meta, Verdict, any_value, text};
use graphql_names::TypeModifier;
use graphql_validation::{ScalarMeta, TypeType};
use graphql_values::DefaultScalarValue;
use std::alloc::Global;
use std::process::Abort;

type Reference<'a> = TypeType<'a, DefaultScalarValue, Verdict>;

/// The scalar `Int`.
fn int(rt: &impl Abort, alloc: Global) -> Meta {
    ScalarMeta::new(text(rt, alloc, "Int"), any_value(alloc)).into_meta()
}

fn is_int(meta: Option<&Meta>) -> bool {
    matches!(meta, Some(meta) if meta.name() == Some("Int"))
}

/// The type around these metadata.
fn wrapped<'a>(
    rt: &impl Abort,
    alloc: Global,
    meta: &'a Meta,
    wraps: &[TypeModifier],
) -> Reference<'a> {
    TypeType::of(alloc, meta, wraps).expect(rt, "memory")
}

/// Whether the type is written so.
fn is_written(rt: &impl Abort, alloc: Global, of: &Reference<'_>, words: &str) -> bool {
    of.to_string(alloc).expect(rt, "memory").as_str() == words
}

fn is_nullable_int(of: &Reference<'_>) -> bool {
    of.list_contents().is_none() && !of.is_non_null()
}

fn is_needed_int(of: &Reference<'_>) -> bool {
    of.list_contents().is_none() && of.is_non_null() && is_int(of.to_concrete())
}

fn names_are_told(rt: &impl Abort, alloc: Global, meta: &Meta) {
    let named = wrapped(rt, alloc, meta, &[]);
    assert!(rt; is_written(rt, alloc, &named, "Int") && is_nullable_int(&named));
}

fn needed_is_told(rt: &impl Abort, alloc: Global, meta: &Meta) {
    let needed = wrapped(rt, alloc, meta, &[TypeModifier::NonNull]);
    assert!(rt; is_written(rt, alloc, &needed, "Int!") && is_needed_int(&needed));
}

/// Whether the type is a list of the scalar, written so; and its items are written so.
fn is_list(rt: &impl Abort, alloc: Global, of: &Reference<'_>, words: &str, items: &str) -> bool {
    let within = match of.list_contents() {
        Some(contents) => is_written(rt, alloc, contents, items),
        None => false,
    };
    within
        && is_written(rt, alloc, of, words)
        && is_int(Some(of.innermost_concrete()))
        && of.to_concrete().is_none()
}

fn list_is_told(rt: &impl Abort, alloc: Global, meta: &Meta) {
    let wraps = [
        TypeModifier::NonNull,
        TypeModifier::List(Some(3)),
        TypeModifier::NonNull,
    ];
    let list = wrapped(rt, alloc, meta, &wraps);
    assert!(rt; is_list(rt, alloc, &list, "[Int!]!", "Int!") && list.is_non_null());
}

fn all_are_told(rt: &impl Abort, alloc: Global, meta: &Meta) {
    names_are_told(rt, alloc, meta);
    needed_is_told(rt, alloc, meta);
    list_is_told(rt, alloc, meta);
}

#[test]
fn types_are_told(rt: HostRuntime) {
    let alloc = rt.alloc();
    all_are_told(&rt, alloc, &int(&rt, alloc));
}
