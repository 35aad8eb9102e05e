use crate::told::check;
use graphql_input_types::Nullable;
use std::alloc::{AllocError, Global};

/// What a value that may be null tells of itself, and what it gives.
fn asked(alloc: Global, given: Nullable<i32>) -> Result<String, AllocError> {
    let which = (given.is_implicit_null(), given.is_explicit_null());
    let told = (which, given.is_null(), given.is_some());
    let taken = (given.some(), given.explicit(), given.unwrap_or(7));
    format!(in alloc; "{told:?} {taken:?}")
}

/// What becomes of it, and what stands in for null.
fn turned(alloc: Global, given: Nullable<i32>) -> Result<String, AllocError> {
    let is_one = (
        given.map(|value| value == 1),
        given.map_or(false, |value| value == 1),
    );
    let instead = (given.or(Nullable::Some(7)), given.ok_or(0));
    let called = given.unwrap_or_else(|| 8);
    format!(in alloc; "{is_one:?} {instead:?} {called}")
}

/// What stands after a write through what is lent, and a clone of it, and after a replacement what
/// was replaced.
fn written(alloc: Global, given: Nullable<i32>) -> Result<String, AllocError> {
    let mut lent = given;
    if let Nullable::Some(value) = lent.as_mut() {
        *value = 5;
    }
    let copy = lent.as_mut().cloned()?;
    let mut other = given;
    let before = other.replace(9);
    format!(in alloc; "{lent:?} {copy:?} {before:?} {other:?}")
}

/// A value that may be null, and what is told of it, of what becomes of it and of what is written
/// to it.
type Row = (Nullable<i32>, &'static str, &'static str, &'static str);

const ROWS: &[Row] = &[
    (
        Nullable::ImplicitNull,
        "((true, false), true, false) (None, None, 7)",
        "(ImplicitNull, false) (Some(7), Err(0)) 8",
        "ImplicitNull ImplicitNull ImplicitNull Some(9)",
    ),
    (
        Nullable::ExplicitNull,
        "((false, true), true, false) (None, Some(None), 7)",
        "(ExplicitNull, false) (Some(7), Err(0)) 8",
        "ExplicitNull ExplicitNull ExplicitNull Some(9)",
    ),
    (
        Nullable::Some(1),
        "((false, false), false, true) (Some(1), Some(Some(1)), 1)",
        "(Some(true), true) (Some(1), Ok(1)) 1",
        "Some(5) Some(5) Some(1) Some(9)",
    ),
];

#[test]
fn nulls_are_told_apart(rt: HostRuntime) {
    let alloc = rt.alloc();
    assert!(rt; matches!(Nullable::Some(&1).cloned(), Ok(Nullable::Some(1))));
    for row in ROWS {
        check(&rt, asked(alloc, row.0), row.1);
        check(&rt, turned(alloc, row.0), row.2);
        check(&rt, written(alloc, row.0), row.3);
    }
}
