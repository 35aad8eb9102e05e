//! Lines, and what they are answered.

use crate::service::served::{Asked, Row, over};

/// A null at a non-null place.
const FAILED: &[Row<'_>] = &[(
    r#"{"query":"{ hero { friend { id } friend { name } } }"}"#,
    r#"{"data":{"hero":{"friend":null}},"errors":[{"message":"Null at a non-null place","locations":[{"line":1,"column":33}],"path":["hero","friend","name"]}]}"#,
    0,
)];

/// A line of 29 bytes.
const SHORT: &[Row<'_>] = &[(
    r#"{"query":"{ hero { name } }"}"#,
    r#"{"data":{"hero":{"name":"Ann"}}}"#,
    0,
)];

/// The same where 28 are too many, and so is one that is no request.
const LONG: &[Row<'_>] = &[
    (
        r#"{"query":"{ hero { name } }"}"#,
        r#"{"errors":[{"message":"Line is longer than 28 bytes"}]}"#,
        0,
    ),
    (
        "                             ",
        r#"{"errors":[{"message":"Line is longer than 28 bytes"}]}"#,
        0,
    ),
];

/// The name of the root's type, of which no resolver is asked; a field that is left out; a key that
/// stands twice; a request that is refused; and what the next line sees.
const CHANGED: &[Row<'_>] = &[
    (
        r#"{"query":"mutation { __typename }"}"#,
        r#"{"data":{"__typename":"Mutation"}}"#,
        0,
    ),
    (
        r#"{"query":"mutation M($n: String!, $x: Boolean!) { rename(id: \"h2\", name: $n) @include(if: $x) { id } }","variables":{"n":"Z","x":false}}"#,
        r#"{"data":{}}"#,
        0,
    ),
    (
        r#"{"query":"mutation { rename(id: \"h1\", name: \"Eve\") { id } rename(id: \"h1\", name: \"Eve\") { name } }"}"#,
        r#"{"data":{"rename":{"id":"h1","name":"Eve"}}}"#,
        1,
    ),
    (
        r#"{"query":"mutation M($n: String!) { rename(id: \"h1\", name: $n) { id } }"}"#,
        r#"{"errors":[{"message":"Variable \"$n\" of type \"String!\" was not provided","locations":[{"line":1,"column":12}]}]}"#,
        1,
    ),
    (
        r#"{"query":"{ hero { name } }"}"#,
        r#"{"data":{"hero":{"name":"Eve"}}}"#,
        1,
    ),
];

/// A mutation of another human, where the hero has no name.
const OTHERS: &[Row<'_>] = &[
    (
        r#"{"query":"mutation { a: rename(id: \"h2\", name: \"X\") { id } }"}"#,
        r#"{"data":{"a":{"id":"h2"}}}"#,
        1,
    ),
    (
        r#"{"query":"{ hero { name } }"}"#,
        r#"{"data":{"hero":null},"errors":[{"message":"Null at a non-null place","locations":[{"line":1,"column":10}],"path":["hero","name"]}]}"#,
        1,
    ),
];

/// What the schema tells of a type.
const TOLD: &[Row<'_>] = &[(
    r#"{"query":"{ __type(name: \"Human\") { kind name fields { name } } }"}"#,
    r#"{"data":{"__type":{"kind":"OBJECT","name":"Human","fields":[{"name":"id"},{"name":"name"},{"name":"friend"}]}}}"#,
    0,
)];

/// What the schema tells of itself, where it may not be asked.
const HIDDEN: &[Row<'_>] = &[
    (
        r#"{"query":"{ __type(name: \"Nobody\") { name } }"}"#,
        r#"{"errors":[{"message":"Introspection is not allowed, but the operation contains \"__type\"","locations":[{"line":1,"column":3}]}]}"#,
        0,
    ),
    (
        r#"{"query":"{ __typename }"}"#,
        r#"{"data":{"__typename":"Query"}}"#,
        0,
    ),
];

#[test]
fn a_field_that_fails_is_told(rt: HostRuntime) {
    over(&rt, rt.alloc(), Asked::Nameless("h2", FAILED));
}

#[test]
fn mutations_are_seen_by_later_lines(rt: HostRuntime) {
    over(&rt, rt.alloc(), Asked::Lines(65_536, CHANGED));
    over(&rt, rt.alloc(), Asked::Nameless("h1", OTHERS));
}

#[test]
fn the_schema_is_told_where_it_may_be_asked(rt: HostRuntime) {
    over(&rt, rt.alloc(), Asked::Introspected);
    over(&rt, rt.alloc(), Asked::Lines(65_536, TOLD));
    over(&rt, rt.alloc(), Asked::Hidden(HIDDEN));
}

#[test]
fn long_lines_are_refused(rt: HostRuntime) {
    over(&rt, rt.alloc(), Asked::Lines(29, SHORT));
    over(&rt, rt.alloc(), Asked::Lines(28, LONG));
}

#[test]
fn other_schemas_make_no_service(rt: HostRuntime) {
    over(&rt, rt.alloc(), Asked::Unkept);
    over(&rt, rt.alloc(), Asked::OtherSkip);
    over(&rt, rt.alloc(), Asked::OtherBoolean);
    over(&rt, rt.alloc(), Asked::FilesOfOtherBoolean);
}
