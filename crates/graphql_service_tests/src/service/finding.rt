//! Requests to which exactly one field of an input object is given.

use crate::service::served::{Asked, Row, over};

/// One field, in the text and by a variable; no field, two, `null`; two that are sent, and no field
/// of a default.
const VALUES: &[Row<'_>] = &[
    (
        r#"{"query":"{ find(by: {id: \"h2\"}) { name } }"}"#,
        r#"{"data":{"find":{"name":"Bob"}}}"#,
        0,
    ),
    (
        r#"{"query":"{ find(by: {name: \"Ann\"}) { id } }"}"#,
        r#"{"data":{"find":{"id":"h1"}}}"#,
        0,
    ),
    (
        r#"{"query":"{ find(by: {name: \"h1\"}) { id } }"}"#,
        r#"{"data":{"find":null}}"#,
        0,
    ),
    (
        r#"{"query":"{ find(by: {}) { name } }"}"#,
        r#"{"errors":[{"message":"Invalid value for argument \"by\", reason: exactly one field of \"By\" must be given","locations":[{"line":1,"column":12}]}]}"#,
        0,
    ),
    (
        r#"{"query":"{ find(by: {id: \"h1\", name: \"Bob\"}) { name } }"}"#,
        r#"{"errors":[{"message":"Invalid value for argument \"by\", reason: exactly one field of \"By\" must be given","locations":[{"line":1,"column":12}]}]}"#,
        0,
    ),
    (
        r#"{"query":"{ find(by: {id: null}) { name } }"}"#,
        r#"{"errors":[{"message":"Invalid value for argument \"by\", reason: exactly one field of \"By\" must be given","locations":[{"line":1,"column":12}]}]}"#,
        0,
    ),
    (
        r#"{"query":"query Q($b: By!) { find(by: $b) { name } }","variables":{"b":{"id":"h1","name":null}}}"#,
        r#"{"errors":[{"message":"Variable \"$b\" got an invalid value, reason: exactly one field of \"By\" must be given","locations":[{"line":1,"column":9}]}]}"#,
        0,
    ),
    (
        r#"{"query":"query Q($b: By!) { find(by: $b) { name } }","variables":{"b":{"name":"Bob"}}}"#,
        r#"{"data":{"find":{"name":"Bob"}}}"#,
        0,
    ),
    (
        r#"{"query":"query Q($b: By = {}) { find(by: $b) { name } }"}"#,
        r#"{"errors":[{"message":"Invalid default value for variable \"b\", reason: exactly one field of \"By\" must be given","locations":[{"line":1,"column":18}]}]}"#,
        0,
    ),
];

/// A variable at the one field: no default helps.
const VARIABLES: &[Row<'_>] = &[
    (
        r#"{"query":"query Q($i: String = \"h1\") { find(by: {id: $i}) { name } }"}"#,
        r#"{"errors":[{"message":"Variable \"$i\" of type \"String\" used in position expecting type \"String!\"","locations":[{"line":1,"column":9},{"line":1,"column":44}]}]}"#,
        0,
    ),
    (
        r#"{"query":"query Q($i: String!) { find(by: {id: $i}) { name } }","variables":{"i":"h1"}}"#,
        r#"{"data":{"find":{"name":"Ann"}}}"#,
        0,
    ),
    (
        r#"{"query":"query Q($i: String! = \"h2\") { find(by: {id: $i}) { name } }"}"#,
        r#"{"data":{"find":{"name":"Bob"}}}"#,
        0,
    ),
];

/// What is told of the mark.
const MARKS: &[Row<'_>] = &[(
    r#"{"query":"{ a: __type(name: \"By\") { isOneOf } b: __type(name: \"Human\") { isOneOf } }"}"#,
    r#"{"data":{"a":{"isOneOf":true},"b":{"isOneOf":null}}}"#,
    0,
)];

const PLAIN: &[(&str, usize, &str)] = &[(
    r#"{"query":"query Q($i: String!) { find(by: {id: $i}) { name } }","variables":{"i":"h1"}}"#,
    2,
    r#"{"plain":"query Q ( $ i : String ! ) { find ( by : { id : $ i } ) { name } }"}"#,
)];

const ALIKE: &[(&str, &str, &str)] = &[(
    r#"{"query":"query Q($i: String!) { find(by: {id: $i}) { name } }","variables":{"i":"h1"}}"#,
    "",
    "query Q ( $ i : String ! ) { find ( by : { id : $ i } ) { name } }",
)];

#[test]
fn one_field_is_given(rt: HostRuntime) {
    over(&rt, rt.alloc(), Asked::Finding(VALUES));
    over(&rt, rt.alloc(), Asked::Finding(VARIABLES));
    over(&rt, rt.alloc(), Asked::Finding(MARKS));
    over(&rt, rt.alloc(), Asked::AlikeFinding(ALIKE));
    for row in PLAIN {
        over(&rt, rt.alloc(), Asked::PlainFinding(*row));
    }
}
