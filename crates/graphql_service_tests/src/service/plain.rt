//! Requests, and their plain texts.

use crate::service::schemas::with_tag;
use crate::service::served::{Asked, SampleService, over};
use graphql_file_service::service::Service;
use graphql_sample::{SampleResolver, sample_records};
use graphql_schema::{RootNode, SchemaType};
use graphql_values::DefaultScalarValue;
use std::alloc::{AllocError, Global};
use std::process::Abort;

/// A line, the greatest size of its plain text in fields and inline fragments, and its answer
/// without the line feed.
pub type Row<'a> = (&'a str, usize, &'a str);

/// A fragment is an inline fragment, and counts as one selection; one less is too many.
const SPREAD: &[Row<'_>] = &[
    (
        r#"{"query":"{ hero { ...F friend { name } } } fragment F on Human { id friend { id } }"}"#,
        7,
        r#"{"plain":"query { hero { ... on Human { id friend { id } } friend { name } } }"}"#,
    ),
    (
        r#"{"query":"{ hero { ...F friend { name } } } fragment F on Human { id friend { id } }"}"#,
        8,
        r#"{"plain":"query { hero { ... on Human { id friend { id } } friend { name } } }"}"#,
    ),
    (
        r#"{"query":"{ hero { ...F friend { name } } } fragment F on Human { id friend { id } }"}"#,
        6,
        r#"{"errors":[{"message":"Plain text has more than 6 selections"}]}"#,
    ),
    (
        r#"{"query":"{ hero { ...A ...A } } fragment A on Human { ...B ...B } fragment B on Human { id }"}"#,
        10,
        r#"{"errors":[{"message":"Plain text has more than 10 selections"}]}"#,
    ),
    (
        r#"{"query":"{ hero { ...A ...A } } fragment A on Human { ...B ...B } fragment B on Human { id }"}"#,
        11,
        r#"{"plain":"query { hero { ... on Human { ... on Human { id } ... on Human { id } } ... on Human { ... on Human { id } ... on Human { id } } } }"}"#,
    ),
    (
        r#"{"query":"{ hero { ... @include(if: true) { id } } }"}"#,
        3,
        r#"{"plain":"query { hero { ... { id } } }"}"#,
    ),
    (
        r#"{"query":"{ hero { ...F @tag } } fragment F on Human { id }"}"#,
        3,
        r#"{"plain":"query { hero { ... on Human { id } } }"}"#,
    ),
];

/// Conditions are decided by the final values of variables. Where all of a set are left out the
/// first stays.
const LEFT_OUT: &[Row<'_>] = &[
    (
        r#"{"query":"query Q($x: Boolean!) { hero { name @include(if: $x) } }","variables":{"x":false}}"#,
        2,
        r#"{"plain":"query Q { hero { name @ skip ( if : true ) } }"}"#,
    ),
    (
        r#"{"query":"query Q($x: Boolean = true) { hero { name @include(if: $x) } }","variables":{"x":null}}"#,
        2,
        r#"{"plain":"query Q { hero { name @ skip ( if : true ) } }"}"#,
    ),
    (
        r#"{"query":"query Q($x: Boolean = true) { hero { name @include(if: $x) } }"}"#,
        2,
        r#"{"plain":"query Q { hero { name } }"}"#,
    ),
    (
        r#"{"query":"{ hero { __typename: name ... on Human { id @skip(if: true) } } }"}"#,
        4,
        r#"{"plain":"query { hero { __typename : name ... on Human { id @ skip ( if : true ) } } }"}"#,
    ),
    (
        r#"{"query":"mutation M($n: String!, $x: Boolean!) { rename(id: \"h2\", name: $n) @include(if: $x) { id } }","variables":{"n":"Z","x":false}}"#,
        2,
        r#"{"plain":"mutation M ( $ n : String ! ) { rename ( id : \"h2\" name : $ n ) @ skip ( if : true ) { id } }"}"#,
    ),
    (
        r#"{"query":"{ hero { ...F @skip(if: true) } } fragment F on Human { id }"}"#,
        3,
        r#"{"plain":"query { hero { ... on Human @ skip ( if : true ) { id } } }"}"#,
    ),
    (
        r#"{"query":"mutation { rename(id: \"h1\", name: \"a\\\"b\") { name } }"}"#,
        2,
        r#"{"plain":"mutation { rename ( id : \"h1\" name : \"a\\\"b\" ) { name } }"}"#,
    ),
];

/// What is no request, or is not executed, is refused as it is where it asks for an answer.
const REFUSED: &[Row<'_>] = &[
    (
        r#"{"query":5}"#,
        9,
        r#"{"errors":[{"message":"Line is not a request"}]}"#,
    ),
    (
        r#"{"query":"{ hero {"}"#,
        9,
        r#"{"errors":[{"message":"Unexpected end of input","locations":[{"line":1,"column":9}]}]}"#,
    ),
    (
        r#"{"query":"{ hero { x: name x: id } }"}"#,
        9,
        r#"{"errors":[{"message":"Fields \"x\" conflict because name and id are different fields","locations":[{"line":1,"column":10},{"line":1,"column":18}]}]}"#,
    ),
    (
        r#"{"query":"query A { hero { id } } query B { hero { name } }"}"#,
        9,
        r#"{"errors":[{"message":"Multiple operations provided"}]}"#,
    ),
    (
        r#"{"query":"{ hero { name } }"}"#,
        0,
        r#"{"errors":[{"message":"Plain text has more than 0 selections"}]}"#,
    ),
];

/// A chain of fragments: how many of them spread the next one twice, the greatest size of a plain
/// text in fields and inline fragments, and whether the plain text of the chain is within it.
pub type Chain = (u8, usize, bool);

/// A plain text has three selections for two to the power of the number of spreading fragments.
const CHAINS: &[Chain] = &[
    (11, 6_144, true),
    (11, 6_143, false),
    (12, 10_000, false),
    (40, 10_000, false),
];

/// A line of a request that spreads a chain of fragments, of which so many spread the next one
/// twice.
fn chain(alloc: Global, length: u8) -> Result<String, AllocError> {
    let mut text = String::from_str(alloc, r#"{"query":"{ hero { ...F0 } }"#)?;
    for place in 0..length {
        let next = place + 1;
        let fragment = format!(in alloc;
            " fragment F{place} on Human {{ ...F{next} ...F{next} }}"
        )?;
        text.push_str(fragment.as_str())?;
    }
    let last = format!(in alloc; " fragment F{length} on Human {{ id }}\"}}")?;
    text.push_str(last.as_str())?;
    Ok(text)
}

/// What such a line is told where its plain text is within the limit.
fn plain_chain(alloc: Global, length: u8) -> Result<String, AllocError> {
    let mut text = String::from_str(alloc, "... on Human { id }")?;
    for _ in 0..length {
        text = format!(in alloc; "... on Human {{ {text} {text} }}")?;
    }
    format!(in alloc; "{{\"plain\":\"query {{ hero {{ {text} }} }}\"}}")
}

/// What a line is told whose plain text is larger than this.
fn too_large(alloc: Global, limit: usize) -> Result<String, AllocError> {
    format!(in alloc;
        "{{\"errors\":[{{\"message\":\"Plain text has more than {limit} selections\"}}]}}"
    )
}

/// Asserts what a line is told of its plain text.
fn is_told(rt: &impl Abort, alloc: Global, service: &SampleService, line: &str, wanted: &str) {
    let mut out = Vec::new(alloc);
    let is_told = service.plain_line(alloc, line.as_bytes(), &mut out).is_ok();
    assert!(rt; is_told);
    let (end, front) = match out.as_slice().split_last() {
        Some((end, front)) => (*end, front),
        None => (0, wanted.as_bytes()),
    };
    assert_eq!(rt; front, wanted.as_bytes());
    assert_eq!(rt; end, b'\n');
}

/// A service over a schema, whose plain texts are at most so large.
fn service(
    rt: &impl Abort,
    alloc: Global,
    schema: SchemaType<DefaultScalarValue>,
    limit: usize,
) -> SampleService {
    let records = sample_records(alloc).expect(rt, "memory");
    Service::new(
        RootNode::new(schema),
        SampleResolver,
        records,
        65_536,
        limit,
    )
    .expect(rt, "a service")
}

/// Asserts what a line is told of its plain text, over a schema with a directive `tag` of its own.
pub fn tells(rt: &impl Abort, alloc: Global, schema: SchemaType<DefaultScalarValue>, row: Row<'_>) {
    let schema = with_tag(rt, alloc, schema);
    let service = service(rt, alloc, schema, row.1);
    is_told(rt, alloc, &service, row.0, row.2);
}

/// Asserts what a line with a chain of fragments is told of its plain text.
pub fn tells_chain(
    rt: &impl Abort,
    alloc: Global,
    schema: SchemaType<DefaultScalarValue>,
    row: Chain,
) {
    let (length, limit, is_within) = row;
    let service = service(rt, alloc, schema, limit);
    let line = chain(alloc, length).expect(rt, "memory");
    let wanted = if is_within {
        plain_chain(alloc, length)
    } else {
        too_large(alloc, limit)
    };
    let wanted = wanted.expect(rt, "memory");
    is_told(rt, alloc, &service, line.as_str(), wanted.as_str());
}

#[test]
fn requests_have_plain_texts(rt: HostRuntime) {
    for rows in [SPREAD, LEFT_OUT, REFUSED] {
        for row in rows {
            over(&rt, rt.alloc(), Asked::Plain(*row));
        }
    }
}

#[test]
fn chains_of_fragments_have_plain_texts(rt: HostRuntime) {
    for row in CHAINS {
        over(&rt, rt.alloc(), Asked::Chain(*row));
    }
}
