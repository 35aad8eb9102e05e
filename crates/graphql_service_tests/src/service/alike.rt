//! Requests, what their plain texts are answered in their place, and texts spelled otherwise.

use crate::service::asked_again::{answered_both_ways, plain_again, plain_twice};
use crate::service::schemas::with_tag;
use crate::service::served::{Asked, nameless, over};
use graphql_file_service::service::{
    GraphQLRequest, execute_sync, plain_request, request_from_line,
};
use graphql_sample::{SampleRecords, SampleResolver};
use graphql_schema::{RootNode, SchemaType};
use graphql_values::{DefaultScalarValue, Variables};
use std::alloc::{AllocError, Global};
use std::process::Abort;

type Root = RootNode<DefaultScalarValue>;

type Values = Variables<DefaultScalarValue>;

/// A line of a request, the `id` of the human without a name, and the request's plain text.
pub type Row<'a> = (&'a str, &'a str, &'a str);

/// Requests of spreads, of variables' values, of mutations, of a field that fails, of one operation
/// of two, and of a directive that changes nothing.
const ROWS: &[Row<'_>] = &[
    (
        r#"{"query":"{ hero { ...F friend { name } } } fragment F on Human { id friend { id } }"}"#,
        "",
        "query { hero { ... on Human { id friend { id } } friend { name } } }",
    ),
    (
        r#"{"query":"query Q($x: Boolean!) { hero { name @include(if: $x) } }","variables":{"x":false}}"#,
        "",
        "query Q { hero { name @ skip ( if : true ) } }",
    ),
    (
        r#"{"query":"query Q($x: Boolean = true) { hero { name @include(if: $x) } }","variables":{"x":null}}"#,
        "",
        "query Q { hero { name @ skip ( if : true ) } }",
    ),
    (
        r#"{"query":"query Q($x: Boolean = true) { hero { name @include(if: $x) } }"}"#,
        "",
        "query Q { hero { name } }",
    ),
    (
        r#"{"query":"{ hero { __typename: name ... on Human { id @skip(if: true) } } }"}"#,
        "",
        "query { hero { __typename : name ... on Human { id @ skip ( if : true ) } } }",
    ),
    (
        r#"{"query":"mutation M($n: String!, $x: Boolean!) { rename(id: \"h2\", name: $n) @include(if: $x) { id } }","variables":{"n":"Z","x":false}}"#,
        "",
        "mutation M ( $ n : String ! ) { rename ( id : \"h2\" name : $ n ) @ skip ( if : true ) { id } }",
    ),
    (
        r#"{"query":"mutation M($n: String!, $x: Boolean!) { rename(id: \"h2\", name: $n) @include(if: $x) { id } }","variables":{"n":"Z","x":true}}"#,
        "",
        "mutation M ( $ n : String ! ) { rename ( id : \"h2\" name : $ n ) { id } }",
    ),
    (
        r#"{"query":"mutation { rename(id: \"h1\", name: \"Eve\") { id } rename(id: \"h1\", name: \"Eve\") { name } }"}"#,
        "",
        "mutation { rename ( id : \"h1\" name : \"Eve\" ) { id } rename ( id : \"h1\" name : \"Eve\" ) { name } }",
    ),
    (
        r#"{"query":"{ hero { friend { id } friend { name } } }"}"#,
        "h2",
        "query { hero { friend { id } friend { name } } }",
    ),
    (
        r#"{"query":"{ hero { ...A ...A } } fragment A on Human { ...B ...B } fragment B on Human { id }"}"#,
        "",
        "query { hero { ... on Human { ... on Human { id } ... on Human { id } } ... on Human { ... on Human { id } ... on Human { id } } } }",
    ),
    (
        r#"{"query":"query A { hero { id } } query B { hero { name } }","operationName":"B"}"#,
        "",
        "query B { hero { name } }",
    ),
    (
        r#"{"query":"{ hero { ...F @tag } } fragment F on Human { id }"}"#,
        "",
        "query { hero { ... on Human { id } } }",
    ),
];

/// Two lines of one request, whose texts have the same tokens: blanks, commas, comments and a byte
/// order mark stand otherwise.
type Spellings<'a> = (&'a str, &'a str);

const SPELLED: &[Spellings<'_>] = &[
    (
        r#"{"query":"query Q($x: Boolean = false) { hero { friend { id } name @skip(if: $x) } }"}"#,
        r#"{"query":"\ufeffquery,Q($x:Boolean=false)# of a hero\n{hero{friend{,,id},name@skip(if:$x)}},"}"#,
    ),
    (
        r#"{"query":"mutation { rename(id: \"h2\", name: \"Zoe\") { ...F } } fragment F on Human { name }"}"#,
        r#"{"query":"mutation{rename(id:\"h2\"name:\"Zoe\"){...F}}\r\nfragment,F\ton Human{#\nname}"}"#,
    ),
];

/// What shows the records after a request.
const AFTER: &str = "{ hero { id name friend { id name } } }";

/// What a text is answered over records: the data, and whether there are errors.
fn answer_told(
    rt: &impl Abort,
    alloc: Global,
    root: &Root,
    text: &str,
    name: Option<&str>,
    variables: &Values,
    records: &mut SampleRecords,
) -> Result<String, AllocError> {
    let answer = execute_sync(alloc, text, name, root, &SampleResolver, variables, records);
    let (data, errors) = answer.expect(rt, "an answer");
    let has_errors = !errors.is_empty();
    format!(in alloc; "{data} {has_errors}")
}

/// What a text is answered with the name and the values of a request, over records of which the
/// human of this `id` has no name; and what shows the records after it.
fn told(
    rt: &impl Abort,
    alloc: Global,
    root: &Root,
    text: &str,
    request: &GraphQLRequest<DefaultScalarValue>,
    id: &str,
) -> Result<String, AllocError> {
    let mut records = nameless(alloc, id)?;
    let name = match &request.operation_name {
        Some(name) => Some(name.as_str()),
        None => None,
    };
    let values = &request.variables;
    let answer = answer_told(rt, alloc, root, text, name, values, &mut records)?;
    let after = answer_told(rt, alloc, root, AFTER, None, values, &mut records)?;
    let calls = records.root_calls;
    format!(in alloc; "{answer} {after} {calls}")
}

/// Asserts what the plain text of a request is, and that it is answered as the request is and
/// leaves the same records.
fn is_alike(rt: &impl Abort, alloc: Global, root: &Root, row: &Row<'_>) {
    let request = request_from_line(alloc, row.0.as_bytes()).expect(rt, "a request");
    let plain = plain_request(alloc, &request, root, 11).expect(rt, "a plain text");
    assert_eq!(rt; plain.as_str(), row.2);
    let answer = told(rt, alloc, root, request.query.as_str(), &request, row.1);
    let again = told(rt, alloc, root, plain.as_str(), &request, row.1);
    let answer = answer.expect(rt, "memory");
    assert_eq!(rt; answer.as_str(), again.expect(rt, "memory").as_str());
}

/// Asserts that a request is answered both ways, has one plain text each time, and that this text
/// is its own: what both are answered, and that the texts are the same, the calls promise.
fn is_asked_again(rt: &impl Abort, alloc: Global, root: &Root, row: &Row<'_>) {
    let request = request_from_line(alloc, row.0.as_bytes()).expect(rt, "a request");
    let mut records = nameless(alloc, row.1).expect(rt, "memory");
    let mut others = nameless(alloc, row.1).expect(rt, "memory");
    let resolver = SampleResolver;
    let both = answered_both_ways(
        alloc,
        &request,
        root,
        &resolver,
        11,
        &mut records,
        &mut others,
    );
    assert!(rt; both.is_some());
    let twice = plain_twice(alloc, &request, root, 11).expect(rt, "a plain text");
    let GraphQLRequest {
        query,
        operation_name,
        variables,
    } = request;
    let texts = plain_again(alloc, query.as_str(), operation_name, variables, root, 11);
    let (text, again) = texts.expect(rt, "a plain text");
    assert_eq!(rt; twice.1.expect(rt, "a text").as_str(), row.2);
    assert_eq!(rt; text.as_str(), row.2);
    assert_eq!(rt; again.expect(rt, "a text").as_str(), row.2);
}

/// Asserts that two lines of one request have one plain text, and are answered the same.
fn is_spelled_alike(rt: &impl Abort, alloc: Global, root: &Root, lines: &Spellings<'_>) {
    let request = request_from_line(alloc, lines.0.as_bytes()).expect(rt, "a request");
    let other = request_from_line(alloc, lines.1.as_bytes()).expect(rt, "a request");
    let plain = plain_request(alloc, &request, root, 11).expect(rt, "a plain text");
    let again = plain_request(alloc, &other, root, 11).expect(rt, "a plain text");
    assert_eq!(rt; plain.as_str(), again.as_str());
    let answer = told(rt, alloc, root, request.query.as_str(), &request, "h2");
    let second = told(rt, alloc, root, other.query.as_str(), &other, "h2");
    let answer = answer.expect(rt, "memory");
    assert_eq!(rt; answer.as_str(), second.expect(rt, "memory").as_str());
}

/// Asserts that requests and their plain texts are alike, over a schema with a directive `tag` of
/// its own.
pub fn are_alike(
    rt: &impl Abort,
    alloc: Global,
    schema: SchemaType<DefaultScalarValue>,
    rows: &[Row<'_>],
) {
    let root = RootNode::new(with_tag(rt, alloc, schema));
    for row in rows {
        is_alike(rt, alloc, &root, row);
        is_asked_again(rt, alloc, &root, row);
    }
    for lines in SPELLED {
        is_spelled_alike(rt, alloc, &root, lines);
    }
}

#[test]
fn plain_texts_are_answered_as_their_requests(rt: HostRuntime) {
    over(&rt, rt.alloc(), Asked::Alike(ROWS));
}
