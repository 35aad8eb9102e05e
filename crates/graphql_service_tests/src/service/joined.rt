//! Queries in two parts: the answers of the parts, and their join, written by hand.

use crate::executor::{answered, schemas};
use crate::service::in_parts::{Parts, parts_over_the_sample};
use crate::service::served::{Asked, SampleService, over};
use graphql_executor::GraphQLError;
use graphql_output_values::Value;
use graphql_sample::SampleRecords;
use graphql_values::{DefaultScalarValue, Variables};
use std::alloc::Global;
use std::process::Abort;

/// The text of a query, and the data of its first selection, of the others, and of all of them.
pub type Row<'a> = (&'a str, &'a str, &'a str, &'a str);

/// The data of a query's parts, or why there are none.
pub type Answered = Result<Option<Parts<DefaultScalarValue>>, GraphQLError>;

/// Over the sample, of which Bob has no name: objects, a non-null field that fails, what an object
/// and the schema tell of themselves.
const SAMPLE: &[Row<'_>] = &[
    (
        "{ hero { id } hero { name friend { id } } }",
        "{\"hero\": {\"id\": \"h1\"}}",
        "{\"hero\": {\"name\": \"Ann\", \"friend\": {\"id\": \"h2\"}}}",
        "{\"hero\": {\"id\": \"h1\", \"name\": \"Ann\", \"friend\": {\"id\": \"h2\"}}}",
    ),
    (
        "{ hero { friend { id } } hero { friend { name } id } }",
        "{\"hero\": {\"friend\": {\"id\": \"h2\"}}}",
        "{\"hero\": {\"friend\": null, \"id\": \"h1\"}}",
        "{\"hero\": {\"friend\": null, \"id\": \"h1\"}}",
    ),
    (
        "{ ...A h: hero { id } ...B } fragment A on Query { hero { ...C } } fragment B on Query { hero { __typename } } fragment C on Human { name }",
        "{\"hero\": {\"name\": \"Ann\"}}",
        "{\"h\": {\"id\": \"h1\"}, \"hero\": {\"__typename\": \"Human\"}}",
        "{\"hero\": {\"name\": \"Ann\", \"__typename\": \"Human\"}, \"h\": {\"id\": \"h1\"}}",
    ),
    (
        "{ t: __type(name: \"Human\") { kind fields { name } } __typename t: __type(name: \"Human\") { name fields { type { kind } } } }",
        "{\"t\": {\"kind\": \"OBJECT\", \"fields\": [{\"name\": \"id\"}, {\"name\": \"name\"}, {\"name\": \"friend\"}]}}",
        "{\"__typename\": \"Query\", \"t\": {\"name\": \"Human\", \"fields\": [{\"type\": {\"kind\": \"NON_NULL\"}}, {\"type\": {\"kind\": \"NON_NULL\"}}, {\"type\": {\"kind\": \"OBJECT\"}}]}}",
        "{\"t\": {\"kind\": \"OBJECT\", \"fields\": [{\"name\": \"id\", \"type\": {\"kind\": \"NON_NULL\"}}, {\"name\": \"name\", \"type\": {\"kind\": \"NON_NULL\"}}, {\"name\": \"friend\", \"type\": {\"kind\": \"OBJECT\"}}], \"name\": \"Human\"}, \"__typename\": \"Query\"}",
    ),
    (
        "{ hero @skip(if: true) { id } hero { name } }",
        "{}",
        "{\"hero\": {\"name\": \"Ann\"}}",
        "{\"hero\": {\"name\": \"Ann\"}}",
    ),
];

/// Over a schema with an interface and a union: a node behind the interface, lists of such nodes,
/// and a non-null field of one of them that fails.
const BEINGS: &[Row<'_>] = &[
    (
        "{ pet { name } pet { __typename ... on Cat { owner { name } } } }",
        "{\"pet\": {\"name\": \"Tom\"}}",
        "{\"pet\": {\"__typename\": \"Cat\", \"owner\": {\"name\": \"Ann\"}}}",
        "{\"pet\": {\"name\": \"Tom\", \"__typename\": \"Cat\", \"owner\": {\"name\": \"Ann\"}}}",
    ),
    (
        "{ pets { name } dog { name } pets { __typename } }",
        "{\"pets\": [{\"name\": \"Rex\"}, {\"name\": \"Tom\"}]}",
        "{\"dog\": {\"name\": \"Rex\"}, \"pets\": [{\"__typename\": \"Dog\"}, {\"__typename\": \"Cat\"}]}",
        "{\"pets\": [{\"name\": \"Rex\", \"__typename\": \"Dog\"}, {\"name\": \"Tom\", \"__typename\": \"Cat\"}], \"dog\": {\"name\": \"Rex\"}}",
    ),
    (
        "{ packs { name } packs { ... on Cat { lives } ... on Dog { __typename } } }",
        "{\"packs\": [[{\"name\": \"Rex\"}, {\"name\": \"Rex\"}], [{\"name\": \"Tom\"}, {\"name\": \"Rex\"}]]}",
        "{\"packs\": [[{\"__typename\": \"Dog\"}, {\"__typename\": \"Dog\"}], [null, {\"__typename\": \"Dog\"}]]}",
        "{\"packs\": [[{\"name\": \"Rex\", \"__typename\": \"Dog\"}, {\"name\": \"Rex\", \"__typename\": \"Dog\"}], [null, {\"name\": \"Rex\", \"__typename\": \"Dog\"}]]}",
    ),
    (
        "{ pets { ... on Cat { lives } } grid pets { name } grid }",
        "{\"pets\": null}",
        "{\"grid\": [[true, null], null], \"pets\": [{\"name\": \"Rex\"}, {\"name\": \"Tom\"}]}",
        "{\"pets\": null, \"grid\": [[true, null], null]}",
    ),
    (
        "{ being { ... on Dog { name } } human { name } being { __typename } human { friend { age } } }",
        "{\"being\": null}",
        "{\"human\": {\"name\": \"Ann\", \"friend\": null}, \"being\": null}",
        "{\"being\": null, \"human\": {\"name\": \"Ann\", \"friend\": null}}",
    ),
    (
        "{ a: given(value: 1) b: given a: given(value: 1) }",
        "{\"a\": \"scalar\"}",
        "{\"b\": \"scalar\", \"a\": \"scalar\"}",
        "{\"a\": \"scalar\", \"b\": \"scalar\"}",
    ),
];

/// Asserts what the data are.
fn is_shown(rt: &impl Abort, alloc: Global, data: &Value<DefaultScalarValue>, wanted: &str) {
    let shown = format!(in alloc; "{data}").expect(rt, "memory");
    assert_eq!(rt; shown.as_str(), wanted);
}

/// Asserts what the data of a query's parts are, and of the whole.
pub fn is_joined(rt: &impl Abort, alloc: Global, answered: Answered, row: &Row<'_>) {
    let parts = answered.expect(rt, "an answer").expect(rt, "a query");
    is_shown(rt, alloc, &parts.0, row.1);
    is_shown(rt, alloc, &parts.1, row.2);
    is_shown(rt, alloc, &parts.2, row.3);
}

/// Asserts what the data of queries' parts are over the sample, and of the whole.
pub fn are_joined(
    rt: &impl Abort,
    alloc: Global,
    service: &SampleService,
    records: &mut SampleRecords,
    rows: &[Row<'_>],
) {
    let variables = Variables::new(alloc);
    for row in rows {
        let parts = parts_over_the_sample(alloc, row.0, service, &variables, records);
        is_joined(rt, alloc, parts, row);
    }
}

#[test]
fn queries_are_answered_the_join_of_their_parts(rt: HostRuntime) {
    over(&rt, rt.alloc(), Asked::InParts("h2", SAMPLE));
    schemas::over(&rt, rt.alloc(), answered::Asked::InParts(BEINGS));
}
