//! A query in three parts, each asked of a service of its own, as a gateway does that sends parts
//! of a selection set to several services, and all of them asked of one.

ghost use Rattle.std.specs.Prelude.{IfSome};
ghost use Rattle.graphql_output_values.specs.DistinctKeys.{HasDistinctKeysThroughout};

use crate::service::served::{Asked, SampleService, over};
use graphql_executor::execute_sync;
use graphql_file_service::service::laws::answered_data_have_distinct_keys;
use graphql_joined_data::join_data;
use graphql_output_values::Value;
use graphql_sample::{SampleRecords, SampleResolver};
use graphql_values::{DefaultScalarValue, Variables};
use std::alloc::Global;
use std::process::Abort;

/// The texts of three queries, the text of the query of all of them, and its data.
pub type Row<'a> = (&'a str, &'a str, &'a str, &'a str, &'a str);

type Data = Value<DefaultScalarValue>;

/// Objects that are joined twice, new keys last, and a field that fails in one part alone.
pub const ROWS: &[Row<'_>] = &[
    (
        "{ hero { id } }",
        "{ hero { friend { id } } }",
        "{ h: hero { name } hero { friend { name } name } }",
        "{ hero { id } hero { friend { id } } h: hero { name } hero { friend { name } name } }",
        "{\"hero\": {\"id\": \"h1\", \"friend\": {\"id\": \"h2\", \"name\": \"Bob\"}, \"name\": \"Ann\"}, \"h\": {\"name\": \"Ann\"}}",
    ),
    (
        "{ __typename }",
        "query { ...A } fragment A on Query { hero { __typename } }",
        "{ hero { id @skip(if: true) } }",
        "query { __typename ...A hero { id @skip(if: true) } } fragment A on Query { hero { __typename } }",
        "{\"__typename\": \"Query\", \"hero\": {\"__typename\": \"Human\"}}",
    ),
];

/// The data that a text is answered by a service's parts; each object in them has distinct keys.
/// `None` where the request is refused, or memory ran out.
pub fn data_of_text(
    alloc: Global,
    service: &SampleService,
    text: &str,
    records: &mut SampleRecords,
) -> Option<Data>
    ensures { IfSome result HasDistinctKeysThroughout }
{
    let resolver = service.resolver();
    answered_data_have_distinct_keys::<DefaultScalarValue, SampleResolver>(resolver);
    let root = service.root_node();
    let values: Variables<DefaultScalarValue> = Variables::new(alloc);
    match execute_sync(alloc, text, None, root, resolver, &values, records) {
        Ok((data, _)) => Some(data),
        Err(_) => None,
    }
}

/// The join of the data that three texts are answered, each by itself. `None` where one is refused,
/// where they have no join, or where memory ran out.
pub fn joined_in_three(
    alloc: Global,
    service: &SampleService,
    row: &Row<'_>,
    records: &mut SampleRecords,
) -> Option<Data> {
    let first = data_of_text(alloc, service, row.0, records)?;
    let second = data_of_text(alloc, service, row.1, records)?;
    let third = data_of_text(alloc, service, row.2, records)?;
    let Ok(front) = join_data(alloc, &first, &second) else {
        return None;
    };
    match join_data(alloc, &front, &third) {
        Ok(joined) => Some(joined),
        Err(_) => None,
    }
}

/// Asserts what data are.
fn is_shown(rt: &impl Abort, alloc: Global, data: Option<Data>, wanted: &str) {
    let data = data.expect(rt, "data");
    let shown = format!(in alloc; "{data}").expect(rt, "memory");
    assert_eq!(rt; shown.as_str(), wanted);
}

/// Asserts that three queries are answered apart what they are answered together, once joined.
pub fn are_joined_in_three(
    rt: &impl Abort,
    alloc: Global,
    service: &SampleService,
    records: &mut SampleRecords,
    rows: &[Row<'_>],
) {
    for row in rows {
        let joined = joined_in_three(alloc, service, row, records);
        is_shown(rt, alloc, joined, row.4);
        let whole = data_of_text(alloc, service, row.3, records);
        is_shown(rt, alloc, whole, row.4);
    }
}

#[test]
fn a_query_in_three_parts_is_answered_as_the_whole(rt: HostRuntime) {
    over(&rt, rt.alloc(), Asked::InThree(ROWS));
}
