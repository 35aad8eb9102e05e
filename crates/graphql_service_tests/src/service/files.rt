//! Files of schemas and of records, and why they are not served.

use crate::service::served::{Asked, over};
use graphql_file_service::{Piped, PlacedFault, StandardChecks, run_files, sample};
use std::alloc::Global;
use std::io;
use std::process::Abort;

/// Files of schemas, and why they are not served, and where that stands, if it is known. Where
/// several faults stand, the first is told; the faults of the records come last.
const SCHEMAS: &[(&str, &str)] = &[
    ("{", "schema: NotJson\nline 1, column 1"),
    (
        r#"{"query":"Query"}"#,
        "schema: BadShape\n$.types: a list is wanted",
    ),
    (
        r#"{"query":"Query","types":[{"kind":"enum","name":"1"}]}"#,
        "schema: BadShape\n$.types[0].kind: \"object\", \"interface\" or \"union\" is wanted",
    ),
    (
        r#"{"query":"Query","types":[{"kind":"object","name":"1","fields":[{"name":"a","type":"["}]}]}"#,
        "schema: BadName\ntype \"1\"",
    ),
    (
        r#"{"query":"Query","types":[{"kind":"object","name":"Query","fields":[{"name":"a","type":"Int ]","args":[{"name":"b","type":"Int","default":"$c"}]}]}]}"#,
        "schema: BadTypeText\ntype \"Query\", field \"a\"",
    ),
    (
        r#"{"query":"Query","types":[{"kind":"object","name":"Query","fields":[{"name":"a","type":"Nobody","args":[{"name":"b","type":"Int","default":"$c"}]}]}]}"#,
        "schema: BadDefault\ntype \"Query\", field \"a\", argument \"b\"",
    ),
    (
        r#"{"query":"Query","types":[{"kind":"object","name":"Query","fields":[{"name":"a","type":"Nobody","args":[{"name":"b","type":"Int","default":"true"}]}]}]}"#,
        "schema: Schema(UnknownType(\"Nobody\"))",
    ),
    (
        r#"{"query":"Query","types":[{"kind":"object","name":"Query","fields":[{"name":"a","type":"Int","args":[{"name":"b","type":"Int","default":"true"}]}]}]}"#,
        "schema: BadDefault\ntype \"Query\", field \"a\", argument \"b\"",
    ),
    (
        r#"{"query":"Query","types":[{"kind":"interface","name":"Counted","fields":[{"name":"a","type":"Int!"}]},{"kind":"object","name":"Query","interfaces":["Counted"],"fields":[{"name":"a","type":"Int"}]}]}"#,
        "schema: NotExecutable\ntype \"Query\", interface \"Counted\", field \"a\"",
    ),
    (
        r#"{"query":"Query","types":[{"kind":"object","name":"Query","fields":[{"name":"a","type":"Int","args":[{"name":"b","type":"[Int!]!","default":"[1, 2]"}]}]}]}"#,
        "data: NotJson\nline 1, column 1",
    ),
];

/// Files of records of the sample's schema, and why they are not served, and where that stands, if
/// it is known.
const RECORDS: &[(&str, &str)] = &[
    ("[", "data: NotJson\nline 1, column 1"),
    (
        r#"{"roots":{"query":"q"}}"#,
        "data: BadShape\n$.records: a list is wanted",
    ),
    (
        r#"{"roots":{},"records":[]}"#,
        "data: BadShape\n$.roots.query: a text is wanted",
    ),
    (
        r#"{"roots":{"query":"q"},"records":[{"id":"q","type":"Query"}]}"#,
        "data: BadShape\n$.records[0].fields: an object is wanted",
    ),
    (
        r#"{"roots":{"query":"q"},"records":[{"id":"q","type":"Query","fields":{"hero":1.5}},{"id":"q","type":"Query","fields":{"hero":[{}]}}]}"#,
        "data: BadShape\n$.records[1].fields[\"hero\"]: a value or a list of values is wanted",
    ),
    (
        r#"{"roots":{"query":"q"},"records":[{"id":"q","type":"Query","fields":{"hero":[[1.0]]}},{"id":"q","type":"Query","fields":{}}]}"#,
        "data: BadNumber\nrecord \"q\", field \"hero\"",
    ),
    (
        r#"{"roots":{"query":"q"},"records":[{"id":"q","type":"Query","fields":{"hero":2147483648}}]}"#,
        "data: BadNumber\nrecord \"q\", field \"hero\"",
    ),
    (
        r#"{"roots":{"query":"q"},"records":[{"id":"q","type":"Query","fields":{"hero":"h9"}},{"id":"h1","type":"Human","fields":{}},{"id":"h1","type":"Human","fields":{}}]}"#,
        "data: DuplicateId\nrecord \"h1\"",
    ),
    (
        r#"{"roots":{"query":"q"},"records":[{"id":"q","type":"Query","fields":{"age":1}},{"id":"h1","type":"Int","fields":{}}]}"#,
        "data: UnknownType\nrecord \"h1\"",
    ),
    (
        r#"{"roots":{"query":"q"},"records":[{"id":"q","type":"Query","fields":{"hero":"h9"}},{"id":"h1","type":"Human","fields":{"age":1}}]}"#,
        "data: UnknownField\nrecord \"h1\", field \"age\"",
    ),
    (
        r#"{"roots":{"query":"h1"},"records":[{"id":"h1","type":"Human","fields":{"name":"h9","friend":[5,["h1","h9"]]}}]}"#,
        "data: BadLink\nrecord \"h1\", field \"friend\"",
    ),
    (
        r#"{"roots":{"query":"h1"},"records":[{"id":"h1","type":"Human","fields":{"name":"h9","friend":[5,["h1"]]}}]}"#,
        "data: BadRoot\nroot \"h1\"",
    ),
    (
        r#"{"roots":{"query":"q"},"records":[{"id":"h1","type":"Human","fields":{"name":["h9",null,true]}}]}"#,
        "data: BadRoot\nroot \"q\"",
    ),
    (
        r#"{"roots":{"query":"q","mutation":5},"records":[{"id":"q","type":"Query","fields":{"hero":null},"of":{}}],"more":[]}"#,
        "",
    ),
    (sample::RECORDS, ""),
];

/// Serves no line over files, with these checks of the scalars, and tells with the fault where it
/// stands.
pub fn served(
    alloc: Global,
    files: (&str, &str),
    checks: StandardChecks,
) -> Result<(), PlacedFault> {
    let mut reader = Piped::new(io::empty());
    let mut writer = Piped::new(io::sink());
    let schema = files.0.as_bytes();
    let records = files.1.as_bytes();
    let ended = run_files(
        alloc,
        schema,
        records,
        checks,
        false,
        &mut reader,
        &mut writer,
    );
    match ended {
        Ok(()) => Ok(()),
        Err(fault) => Err(PlacedFault::of(alloc, schema, records, fault)),
    }
}

/// Asserts why files are not served, and where that stands; with the empty text, that they are.
pub fn is_told(rt: &impl Abort, alloc: Global, served: Result<(), PlacedFault>, wanted: &str) {
    match served {
        Ok(()) => assert_eq!(rt; "", wanted),
        Err(placed) => {
            let told = format!(in alloc; "{placed}").expect(rt, "memory");
            assert_eq!(rt; told.as_str(), wanted);
        }
    }
}

#[test]
fn files_are_served_or_refused(rt: HostRuntime) {
    for (schema, wanted) in SCHEMAS {
        over(&rt, rt.alloc(), Asked::Files(schema, "{", wanted));
    }
    for (records, wanted) in RECORDS {
        over(
            &rt,
            rt.alloc(),
            Asked::Files(sample::SCHEMA, records, wanted),
        );
    }
}
