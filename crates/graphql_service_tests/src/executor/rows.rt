//! Requests, and what they are answered.

use crate::executor::answered::{Asked, CountedRow, Row};
use crate::executor::schemas::over;

/// Objects, aliases, fragments and arguments.
const ANSWERED: &[Row<'_>] = &[
    (
        "{ human { name friend { name } } }",
        "{\"human\": {\"name\": \"Ann\", \"friend\": null}}",
    ),
    (
        "{ a: human { __typename } a: human { name } b: dog { name } }",
        "{\"a\": {\"__typename\": \"Human\", \"name\": \"Ann\"}, \"b\": {\"name\": \"Rex\"}}",
    ),
    (
        "{ pet { __typename name ... on Cat { owner { name } } ... on Dog { d: name } } }",
        "{\"pet\": {\"__typename\": \"Cat\", \"name\": \"Tom\", \"owner\": {\"name\": \"Ann\"}}}",
    ),
    (
        "{ pets { ...p } } fragment p on Pet { name ...p2 ...p2 } fragment p2 on Pet { __typename }",
        "{\"pets\": [{\"name\": \"Rex\", \"__typename\": \"Dog\"}, {\"name\": \"Tom\", \"__typename\": \"Cat\"}]}",
    ),
    (
        "{ packs { __typename name } }",
        "{\"packs\": [[{\"__typename\": \"Dog\", \"name\": \"Rex\"}, {\"__typename\": \"Dog\", \"name\": \"Rex\"}], [{\"__typename\": \"Cat\", \"name\": \"Tom\"}, {\"__typename\": \"Dog\", \"name\": \"Rex\"}]]}",
    ),
    ("{ grid }", "{\"grid\": [[true, null], null]}"),
    (
        "{ self { self { n: __typename } } }",
        "{\"self\": {\"self\": {\"n\": \"Query\"}}}",
    ),
    (
        "{ a: given b: given(value: null) c: shape(value: {x: 1}) d: many(value: [1, null]) e: many }",
        "{\"a\": \"scalar\", \"b\": \"null\", \"c\": \"object\", \"d\": \"list\", \"e\": \"absent\"}",
    ),
    (
        "query($v: Any, $w: [Any] = [2], $x: Any = null) { a: given(value: $v) b: many(value: $w) c: many(value: [$v]) d: given(value: $x) }",
        "{\"a\": \"scalar\", \"b\": \"list\", \"c\": \"list\", \"d\": \"null\"}",
    ),
    (
        "query {\n self {\n   there: placed } }",
        "{\"self\": {\"there\": null}}",
    ),
    ("{ read(value: true) }", "{\"read\": null}"),
    (
        "{ completed { name ...f } } fragment f on Pet { owner { name } ... on Cat { lives } }",
        "{\"completed\": null}",
    ),
    (
        "{ human @skip(if: true) { name } dog @include(if: true) { name } being { __typename } }",
        "{\"dog\": {\"name\": \"Rex\"}, \"being\": null}",
    ),
];

/// What the schema tells of itself: an interface, a union, an input object, an object; of an object
/// of the query root's type wherever it stands.
const TOLD: &[Row<'_>] = &[
    (
        "{ __type(name: \"Pet\") { kind fields { name } interfaces { name } possibleTypes { name } } }",
        "{\"__type\": {\"kind\": \"INTERFACE\", \"fields\": [{\"name\": \"name\"}, {\"name\": \"owner\"}], \"interfaces\": [], \"possibleTypes\": [{\"name\": \"Cat\"}, {\"name\": \"Dog\"}]}}",
    ),
    (
        "{ __type(name: \"Being\") { kind fields { name } interfaces { name } possibleTypes { name } } }",
        "{\"__type\": {\"kind\": \"UNION\", \"fields\": null, \"interfaces\": null, \"possibleTypes\": [{\"name\": \"Human\"}, {\"name\": \"Dog\"}]}}",
    ),
    (
        "{ __type(name: \"Point\") { kind fields { name } inputFields { name defaultValue type { name } } } }",
        "{\"__type\": {\"kind\": \"INPUT_OBJECT\", \"fields\": null, \"inputFields\": [{\"name\": \"x\", \"defaultValue\": null, \"type\": {\"name\": \"Int\"}}]}}",
    ),
    (
        "{ __type(name: \"Dog\") { kind interfaces { name } fields { name type { kind name ofType { name } } } } }",
        "{\"__type\": {\"kind\": \"OBJECT\", \"interfaces\": [{\"name\": \"Pet\"}], \"fields\": [{\"name\": \"name\", \"type\": {\"kind\": \"SCALAR\", \"name\": \"String\", \"ofType\": null}}, {\"name\": \"owner\", \"type\": {\"kind\": \"NON_NULL\", \"name\": null, \"ofType\": {\"name\": \"Human\"}}}]}}",
    ),
    (
        "{ self { __schema { queryType { name } mutationType { name } } } }",
        "{\"self\": {\"__schema\": {\"queryType\": {\"name\": \"Query\"}, \"mutationType\": null}}}",
    ),
];

/// Fields without a value.
const FAILED: &[Row<'_>] = &[
    (
        "{ broken\n dog { name } }",
        "{\"broken\": null, \"dog\": {\"name\": \"Rex\"}}\n(2,0,2) broken: No such flag",
    ),
    (
        "{ human { name age } }",
        "{\"human\": null}\n(15,0,15) human age: Null at a non-null place",
    ),
    (
        "{ pet { name ... on Cat { l: lives } } }",
        "{\"pet\": null}\n(26,0,26) pet l: Nobody counts",
    ),
    (
        "{ impossible { name } }",
        "{\"impossible\": null}\n(2,0,2) impossible: Answer does not fit type Pet",
    ),
    (
        "{ one }",
        "{\"one\": null}\n(2,0,2) one: Answer does not fit type [Boolean]",
    ),
    (
        "{ flags }",
        "{\"flags\": null}\n(2,0,2) flags: Null at a non-null place",
    ),
    (
        "{ b: broken a: broken }",
        "{\"b\": null, \"a\": null}\n(2,0,2) b: No such flag\n(12,0,12) a: No such flag",
    ),
];

/// Requests that are refused, the first step that fails deciding.
const REFUSED: &[Row<'_>] = &[
    ("{", "Unexpected end of input. At 0:1"),
    (
        "{ nothing }",
        "Unknown field \"nothing\" on type \"Query\". At 0:2",
    ),
    (
        "fragment f on Human { name }",
        "Fragment \"f\" is never used. At 0:0",
    ),
];

/// Mutations: their fields in order, a key asked once, none asked behind a null at the root, and
/// none for the root's type name; for want of memory the fields before are counted.
const COUNTED: &[CountedRow<'_>] = &[
    ("mutation { a: add b: add }", "{\"a\": 1, \"b\": 2}", 2),
    (
        "mutation { ...f add ...f } fragment f on Mutation { add }",
        "{\"add\": 1}",
        1,
    ),
    (
        "mutation { a: add lose b: add }",
        "null\n(18,0,18) lose: Null at a non-null place",
        2,
    ),
    (
        "mutation { __typename }",
        "{\"__typename\": \"Mutation\"}",
        0,
    ),
    ("mutation { a: add starve b: add }", "Out of memory", 1),
];

#[test]
fn mutations_are_counted(rt: HostRuntime) {
    over(&rt, rt.alloc(), Asked::Mutations(COUNTED));
}

#[test]
fn requests_are_answered(rt: HostRuntime) {
    over(&rt, rt.alloc(), Asked::Texts(ANSWERED));
}

#[test]
fn the_schema_is_told(rt: HostRuntime) {
    over(&rt, rt.alloc(), Asked::Texts(TOLD));
}

#[test]
fn fields_without_a_value_are_told(rt: HostRuntime) {
    over(&rt, rt.alloc(), Asked::Texts(FAILED));
}

#[test]
fn the_first_step_that_fails_decides(rt: HostRuntime) {
    over(&rt, rt.alloc(), Asked::Texts(REFUSED));
}

#[test]
fn operations_are_chosen(rt: HostRuntime) {
    over(
        &rt,
        rt.alloc(),
        Asked::Operations(
            "query a { one: __typename } query b { two: __typename }",
            &[
                (Some("a"), "{\"one\": \"Query\"}"),
                (Some("b"), "{\"two\": \"Query\"}"),
                (Some("c"), "Unknown operation name"),
                (Some(""), "Unknown operation name"),
                (None, "Multiple operations provided"),
            ],
        ),
    );
}

#[test]
fn queries_alone_are_executed(rt: HostRuntime) {
    over(
        &rt,
        rt.alloc(),
        Asked::Validated(
            "query a { one: __typename } mutation b { two } subscription c { three }",
            &[
                (Some("a"), "{\"one\": \"Query\"}"),
                (Some("b"), "No mutation type"),
                (Some("c"), "Operation is a subscription"),
                (Some("d"), "Unknown operation name"),
            ],
        ),
    );
}

#[test]
fn deep_sets_are_answered(rt: HostRuntime) {
    over(&rt, rt.alloc(), Asked::Nested(10_900, 109_023));
}

#[test]
fn each_fragment_is_entered_once(rt: HostRuntime) {
    over(
        &rt,
        rt.alloc(),
        Asked::SpreadTwice(400, "{\"__typename\": \"Query\"}"),
    );
}
