//! Queries, and what the resolver of these tests sees ahead: fields in order, each with the type to
//! which it is bound, if to one.

use crate::executor::look_ahead::asked::{Given, Row};
use crate::executor::look_ahead::look::Look;
use crate::executor::look_ahead::schema::over;

/// Fields that are spread, and what stands beneath a child.
const SPREAD: &str = "{ hero { id ...C friends { ...C ... on Human @skip(if: true) { mass } } } } \
    fragment C on Character { name ... on Droid { primaryFunction } ... on Human { height } }";

/// The hero of the episode that the variable is given.
const OF_EPISODE: &str = "query Q($v: Episode) { hero(episode: $v) { name n: name } }";

/// Children: what is left out is none of them, and those of a fragment stand where it is spread.
const CHILDREN: &[Row<'_>] = &[
    (
        "{ hero { id @include(if: true) name @include(if: false) \
        appearsIn @skip(if: true) height @skip(if: false) } }",
        Given::Nothing,
        Look::Children,
        "id, height\n{\"hero\": {\"id\": \"1000\", \"height\": null}}",
    ),
    (
        SPREAD,
        Given::Nothing,
        Look::Children,
        "id, name, primaryFunction (Droid), height (Human), friends\n\
        {\"hero\": {\"id\": \"1000\", \"name\": \"Luke\", \"height\": null, \"friends\": null}}",
    ),
    (
        SPREAD,
        Given::Nothing,
        Look::Below("friends"),
        "name, primaryFunction (Droid), height (Human)\n\
        {\"hero\": {\"id\": \"1000\", \"name\": \"Luke\", \"height\": null, \"friends\": null}}",
    ),
    (
        "{ hero { ...C @include(if: false) id } } fragment C on Character { name }",
        Given::Nothing,
        Look::Children,
        "id\n{\"hero\": {\"id\": \"1000\"}}",
    ),
    (
        "{ hero { name ... on Droid { primaryFunction } ... on Human { height } } }",
        Given::Nothing,
        Look::Typed("Human"),
        "name, height (Human)\n{\"hero\": {\"name\": \"Luke\", \"height\": null}}",
    ),
];

/// Arguments, with the values of variables in their stead.
const ARGUMENTS: &[Row<'_>] = &[
    (
        OF_EPISODE,
        Given::Nothing,
        Look::Arguments,
        "episode: null\n{\"hero\": {\"name\": \"Luke\", \"n\": \"Luke\"}}",
    ),
    (
        OF_EPISODE,
        Given::Jedi,
        Look::Arguments,
        "episode: JEDI\n{\"hero\": {\"name\": \"Luke\", \"n\": \"Luke\"}}",
    ),
    (
        "{ hero { name } }",
        Given::Nothing,
        Look::Arguments,
        "\n{\"hero\": {\"name\": \"Luke\"}}",
    ),
    (
        "query Q($v: Boolean = true) { hero { name @include(if: $v) id } }",
        Given::Null,
        Look::Children,
        "id\n{\"hero\": {\"id\": \"1000\"}}",
    ),
];

/// The child of a key, among all children and alone: of several the first.
const KEYS: &[Row<'_>] = &[
    (
        OF_EPISODE,
        Given::Nothing,
        Look::Children,
        "name, n: name\n{\"hero\": {\"name\": \"Luke\", \"n\": \"Luke\"}}",
    ),
    (
        OF_EPISODE,
        Given::Nothing,
        Look::Child("n"),
        "n: name, n: name\n{\"hero\": {\"name\": \"Luke\", \"n\": \"Luke\"}}",
    ),
    (
        "{ hero { ...C ...C } } fragment C on Character { ... on Human { height } }",
        Given::Nothing,
        Look::Child("height"),
        "height (Human), height (Human)\n{\"hero\": {\"height\": null}}",
    ),
    (
        "{ hero { ...C ...C } } fragment C on Character { ... on Human { height } }",
        Given::Nothing,
        Look::Child("name"),
        "none, none\n{\"hero\": {\"height\": null}}",
    ),
];

/// The field that is looked at: the first of its key where it stands, left out or not; what is
/// noted last.
const FIRST: &[Row<'_>] = &[
    (
        "{ hero @skip(if: true) { id } hero { name } }",
        Given::Nothing,
        Look::Children,
        "id\n{\"hero\": {\"name\": \"Luke\"}}",
    ),
    (
        "{ hero { name } hero @skip(if: true) { id } }",
        Given::Nothing,
        Look::Children,
        "name\n{\"hero\": {\"name\": \"Luke\"}}",
    ),
    (
        "{ hero { id } ...Q } fragment Q on Query { hero { name } }",
        Given::Nothing,
        Look::Children,
        "id\n{\"hero\": {\"id\": \"1000\", \"name\": \"Luke\"}}",
    ),
    (
        "{ ...Q } fragment Q on Query { h: hero { name } }",
        Given::Nothing,
        Look::Children,
        "name\n{\"h\": {\"name\": \"Luke\"}}",
    ),
    (
        "{ a: hero { id } b: hero { name } }",
        Given::Nothing,
        Look::Children,
        "name\n{\"a\": {\"id\": \"1000\"}, \"b\": {\"name\": \"Luke\"}}",
    ),
];

/// The keys of children, the children and the arguments: the last of each, then the others.
const ENDS: &[Row<'_>] = &[
    (
        "{ hero(episode: JEDI, after: \"999\") { id name height } }",
        Given::Nothing,
        Look::Ends,
        "height, id, name, height, id, name, after, episode: JEDI\n\
        {\"hero\": {\"id\": \"1000\", \"name\": \"Luke\", \"height\": null}}",
    ),
    (
        "{ hero { id } }",
        Given::Nothing,
        Look::Ends,
        "id, id\n{\"hero\": {\"id\": \"1000\"}}",
    ),
];

#[test]
fn children_are_seen(rt: HostRuntime) {
    over(&rt, rt.alloc(), CHILDREN);
}

#[test]
fn values_of_variables_are_seen(rt: HostRuntime) {
    over(&rt, rt.alloc(), ARGUMENTS);
}

#[test]
fn a_child_is_found_by_its_key(rt: HostRuntime) {
    over(&rt, rt.alloc(), KEYS);
}

#[test]
fn the_first_of_a_key_is_looked_at(rt: HostRuntime) {
    over(&rt, rt.alloc(), FIRST);
}

#[test]
fn both_ends_are_read(rt: HostRuntime) {
    over(&rt, rt.alloc(), ENDS);
}
