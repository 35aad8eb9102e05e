use graphql_language::parse_document_source;
use graphql_tree::OwnedDocument;
use graphql_values::DefaultScalarValue;
use std::alloc::Global;
use std::test::Fail;

/// Documents of each production.
pub(crate) const DOCUMENTS: [&str; 8] = [
    "{ a }",
    "# a comment\n,{a,b}",
    "query query { on fragment true: null }",
    "fragment fragment on on { on }",
    "{ a(b: []) c(d: {}) }",
    "query($x: [[Int!]]!, $y: T = [{a: null}] @d(e: false)) { a }",
    "query Q @a(b: -1) { a: b(c: $x, d: {e: E}) @i { ...F ... on T { x } ... @i(j: $x) { y } ... { z } } }",
    "query { a } mutation { b } subscription { c } fragment F on T { d }",
];

pub(crate) fn parsed(alloc: Global, text: &str) -> Result<OwnedDocument<'_>, Fail> {
    Ok(parse_document_source::<DefaultScalarValue>(alloc, text)?)
}

/// Whether a clone of the text's document is told as the document is.
fn is_cloned(alloc: Global, text: &str) -> Result<bool, Fail> {
    let document = parsed(alloc, text)?;
    let copy = document.clone()?;
    let told = format!(in alloc; "{document:?}")?;
    let again = format!(in alloc; "{copy:?}")?;
    Ok(told == again)
}

#[test]
fn clones_of_documents(rt: HostRuntime) -> Result<(), Fail> {
    for row in DOCUMENTS {
        let cloned = is_cloned(rt.alloc(), row)?;
        assert!(rt; cloned);
    }
    Ok(())
}
