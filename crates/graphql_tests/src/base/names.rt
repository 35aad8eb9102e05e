use crate::told::check;
use graphql_names::Name;
use std::alloc::{AllocError, Global};

/// A copy of a name as `{}` writes it, and the name as `{:?}` does.
fn name_text(alloc: Global, name: &Name) -> Result<String, AllocError> {
    let copy = name.clone()?;
    format!(in alloc; "{copy} {name:?}")
}

/// The name of a text, or why there is none, in words.
fn reading_text(alloc: Global, text: &str) -> Result<String, AllocError> {
    match Name::new(alloc, text) {
        Ok(name) => name_text(alloc, &name),
        Err(refusal) => refusal.to_string(alloc),
    }
}

#[test]
fn names_are_read(rt: HostRuntime) {
    let rows = [
        ("b_1", "b_1 \"b_1\""),
        (
            "1b",
            "\"1b\" is no name: letters, digits and underscores, with no digit first",
        ),
    ];
    for row in &rows {
        check(&rt, reading_text(rt.alloc(), row.0), row.1);
    }
}

/// Whether a text is a name.
fn validity(alloc: Global, text: &str) -> Result<String, AllocError> {
    let word = if Name::is_valid(text) {
        "a name"
    } else {
        "none"
    };
    String::from_str(alloc, word)
}

/// Texts, and whether each is a name.
const TEXTS: [(&str, &str); 11] = [
    ("Foo", "a name"),
    ("foo42", "a name"),
    ("_Foo", "a name"),
    ("_", "a name"),
    ("__type", "a name"),
    ("42_Foo", "none"),
    ("Foo-42", "none"),
    ("Foo???", "none"),
    ("fóo", "none"),
    (" Foo", "none"),
    ("", "none"),
];

#[test]
fn names_are_checked(rt: HostRuntime) {
    for row in &TEXTS {
        check(&rt, validity(rt.alloc(), row.0), row.1);
    }
}
