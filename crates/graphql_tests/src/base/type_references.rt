use crate::told::check;
use graphql_names::{BorrowedType, Type};
use graphql_text::TextRef;
use std::alloc::{AllocError, Global};

type Named = Type<TextRef<'static>>;

/// The type `Int`.
fn int(alloc: Global) -> Named {
    Type::new(alloc, TextRef::new("Int"))
}

/// The type `[Int!]`.
fn list(alloc: Global) -> Result<Named, AllocError> {
    int(alloc).wrap_non_null()?.wrap_list(None)
}

/// The type `[[Int!]!]!`, with three lists in the outer one.
fn nested(alloc: Global) -> Result<Named, AllocError> {
    let inner = list(alloc)?.wrap_non_null()?;
    inner.wrap_list(Some(3))?.wrap_non_null()
}

/// A type as it is written, whether it has no null and is a list, its name, and the name within.
fn type_text(alloc: Global, given: Result<Named, AllocError>) -> Result<String, AllocError> {
    let given = given?;
    let non_null = given.is_non_null();
    let list = given.is_list();
    let name = given.name();
    let innermost = given.innermost_name();
    format!(in alloc; "{given} {non_null} {list} {name:?} {innermost}")
}

#[test]
fn types_are_told_apart(rt: HostRuntime) {
    let alloc = rt.alloc();
    let needed = int(alloc).wrap_non_null();
    check(
        &rt,
        type_text(alloc, Ok(int(alloc))),
        "Int false false Some(\"Int\") Int",
    );
    check(
        &rt,
        type_text(alloc, needed),
        "Int! true false Some(\"Int\") Int",
    );
    check(
        &rt,
        type_text(alloc, list(alloc)),
        "[Int!] false true None Int",
    );
    check(
        &rt,
        type_text(alloc, nested(alloc)),
        "[[Int!]!]! true true None Int",
    );
}

/// The nested type with null, lent, how many wraps it has, and the outermost of them.
fn nullable_text(alloc: Global) -> Result<String, AllocError> {
    let nullable = nested(alloc)?.nullable();
    let lent: BorrowedType = nullable.borrowed();
    let count = nullable.modifiers().len();
    let outermost = nullable.modifier();
    format!(in alloc; "{lent} {count} {outermost:?}")
}

#[test]
fn null_comes_back(rt: HostRuntime) {
    let told = nullable_text(rt.alloc());
    check(&rt, told, "[[Int!]!] 4 Some(List(Some(3)))");
}

/// The copy of the nested type, as it is written, and whether it is equal to that type.
fn copy_text(alloc: Global) -> Result<String, AllocError> {
    let given = nested(alloc)?;
    let copy = given.clone()?;
    let is_equal = copy == given;
    format!(in alloc; "{copy} {is_equal}")
}

#[test]
fn types_are_copied(rt: HostRuntime) {
    let told = copy_text(rt.alloc());
    check(&rt, told, "[[Int!]!]! true");
}
