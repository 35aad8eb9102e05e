use crate::registry::rows::{lists_of_integers, lists_with_nulls};
use crate::told::check;
use graphql_input_types::{ID, Nullable};
use graphql_registry::{EmptyMutation, EmptySubscription, GraphQLType};
use graphql_values::DefaultScalarValue;
use std::alloc::{AllocError, Global};
use std::rc::Rc;

/// The name of a type, and the reference to it.
fn names<T: GraphQLType<DefaultScalarValue>>(alloc: Global) -> Result<String, AllocError> {
    let name = T::name().unwrap_or("none");
    let reference = T::as_type(alloc)?;
    format!(in alloc; "{name}; {reference}")
}

#[test]
fn scalars_have_names(rt: HostRuntime) {
    let alloc = rt.alloc();
    check(&rt, names::<bool>(alloc), "Boolean; Boolean!");
    check(&rt, names::<i32>(alloc), "Int; Int!");
    check(&rt, names::<&str>(alloc), "String; String!");
    check(&rt, names::<String>(alloc), "String; String!");
    check(&rt, names::<ID>(alloc), "ID; ID!");
}

#[test]
fn lists_and_types_with_null_have_none(rt: HostRuntime) {
    let alloc = rt.alloc();
    check(&rt, names::<Option<i32>>(alloc), "none; Int");
    check(&rt, names::<Nullable<i32>>(alloc), "none; Int");
    check(&rt, names::<Vec<i32>>(alloc), "none; [Int!]!");
    check(&rt, names::<&[i32]>(alloc), "none; [Int!]!");
    check(&rt, names::<[i32; 2]>(alloc), "none; [Int!]!");
    check(&rt, names::<Option<Vec<Option<i32>>>>(alloc), "none; [Int]");
}

#[test]
fn pointers_are_as_what_they_point_to(rt: HostRuntime) {
    let alloc = rt.alloc();
    check(&rt, names::<&i32>(alloc), "Int; Int!");
    check(&rt, names::<Box<i32>>(alloc), "Int; Int!");
    check(&rt, names::<Rc<i32>>(alloc), "Int; Int!");
}

#[test]
fn no_operations_have_names(rt: HostRuntime) {
    let alloc = rt.alloc();
    let _mutation: EmptyMutation = EmptyMutation::new();
    let _mutation: EmptyMutation<i32> = EmptyMutation::default();
    let _subscription: EmptySubscription = EmptySubscription::new();
    let _subscription: EmptySubscription<i32> = EmptySubscription::default();
    check(
        &rt,
        names::<EmptyMutation>(alloc),
        "_EmptyMutation; _EmptyMutation!",
    );
    check(
        &rt,
        names::<EmptySubscription<i32>>(alloc),
        "_EmptySubscription; _EmptySubscription!",
    );
}

/// The references of the rows.
fn told_rows(alloc: Global) -> Result<String, AllocError> {
    let lists = lists_of_integers(alloc)?;
    let with_nulls = lists_with_nulls(alloc)?;
    format!(in alloc; "{lists} {with_nulls}")
}

#[test]
fn rows_of_lists_are_given(rt: HostRuntime) {
    check(&rt, told_rows(rt.alloc()), "[Int!]! [Int]");
}
