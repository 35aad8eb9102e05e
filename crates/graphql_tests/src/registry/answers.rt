use crate::told::check;
use graphql_field_results::{FieldFault, FieldResult, Resolved};
use graphql_input_types::{ID, Nullable};
use graphql_registry::IntoResolvable;
use graphql_values::DefaultScalarValue;
use std::alloc::{AllocError, Global};
use std::rc::Rc;

type Answer = Resolved<DefaultScalarValue, i32>;

/// An answer that is no list, as it is written.
fn told_leaf(alloc: Global, answer: &Answer) -> Result<String, AllocError> {
    match answer {
        Resolved::Null => String::from_str(alloc, "null"),
        Resolved::Scalar(scalar) => format!(in alloc; "{scalar}"),
        Resolved::List(_) => String::from_str(alloc, "list"),
        Resolved::Node(node) => format!(in alloc; "node {node}"),
    }
}

/// The answers of a list, one behind the other.
fn told_items(alloc: Global, answers: &[Answer]) -> Result<String, AllocError> {
    let mut told = String::new(alloc);
    for answer in answers {
        let item = told_leaf(alloc, answer)?;
        write!(told, "{item};")?;
    }
    Ok(told)
}

/// What a field is answered, or its error.
fn told(
    alloc: Global,
    answer: &FieldResult<Answer, DefaultScalarValue>,
) -> Result<String, AllocError> {
    match answer {
        Ok(Resolved::List(answers)) => told_items(alloc, answers.as_slice()),
        Ok(leaf) => told_leaf(alloc, leaf),
        Err(FieldFault::Error(error)) => format!(in alloc; "error: {error}"),
        Err(FieldFault::Memory) => Err(AllocError),
    }
}

/// What a value answers.
fn answers<T: IntoResolvable<DefaultScalarValue, i32>>(
    alloc: Global,
    value: T,
) -> Result<String, AllocError> {
    told(alloc, &value.into_resolvable(alloc))
}

/// The text `Ann`.
fn text(alloc: Global) -> Result<String, AllocError> {
    String::from_str(alloc, "Ann")
}

/// What texts answer.
fn texts(alloc: Global) -> Result<String, AllocError> {
    let owned = answers(alloc, text(alloc)?)?;
    let lent = answers(alloc, "Bob")?;
    let id = answers(alloc, ID::new(text(alloc)?))?;
    format!(in alloc; "{owned} {lent} {id}")
}

/// What values answer that may be null.
fn nulls(alloc: Global) -> Result<String, AllocError> {
    let none = answers(alloc, None::<i32>)?;
    let some = answers(alloc, Some(true))?;
    let null = answers(alloc, Nullable::<i32>::ExplicitNull)?;
    let given = answers(alloc, Nullable::Some(7))?;
    format!(in alloc; "{none} {some} {null} {given}")
}

/// What lists answer.
fn lists(alloc: Global) -> Result<String, AllocError> {
    let owned = answers(alloc, vec![in alloc; 1, 2, 3]?)?;
    let lent = answers(alloc, [4, 5].as_slice())?;
    let array = answers(alloc, [Some(6), None])?;
    format!(in alloc; "{owned} {lent} {array}")
}

/// What pointers answer.
fn pointers(alloc: Global) -> Result<String, AllocError> {
    let lent = answers(alloc, &text(alloc)?)?;
    let boxed = answers(alloc, Box::new(alloc, 8)?)?;
    let shared = answers(alloc, Rc::new(alloc, 9)?)?;
    format!(in alloc; "{lent} {boxed} {shared}")
}

/// What scalars that are lent answer, by clones.
fn lent_scalars(alloc: Global) -> Result<String, AllocError> {
    let truth = answers(alloc, &true)?;
    let lent = answers(alloc, &"Cid")?;
    let id = answers(alloc, &ID::new(text(alloc)?))?;
    let null = answers(alloc, &Nullable::<i32>::ImplicitNull)?;
    format!(in alloc; "{truth} {lent} {id} {null}")
}

/// What lists that are lent answer, by clones.
fn lent_lists(alloc: Global) -> Result<String, AllocError> {
    let owned = answers(alloc, &vec![in alloc; 1, 2]?)?;
    let lent = answers(alloc, &[3, 4].as_slice())?;
    let array = answers(alloc, &[Some(5), None])?;
    format!(in alloc; "{owned} {lent} {array}")
}

/// What pointers that are lent answer, by clones.
fn lent_pointers(alloc: Global) -> Result<String, AllocError> {
    let lent = answers(alloc, &&6)?;
    let boxed = answers(alloc, &Box::new(alloc, 7)?)?;
    let shared = answers(alloc, &Rc::new(alloc, 8)?)?;
    format!(in alloc; "{lent} {boxed} {shared}")
}

/// What results answer.
fn results(alloc: Global) -> Result<String, AllocError> {
    let right = answers(alloc, Ok::<i32, &str>(1))?;
    let wrong = answers(alloc, Err::<i32, &str>("no such hero"))?;
    format!(in alloc; "{right}, {wrong}")
}

#[test]
fn values_answer(rt: HostRuntime) {
    let alloc = rt.alloc();
    check(&rt, texts(alloc), "Ann Bob Ann");
    check(&rt, nulls(alloc), "null true null 7");
    check(&rt, lists(alloc), "1;2;3; 4;5; 6;null;");
    check(&rt, pointers(alloc), "Ann 8 9");
    check(&rt, results(alloc), "1, error: no such hero");
}

#[test]
fn clones_answer(rt: HostRuntime) {
    let alloc = rt.alloc();
    check(&rt, lent_scalars(alloc), "true Cid Ann null");
    check(&rt, lent_lists(alloc), "1;2; 3;4; 5;null;");
    check(&rt, lent_pointers(alloc), "6 7 8");
}
