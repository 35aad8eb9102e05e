//! Queries, and what the resolver of these tests sees ahead while they are answered.

use crate::executor::look_ahead::look::Look;
use crate::executor::look_ahead::watcher::Watcher;
use graphql_executor::{GraphQLError, Response, execute_sync};
use graphql_mutation::WithoutMutations;
use graphql_schema::RootNode;
use graphql_values::{DefaultScalarValue, InputValue, Variables};
use std::alloc::{AllocError, Global};
use std::cell::RefCell;
use std::process::Abort;

pub type Root = RootNode<DefaultScalarValue>;

/// What is given to the variable `v` of a query.
#[derive(Clone, Copy)]
pub enum Given {
    /// Nothing.
    Nothing,

    /// `null`
    Null,

    /// The enum value `JEDI`.
    Jedi,
}

/// A query, what its variable is given, what is asked of the field `hero`, and what is told: what
/// is seen ahead, and the data, a line each, or the refusal.
pub type Row<'a> = (&'a str, Given, Look<'a>, &'a str);

/// The values of variables. An error is want of memory.
fn variables(alloc: Global, given: Given) -> Result<Variables<DefaultScalarValue>, AllocError> {
    let mut variables = Variables::new(alloc);
    let value = match given {
        Given::Nothing => return Ok(variables),
        Given::Null => InputValue::Null,
        Given::Jedi => InputValue::enum_value(alloc, "JEDI")?,
    };
    let name = String::from_str(alloc, "v")?;
    if variables.insert(name, value).is_ok() {
        Ok(variables)
    } else {
        Err(AllocError)
    }
}

/// What is told: what look-ahead sees, and the data, a line each, or the refusal. An error is want
/// of memory.
fn told(
    alloc: Global,
    seen: RefCell<String>,
    answer: Result<Response<DefaultScalarValue>, GraphQLError>,
) -> Result<String, AllocError> {
    let seen = seen.into_inner();
    match answer {
        Ok(response) => format!(in alloc; "{seen}\n{}", response.0),
        Err(refusal) => format!(in alloc; "{refusal}"),
    }
}

/// What is told of a row. An error is want of memory.
fn row_told(alloc: Global, root: &Root, row: &Row<'_>) -> Result<String, AllocError> {
    let mut seen = RefCell::new(String::new(alloc));
    let variables = variables(alloc, row.1)?;
    let resolver = WithoutMutations {
        resolver: Watcher { look: row.2 },
    };
    let answer = execute_sync(alloc, row.0, None, root, &resolver, &variables, &mut seen);
    told(alloc, seen, answer)
}

/// Asserts of queries over a root node what is told.
pub fn ask(rt: &impl Abort, alloc: Global, root: &Root, rows: &[Row<'_>]) {
    for row in rows {
        let told = row_told(alloc, root, row).expect(rt, "memory");
        assert_eq!(rt; told.as_str(), row.3);
    }
}
