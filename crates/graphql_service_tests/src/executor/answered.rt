//! What requests are answered, as lines of text.

use crate::executor::beings::Household;
use crate::executor::costly::{nested, spread_twice};
use crate::executor::counter::Counter;
use crate::executor::told::errors_told;
use crate::service::in_parts::parts_of_query;
use crate::service::joined::{self, is_joined};
use graphql_executor::{
    GraphQLError, Response, documents_without_a_fault_are_settled, execute_sync,
    execute_validated_query, get_operation, read_request,
};
use graphql_file_service::service::Service;
use graphql_mutation::WithoutMutations;
use graphql_schema::RootNode;
use graphql_values::{DefaultScalarValue, Variables};
use std::alloc::{AllocError, Global};
use std::process::Abort;

pub type Root = RootNode<DefaultScalarValue>;

/// A text, and what it is answered: the data and the errors, a line each, or the refusal.
pub type Row<'a> = (&'a str, &'a str);

/// The text of a mutation, what it is answered over the counter, and the count that it leaves.
pub type CountedRow<'a> = (&'a str, &'a str, i32);

/// What is asserted of requests.
#[derive(Clone, Copy)]
pub enum Asked<'a> {
    /// What each text is answered.
    Texts(&'a [Row<'a>]),

    /// How many bytes the answer to sets that nest so deep is shown in.
    Nested(usize, usize),

    /// What so many fragments that each spread the next one twice are answered.
    SpreadTwice(u32, &'a str),

    /// What a text is answered of which each operation is asked by its name, or without a name.
    Operations(&'a str, &'a [(Option<&'a str>, &'a str)]),

    /// What a text is answered of which each operation is executed as one of a valid document.
    Validated(&'a str, &'a [(Option<&'a str>, &'a str)]),

    /// What mutations are answered over the counter, and the count that each leaves of zero.
    Mutations(&'a [CountedRow<'a>]),

    /// What is answered of queries' parts, and of the whole.
    InParts(&'a [joined::Row<'a>]),
}

/// The data, and behind them the errors, a line each.
fn response_told(
    alloc: Global,
    response: &Response<DefaultScalarValue>,
) -> Result<String, AllocError> {
    let errors = errors_told(alloc, response.1.as_slice())?;
    format!(in alloc; "{}{errors}", response.0)
}

/// What is answered, or why nothing is.
fn told(
    alloc: Global,
    answer: Result<Response<DefaultScalarValue>, GraphQLError>,
) -> Result<String, AllocError> {
    match answer {
        Ok(response) => response_told(alloc, &response),
        Err(refusal) => format!(in alloc; "{refusal}"),
    }
}

/// What a request is answered, as text.
fn answer_told(
    alloc: Global,
    root: &Root,
    text: &str,
    name: Option<&str>,
) -> Result<String, AllocError> {
    let mut context = ();
    let resolver = WithoutMutations {
        resolver: Household,
    };
    let variables = Variables::new(alloc);
    let answer = execute_sync(alloc, text, name, root, &resolver, &variables, &mut context);
    told(alloc, answer)
}

/// What the operation of this name of a valid document is answered.
fn validated_answer(
    alloc: Global,
    root: &Root,
    text: &str,
    name: Option<&str>,
) -> Result<Response<DefaultScalarValue>, GraphQLError> {
    let mut context = ();
    let variables = Variables::new(alloc);
    let document = read_request(alloc, text, root)?;
    let definitions = document.as_slice();
    let operation = get_operation(definitions, name)?;
    documents_without_a_fault_are_settled(root.schema());
    let resolver = WithoutMutations {
        resolver: Household,
    };
    let response = execute_validated_query(
        alloc,
        definitions,
        operation,
        root,
        &resolver,
        &variables,
        &mut context,
    )?;
    Ok(response)
}

/// Asserts what a request is answered.
fn is_answered(
    rt: &impl Abort,
    alloc: Global,
    root: &Root,
    text: &str,
    name: Option<&str>,
    wanted: &str,
) {
    let told = answer_told(alloc, root, text, name).expect(rt, "memory");
    assert_eq!(rt; told.as_str(), wanted);
}

/// Asserts what a mutation is answered over the counter, and the count that it leaves of zero.
fn is_counted(rt: &impl Abort, alloc: Global, root: &Root, row: &CountedRow<'_>) {
    let mut count = 0;
    let variables = Variables::new(alloc);
    let answer = execute_sync(alloc, row.0, None, root, &Counter, &variables, &mut count);
    let told = told(alloc, answer).expect(rt, "memory");
    assert_eq!(rt; told.as_str(), row.1);
    assert_eq!(rt; count, row.2);
}

/// Asserts of queries over a service with this root node what is answered of their parts.
fn in_parts(rt: &impl Abort, alloc: Global, root: Root, rows: &[joined::Row<'_>]) {
    let resolver = WithoutMutations {
        resolver: Household,
    };
    let service = Service::new(root, resolver, (), 65_536, 10_000).expect(rt, "a service");
    let variables = Variables::new(alloc);
    for row in rows {
        let parts = parts_of_query(alloc, row.0, &service, &variables, &mut ());
        is_joined(rt, alloc, parts, row);
    }
}

/// Asserts of requests over a root node what they are answered.
pub fn ask(rt: &impl Abort, alloc: Global, root: Root, asked: Asked<'_>) {
    match asked {
        Asked::Texts(rows) => {
            for row in rows {
                is_answered(rt, alloc, &root, row.0, None, row.1);
            }
        }
        Asked::Nested(levels, wanted) => {
            let text = nested(alloc, levels).expect(rt, "memory");
            let told = answer_told(alloc, &root, text.as_str(), None).expect(rt, "memory");
            assert_eq!(rt; told.len(), wanted);
        }
        Asked::SpreadTwice(fragments, wanted) => {
            let text = spread_twice(alloc, fragments).expect(rt, "memory");
            is_answered(rt, alloc, &root, text.as_str(), None, wanted);
        }
        Asked::Operations(text, rows) => {
            for row in rows {
                is_answered(rt, alloc, &root, text, row.0, row.1);
            }
        }
        Asked::Validated(text, rows) => {
            for row in rows {
                let answer = validated_answer(alloc, &root, text, row.0);
                let told = told(alloc, answer).expect(rt, "memory");
                assert_eq!(rt; told.as_str(), row.1);
            }
        }
        Asked::Mutations(rows) => {
            for row in rows {
                is_counted(rt, alloc, &root, row);
            }
        }
        Asked::InParts(rows) => in_parts(rt, alloc, root, rows),
    }
}
