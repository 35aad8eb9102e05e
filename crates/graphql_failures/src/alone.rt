//! Requests alone.

use crate::ending::{Ending, is_left, judged};
use crate::lines::CHANGES;
use crate::served::SELECTION_LIMIT;
use crate::spending::spend;
use crate::unmade::Unmade;
use graphql_executor::{GraphQLError, Response};
use graphql_output_values::Value;
use graphql_sample::{SampleResolver, sample_records};
use graphql_schema::RootNode;
use graphql_service::{GraphQLRequest, PlainError, execute_sync, plain_request};
use graphql_values::{DefaultScalarValue, Variables};
use std::alloc::Global;

/// A mutation.
const MUTATION: &str = "mutation { rename(id: \"h1\", name: \"Eve\") { name } }";

/// A query that spreads a fragment.
const QUERY: &str = "{ hero { ...F friend { name } } } fragment F on Human { id friend { id } }";

/// The plain text of that query.
const PLAIN_TEXT: &str = "query { hero { ... on Human { id friend { id } } friend { name } } }";

/// The only field of an object, of this response key.
fn only_field<'a>(
    value: &'a Value<DefaultScalarValue>,
    key: &str,
) -> Option<&'a Value<DefaultScalarValue>> {
    let object = value.as_object_value()?;
    if object.field_count() == 1 {
        object.get_field_value(key)
    } else {
        None
    }
}

/// Whether this is the data of the mutation, without errors.
fn is_renamed(response: &Response<DefaultScalarValue>) -> bool {
    let name = only_field(&response.0, "rename").and_then(|human| only_field(human, "name"));
    match name {
        Some(Value::Scalar(DefaultScalarValue::String(name))) => {
            name.as_str() == "Eve" && response.1.is_empty()
        }
        _ => false,
    }
}

/// How a mutation ends by `execute_sync`, over this root node of the sample, after so many requests
/// for memory.
pub fn executed(
    alloc: Global,
    root_node: &RootNode<DefaultScalarValue>,
    spent: u32,
) -> Result<Ending, Unmade> {
    let mut records = sample_records(alloc)?;
    let variables = Variables::new(alloc);
    spend(alloc, spent)?;
    let answer = execute_sync(
        alloc,
        MUTATION,
        None,
        root_node,
        &SampleResolver,
        &variables,
        &mut records,
    );
    let renamed = is_left(&records, &CHANGES, 1);
    match answer {
        Ok(response) => Ok(judged(is_renamed(&response), renamed, Ending::Answered)),
        Err(GraphQLError::Memory) => {
            let left = renamed || is_left(&records, &CHANGES, 0);
            Ok(judged(true, left, Ending::Stopped))
        }
        Err(_) => Ok(Ending::OtherError),
    }
}

/// How a query ends by `plain_request`, over this root node of the sample, after so many requests
/// for memory.
pub fn told_plain(
    alloc: Global,
    root_node: &RootNode<DefaultScalarValue>,
    spent: u32,
) -> Result<Ending, Unmade> {
    let request = GraphQLRequest {
        query: String::from_str(alloc, QUERY)?,
        operation_name: None,
        variables: Variables::new(alloc),
    };
    spend(alloc, spent)?;
    match plain_request(alloc, &request, root_node, SELECTION_LIMIT) {
        Ok(text) => Ok(judged(text.as_str() == PLAIN_TEXT, true, Ending::Answered)),
        Err(PlainError::Memory) => Ok(Ending::Stopped),
        Err(_) => Ok(Ending::OtherError),
    }
}
