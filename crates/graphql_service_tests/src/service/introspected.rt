//! What the introspection query is answered over the sample.

use graphql_file_service::service::{IntrospectionFormat, introspect};
use graphql_sample::{SampleResolver, sample_records};
use graphql_schema::{RootNode, SchemaType};
use graphql_values::DefaultScalarValue;
use std::alloc::{AllocError, Global};
use std::process::Abort;

/// The answer as text, whose fields all have a value.
fn told(
    rt: &impl Abort,
    alloc: Global,
    root: &RootNode<DefaultScalarValue>,
    format: IntrospectionFormat,
) -> Result<String, AllocError> {
    let mut records = sample_records(alloc)?;
    let answer = introspect(alloc, root, &SampleResolver, &mut records, format);
    let (value, errors) = answer.expect(rt, "an answer");
    assert!(rt; errors.is_empty());
    format!(in alloc; "{value}")
}

/// Asserts that the schema is told, beginning with this, with descriptions where they are asked
/// for.
pub fn tells_of_itself(rt: &impl Abort, alloc: Global, schema: SchemaType<DefaultScalarValue>) {
    let root = RootNode::new(schema);
    let all = told(rt, alloc, &root, IntrospectionFormat::All).expect(rt, "memory");
    let front = r#"{"__schema": {"description": null, "queryType": {"name": "Query"}, "#;
    assert!(rt; all.starts_with(front));
    let others = told(rt, alloc, &root, IntrospectionFormat::WithoutDescriptions);
    let others = others.expect(rt, "memory");
    assert!(rt; others.starts_with(r#"{"__schema": {"queryType": {"name": "Query"}, "#));
    assert!(rt; others.split_once("\"description\": ").is_none());
}
