ghost use Rattle.std.specs.Prelude.{◌≡◌, [], Some, None, IfSome, codes};
ghost use Rattle.serde_json.specs.Find.{get};
ghost use Rattle.serde_json.specs.Read.{read};
ghost use Rattle.graphql_scalars.specs.DefaultScalar.{scalar_answer};
ghost use Rattle.graphql_scalars.specs.declared.default_scalar.DefaultScalarValue.TheVariants as scalar;
ghost use Rattle.graphql_output_values.specs.declared.value.Value.TheVariants as value;
ghost use Rattle.graphql_values.specs.Variables.{names_of_variables};
ghost use Rattle.graphql_json.specs.Json.{json};
ghost use Rattle.graphql_json.specs.Laws.{data_of_value};
ghost use Rattle.graphql_lines.specs.Variables.{input_of};
ghost use Rattle.graphql_service_tests.specs.Samples as spec;

use graphql_file_service::service::{request_from_line, value_to_json};
use graphql_json::laws as json_laws;
use graphql_lines::{GraphQLRequest, laws};
use graphql_output_values::{DefaultScalarValue, Key, Object, Value};
use graphql_text::{Items, Text};
use graphql_values::InputValue;
use std::alloc::{AllocError, Global};
use std::test::Fail;

/// Whether a request asks `{ a }` of the operation `Q`, with the least integer as `x`.
fn is_least_of_q(request: &GraphQLRequest<DefaultScalarValue>) -> bool {
    let is_q = matches!(&request.operation_name, Some(name) if name.as_str() == "Q");
    let is_least = matches!(
        request.variables.get("x"),
        Some(InputValue::Scalar(DefaultScalarValue::Int(-2147483648)))
    );
    request.query.as_str() == "{ a }" && is_q && request.variables.len() == 1 && is_least
}

#[test]
fn requests_hold_what_lines_ask(rt: HostRuntime) {
    let line = r#"{"query":"{ a }","operationName":"Q","variables":{"x":-2147483648}}"#;
    let is_held = match request_from_line(rt.alloc(), line.as_bytes()) {
        Ok(request) => is_least_of_q(&request),
        Err(_) => false,
    };
    assert!(rt; is_held);
}

/// Whether a request asks the empty text, without name and variables.
fn is_bare(request: &GraphQLRequest<DefaultScalarValue>) -> bool {
    request.query.is_empty() && request.operation_name.is_none() && request.variables.is_empty()
}

#[test]
fn null_is_no_name_and_no_variables(rt: HostRuntime) {
    let line = r#"{"query":"","operationName":null,"variables":null}"#;
    let is_read_so = match request_from_line(rt.alloc(), line.as_bytes()) {
        Ok(request) => is_bare(&request),
        Err(_) => false,
    };
    assert!(rt; is_read_so);
}

/// Puts a value under a key of an object.
fn add(
    alloc: Global,
    object: &mut Object<DefaultScalarValue>,
    key: &str,
    value: Value<DefaultScalarValue>,
) -> Result<(), AllocError> {
    object.add_field(Key::from_str(alloc, key)?, value)?;
    Ok(())
}

/// The list of null, true and -7.
fn list(alloc: Global) -> Result<Value<DefaultScalarValue>, AllocError> {
    let items = vec![in alloc; Value::Null, Value::scalar(true), Value::scalar(-7)]?;
    Ok(Value::list(Items::from_vec(items)))
}

/// Puts an integer, a text and a list into an object, whose keys do not ascend.
fn fill(alloc: Global, object: &mut Object<DefaultScalarValue>) -> Result<(), AllocError> {
    let text = Text::from_str(alloc, "\"\\\u{8}\u{c}\n\r\t\u{1}\u{1f}/\u{7f}é😀")?;
    add(alloc, object, "b", Value::scalar(1))?;
    add(alloc, object, "a", Value::scalar(text))?;
    add(alloc, object, "c", list(alloc)?)
}

/// The JSON of that object, behind what stood there.
fn written(alloc: Global) -> Result<Vec<u8>, AllocError> {
    let mut object = Object::with_capacity(alloc, 3)?;
    fill(alloc, &mut object)?;
    let mut out = Vec::from_slice(alloc, b"> ")?;
    value_to_json(&mut out, &Value::object(object))?;
    Ok(out)
}

#[test]
fn values_are_written_in_their_order(rt: HostRuntime) -> Result<(), Fail> {
    let want =
        "> {\"b\":1,\"a\":\"\\\"\\\\\\b\\f\\n\\r\\t\\u0001\\u001f/\u{7f}é😀\",\"c\":[null,true,-7]}";
    let out = written(rt.alloc())?;
    assert_eq!(rt; out.as_slice(), want.as_bytes());
    Ok(())
}

/// `null` within this many lists.
fn nested(alloc: Global, depth: usize) -> Result<Value<DefaultScalarValue>, AllocError> {
    let mut value: Value<DefaultScalarValue> = Value::null();
    for _ in 0..depth {
        let mut items = Items::with_capacity(alloc, 1)?;
        items.push(value)?;
        value = Value::list(items);
    }
    Ok(value)
}

#[test]
fn deep_values_are_written(rt: HostRuntime) -> Result<(), Fail> {
    let alloc = rt.alloc();
    let mut out = Vec::new(alloc);
    value_to_json(&mut out, &nested(alloc, 100_000)?)?;
    assert_eq!(rt; out.len(), 100_000 + 4 + 100_000);
    Ok(())
}

/// What is written of `{"c":[null,true,-7]}` is read as that, and the list stands under `c`.
fn list_is_read_back()
    ensures read { read (json scalar_answer (value.Object spec.sample)) ≡ Some spec.sample_data }
    ensures under { get (codes "c") (data_of_value scalar_answer (value.Object spec.sample))
        ≡ Some spec.list_data }
{
    json_laws::json_reads_back::<DefaultScalarValue>();
    json_laws::keys_keep_values::<DefaultScalarValue>();
}

/// No input value stands for `["$x",2147483648]`, and in the one for `["$x"]` stands no variable.
fn lists_are_judged()
    ensures wide { input_of scalar.Boolean scalar.Int scalar.String spec.too_wide ≡ None }
    ensures constant { IfSome (input_of scalar.Boolean scalar.Int scalar.String spec.text_data)
        (λ v. names_of_variables v ≡ []) }
{
    laws::bad_numbers_are_refused::<DefaultScalarValue>();
    laws::json_holds_no_variable::<DefaultScalarValue>();
}

#[test]
fn laws_hold_of_the_default_scalars() {
    list_is_read_back();
    lists_are_judged();
}
