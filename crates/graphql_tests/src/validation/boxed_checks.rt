ghost use Rattle.std.specs.Prelude.{◌≡◌};
ghost use Rattle.graphql_text.specs.Memory.{Told};
ghost use Rattle.graphql_scalars.specs.declared.check_error.CheckError.TheVariants.{Memory};
ghost use Rattle.graphql_schema.specs.ScalarChecks.{IsString, IsBoolean};
ghost use Rattle.graphql_schema.specs.Checked.{check_named, SaysOf};

use crate::validation::examples::{alone, object, plain, text, with};
use graphql_scalars::CheckError;
use graphql_validation::scalar_checks::{boolean_check, string_check};
use graphql_validation::{Check, MetaType, ScalarMeta, SchemaType, TypeCheck};
use graphql_values::{DefaultScalarValue, InputValue};
use std::alloc::Global;
use std::process::Abort;
use std::test::Fail;

type Meta = MetaType<DefaultScalarValue>;

fn scalar(rt: &impl Abort, alloc: Global, name: &str, check: TypeCheck) -> Meta {
    ScalarMeta::new(text(rt, alloc, name), check).into_meta()
}

fn described(rt: &impl Abort, alloc: Global, name: &str) -> Meta {
    object(rt, alloc, name, plain("description", "String")).into_meta()
}

/// A schema of what every schema has, whose scalars have these checks.
fn schema(
    rt: &impl Abort,
    alloc: Global,
    string: TypeCheck,
    boolean: TypeCheck,
) -> SchemaType<DefaultScalarValue> {
    let types = alone(rt, alloc, scalar(rt, alloc, "String", string));
    let types = with(rt, types, scalar(rt, alloc, "Boolean", boolean));
    let types = with(rt, types, described(rt, alloc, "__Schema"));
    let types = with(rt, types, described(rt, alloc, "__Type"));
    let types = with(rt, types, described(rt, alloc, "Query"));
    SchemaType::new(alloc, types, "Query", None, None).expect(rt, "a schema")
}

/// What the check of the type says of the value: what the boxed function accepts.
fn says_of(
    schema: &SchemaType<DefaultScalarValue>,
    type_name: &str,
    value: &InputValue<DefaultScalarValue>,
) -> Option<Result<(), CheckError>>
    ensures { SaysOf ⟦<TypeCheck as Check<DefaultScalarValue>>⟧.accepts
        (check_named schema.now.types type_name.now) value.now result }
{
    schema.check_value(type_name, value)
}

/// Whether `true` is accepted where it should be, and refused where it should be.
fn answer(schema: &SchemaType<DefaultScalarValue>) -> bool {
    let value = InputValue::Scalar(DefaultScalarValue::Boolean(true));
    matches!(says_of(schema, "Boolean", &value), Some(Ok(())))
        && matches!(
            says_of(schema, "String", &value),
            Some(Err(CheckError::Message(_)))
        )
        && says_of(schema, "Query", &value).is_none()
        && says_of(schema, "Nowhere", &value).is_none()
}

#[test]
fn a_schema_says_what_its_types_accept(rt: HostRuntime) -> Result<(), Fail> {
    let alloc = rt.alloc();
    let string = TypeCheck::new(Box::new(
        alloc,
        move |value: &InputValue<DefaultScalarValue>|
            ensures { Told (λ e. e ≡ Memory) result (IsString value.now) }
        { string_check(alloc, value) },
    )?);
    let boolean = TypeCheck::new(Box::new(
        alloc,
        move |value: &InputValue<DefaultScalarValue>|
            ensures { Told (λ e. e ≡ Memory) result (IsBoolean value.now) }
        { boolean_check(alloc, value) },
    )?);
    let told = answer(&schema(&rt, alloc, string, boolean));
    assert!(rt; told);
    Ok(())
}
