//! Whether the `Boolean` of a schema takes `true`.

ghost use Rattle.std.specs.Prelude.{◌↔◌, IfOk, IsTrue};
ghost use Rattle.graphql_plain_validity.specs.Schemas.{TakesTrue};
ghost use Rattle.graphql_schema.specs.Declarations.{declarations_of};

use graphql_scalars::CheckError;
use graphql_schema::{Check, MetaType, SchemaScalar, SchemaType};
use graphql_values::InputValue;
use std::alloc::AllocError;

/// Whether the schema's `Boolean` is a scalar that takes `true`, as its check tells: then the plain
/// text of a request may say `@skip(if: true)` (GraphQL October 2021, 3.5.4 Boolean, 3.13.1 @skip).
///
/// An error is want of memory, and tells nothing of it.
pub fn boolean_takes_true<S: SchemaScalar + Drop>(
    schema: &SchemaType<S>,
) -> Result<bool, AllocError>
    ensures { IfOk result
        (λ takes. IsTrue takes ↔ TakesTrue S.Check.accepts (declarations_of schema.now) S.of_bool) }
{
    let Some(MetaType::Scalar(boolean)) = schema.concrete_type_by_name("Boolean") else {
        return Ok(false);
    };
    match boolean.check.check(&InputValue::Scalar(S::from_bool(true))) {
        Ok(()) => Ok(true),
        Err(CheckError::Message(_)) => Ok(false),
        Err(CheckError::Memory) => Err(AllocError),
    }
}
