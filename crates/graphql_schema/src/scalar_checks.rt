//! Which values the built-in scalars accept (GraphQL October 2021, 3.5 Scalars: input coercion).
//!
//! The default scalars hold no number with a fraction, so `Float` is not among them. A `TypeCheck`
//! is made of a closure that calls one of these functions, and says by a clause what its answers
//! tell.

ghost use Rattle.std.specs.Prelude.{◌≡◌, ◌≢◌, IfErr, codes};
ghost use Rattle.graphql_scalars.specs.declared.check_error.CheckError.TheVariants.{Memory};
ghost use Rattle.graphql_text.specs.Memory.{Told};
ghost use Rattle.graphql_schema.specs.ScalarChecks.{IsInt, IsString, IsBoolean, IsId, SaysWhy};

use crate::check::TypeCheck;
use crate::introspection_checks::IntrospectionChecks;
use graphql_scalars::{CheckError, Scalar, WrongInputScalarTypeError};
use graphql_text::TextRef;
use graphql_values::{DefaultScalarValue, InputValue, no_scalar};
use std::alloc::Global;

/// The checks of the built-in scalars, made of closures that call the functions of this module
/// (GraphQL October 2021, 3.5 Scalars), and those of the enums of introspection.
#[derive(Drop)]
pub struct StandardChecks {
    /// Which values `Int` accepts.
    pub int: TypeCheck,

    /// Which values `String` accepts.
    pub string: TypeCheck,

    /// Which values `Boolean` accepts.
    pub boolean: TypeCheck,

    /// Which values `ID` accepts.
    pub id: TypeCheck,

    /// Which values the enums of introspection accept.
    pub introspection: IntrospectionChecks<TypeCheck>,
}

/// Why a value is none of the type of this name, or want of memory.
fn refusal(alloc: Global, type_name: &str, value: &InputValue<DefaultScalarValue>) -> CheckError
    ensures { result ≢ Memory → SaysWhy type_name.now value.now result }
{
    if let InputValue::Scalar(scalar) = value {
        let error = WrongInputScalarTypeError {
            type_name: TextRef::new(type_name),
            input: Scalar::from(scalar),
        };
        return error.to_check_error(alloc);
    }
    no_scalar(alloc, value)
}

/// Whether the value is one of the type `Int`: an integer (3.5.1 Int).
///
/// `CheckError::Message` says why it is none. `CheckError::Memory` is want of memory, which only a
/// refusal takes, and tells nothing of the value.
pub fn int_check(alloc: Global, value: &InputValue<DefaultScalarValue>) -> Result<(), CheckError>
    ensures tells { Told (λ e. e ≡ Memory) result (IsInt value.now) }
    ensures says_why { IfErr result (λ e. e ≢ Memory → SaysWhy (codes "Int") value.now e) }
{
    match value {
        InputValue::Scalar(DefaultScalarValue::Int(_)) => Ok(()),
        _ => Err(refusal(alloc, "Int", value)),
    }
}

/// Whether the value is one of the type `String`: a text (3.5.3 String).
///
/// `CheckError::Message` says why it is none. `CheckError::Memory` is want of memory, which only a
/// refusal takes, and tells nothing of the value.
pub fn string_check(alloc: Global, value: &InputValue<DefaultScalarValue>) -> Result<(), CheckError>
    ensures tells { Told (λ e. e ≡ Memory) result (IsString value.now) }
    ensures says_why { IfErr result (λ e. e ≢ Memory → SaysWhy (codes "String") value.now e) }
{
    match value {
        InputValue::Scalar(DefaultScalarValue::String(_)) => Ok(()),
        _ => Err(refusal(alloc, "String", value)),
    }
}

/// Whether the value is one of the type `Boolean`: `true` or `false` (3.5.4 Boolean).
///
/// `CheckError::Message` says why it is none. `CheckError::Memory` is want of memory, which only a
/// refusal takes, and tells nothing of the value.
pub fn boolean_check(
    alloc: Global,
    value: &InputValue<DefaultScalarValue>,
) -> Result<(), CheckError>
    ensures tells { Told (λ e. e ≡ Memory) result (IsBoolean value.now) }
    ensures says_why { IfErr result (λ e. e ≢ Memory → SaysWhy (codes "Boolean") value.now e) }
{
    match value {
        InputValue::Scalar(DefaultScalarValue::Boolean(_)) => Ok(()),
        _ => Err(refusal(alloc, "Boolean", value)),
    }
}

/// Whether the value is one of the type `ID`: a text or an integer (3.5.5 ID).
///
/// `CheckError::Message` says why it is none. `CheckError::Memory` is want of memory, which only a
/// refusal takes, and tells nothing of the value.
pub fn id_check(alloc: Global, value: &InputValue<DefaultScalarValue>) -> Result<(), CheckError>
    ensures tells { Told (λ e. e ≡ Memory) result (IsId value.now) }
    ensures says_why { IfErr result
        (λ e. e ≢ Memory → SaysWhy (codes "String` or `Int") value.now e) }
{
    match value {
        InputValue::Scalar(DefaultScalarValue::String(_) | DefaultScalarValue::Int(_)) => Ok(()),
        _ => Err(refusal(alloc, "String` or `Int", value)),
    }
}
