//! Values as booleans, integers and texts.

ghost use Rattle.std.specs.Prelude.{◌≡◌, ◌≢◌, codes, string_bytes, IfSome};
ghost use Rattle.std.proofs.Common.{rules};
ghost use Rattle.graphql_scalars.specs.ScalarAnswers.{as_int, as_bool, as_text};
ghost use Rattle.graphql_scalars.specs.declared.check_error.CheckError.TheVariants.{Message};
ghost use Rattle.graphql_scalars.specs.declared.check_error.CheckError.TheVariants.{Memory};
ghost use Rattle.graphql_values.specs.ConversionLaws.{answers_apart};
ghost use Rattle.graphql_values.specs.ConversionsOfScalars as spec;
ghost use Rattle.graphql_values.specs.declared.input_value.InputValue.TheVariants as value;

use super::FromInputValue;
use crate::input_value::InputValue;
use graphql_scalars::{CheckError, FromScalarValue, ScalarValue};
use graphql_text::Text;
use std::alloc::Global;
use std::fmt::Display;

/// The refusal of a value that is no scalar, by its text, or want of memory.
pub fn no_scalar<D: Display>(alloc: Global, found: &D) -> CheckError
    ensures { IfSome (D.output found.now)
        (λ text. result ≢ Memory → result ≡ Message (spec.no_scalar text)) }
{
    match format!(in alloc; "Expected GraphQL scalar, found: {found}") {
        Ok(text) => CheckError::Message(Text::from_string(text)),
        Err(_) => CheckError::Memory,
    }
}

/// The boolean that a scalar answers (3.5.4 Boolean). Takes memory only for the refusal.
impl<S: ScalarValue> FromInputValue<S> for bool {
    type Error = CheckError;

    ghost means = { spec.MeansAnswer S.answer as_bool };

    ghost refuses = { spec.RefusesAnswer (codes "Boolean") S.answer as_bool };

    ghost is_memory = { λ e. e ≡ Memory };

    ghost means_absent = { λ truth. ⊥ };

    ghost refuses_absent = { λ e. e ≡ Message (spec.no_scalar (codes "null")) };

    ghost apart = { answers_apart (codes "Boolean") S.answer as_bool };

    ghost absent_apart = { λ truth e impossible is. impossible };

    ghost memory = { λ _ e is. is };

    fn from_input_value(alloc: Global, value: &InputValue<S>) -> Result<bool, CheckError> {
        match value {
            InputValue::Scalar(scalar) => bool::from_scalar_value(alloc, scalar),
            other => Err(no_scalar(alloc, other)),
        }
    }

    fn from_implicit_null(alloc: Global) -> Result<bool, CheckError> {
        Err(no_scalar(alloc, &"null"))
    }
}

/// The integer that a scalar answers (3.5.1 Int). Takes memory only for the refusal.
impl<S: ScalarValue> FromInputValue<S> for i32 {
    type Error = CheckError;

    ghost means = { spec.MeansAnswer S.answer as_int };

    ghost refuses = { spec.RefusesAnswer (codes "Int") S.answer as_int };

    ghost is_memory = { λ e. e ≡ Memory };

    ghost means_absent = { λ number. ⊥ };

    ghost refuses_absent = { λ e. e ≡ Message (spec.no_scalar (codes "null")) };

    ghost apart = { answers_apart (codes "Int") S.answer as_int };

    ghost absent_apart = { λ number e impossible is. impossible };

    ghost memory = { λ _ e is. is };

    fn from_input_value(alloc: Global, value: &InputValue<S>) -> Result<i32, CheckError> {
        match value {
            InputValue::Scalar(scalar) => i32::from_scalar_value(alloc, scalar),
            other => Err(no_scalar(alloc, other)),
        }
    }

    fn from_implicit_null(alloc: Global) -> Result<i32, CheckError> {
        Err(no_scalar(alloc, &"null"))
    }
}

/// The text that a scalar answers, as a text of its own (3.5.3 String).
impl<S: ScalarValue> FromInputValue<S> for String {
    type Error = CheckError;

    ghost means = { λ v text. spec.MeansAnswer S.answer as_text v (string_bytes text) };

    ghost refuses = { spec.RefusesAnswer (codes "String") S.answer as_text };

    ghost is_memory = { λ e. e ≡ Memory };

    ghost means_absent = { λ text. ⊥ };

    ghost refuses_absent = { λ e. e ≡ Message (spec.no_scalar (codes "null")) };

    ghost apart = { λ v text.
        answers_apart (codes "String") S.answer as_text v (string_bytes text) };

    ghost absent_apart = { λ text e impossible is. impossible };

    ghost memory = { λ _ e is. is };

    fn from_input_value(alloc: Global, value: &InputValue<S>) -> Result<String, CheckError> {
        match value {
            InputValue::Scalar(scalar) => String::from_scalar_value(alloc, scalar),
            other => Err(no_scalar(alloc, other)),
        }
    }

    fn from_implicit_null(alloc: Global) -> Result<String, CheckError> {
        Err(no_scalar(alloc, &"null"))
    }
}
