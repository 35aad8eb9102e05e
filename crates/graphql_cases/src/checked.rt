//! What the types of a schema's text accept.

ghost use Rattle.std.specs.Prelude.{◌≡◌};
ghost use Rattle.graphql_text.specs.Memory.{Told};
ghost use Rattle.graphql_scalars.specs.declared.check_error.CheckError.TheVariants.{Memory};
ghost use Rattle.graphql_cases.specs.Checked.{IsAccepted};

use graphql_scalars::CheckError;
use graphql_schema::scalar_checks::{boolean_check, id_check, int_check, string_check};
use graphql_values::{DefaultScalarValue, InputValue};
use std::alloc::Global;

/// Which values a scalar, an enum or an input object accepts.
#[derive(Clone, Copy)]
pub enum Checked {
    Int,
    String,
    Boolean,
    Id,

    /// Every value.
    Anything,
}

impl Checked {
    /// What is accepted under this word: the built-in scalars have their values, any other type
    /// all.
    pub fn of(word: &str) -> Checked {
        match word {
            "Int" => Checked::Int,
            "String" => Checked::String,
            "Boolean" => Checked::Boolean,
            "ID" => Checked::Id,
            _ => Checked::Anything,
        }
    }

    /// Whether the value is accepted. `CheckError::Message` says why it is not.
    pub fn check(
        self,
        alloc: Global,
        value: &InputValue<DefaultScalarValue>,
    ) -> Result<(), CheckError>
        ensures { Told (λ e. e ≡ Memory) result (IsAccepted self value.now) }
    {
        match self {
            Checked::Int => int_check(alloc, value),
            Checked::String => string_check(alloc, value),
            Checked::Boolean => boolean_check(alloc, value),
            Checked::Id => id_check(alloc, value),
            Checked::Anything => Ok(()),
        }
    }
}
