//! Why a value does not conform to a type.

ghost use Rattle.std.specs.Prelude.{◌≡◌};
ghost use Rattle.graphql_scalars.specs.declared.check_error.CheckError.TheVariants as check;
ghost use Rattle.graphql_literal_checks.specs.Judged.{IsMemory};

use crate::open_values::{Open, behind_fields};
use graphql_scalars::CheckError;
use graphql_text::Text;
use std::alloc::{AllocError, Global};

/// Why a value does not conform to a type, or want of memory.
#[derive(Drop)]
pub(crate) enum Misfit {
    /// What is wrong with the first part that does not conform.
    Reason(Text),

    /// Memory ran out. It says nothing about the value.
    Memory,
}

impl Misfit {
    /// What is wrong with the whole value, or want of memory.
    pub(crate) fn told(text: Result<String, AllocError>) -> Misfit {
        match text {
            Ok(text) => Misfit::Reason(Text::from_string(text)),
            Err(_) => Misfit::Memory,
        }
    }

    /// What a check says of the whole value.
    pub(crate) fn of_check(error: CheckError) -> Misfit
        ensures { error ≡ check.Memory → IsMemory result }
    {
        match error {
            CheckError::Message(text) => Misfit::Reason(text),
            CheckError::Memory => Misfit::Memory,
        }
    }

    /// The same of the value in which these are open: behind the names of the fields that are being
    /// judged, the outermost first. Takes time in proportion to what is open.
    pub(crate) fn within<S, C>(self, alloc: Global, opened: &[Open<'_, S, C>]) -> Misfit
        ensures { IsMemory self → IsMemory result }
    {
        match self {
            Misfit::Reason(reason) => match behind_fields(alloc, opened, &reason) {
                Ok(text) => Misfit::Reason(text),
                Err(_) => Misfit::Memory,
            },
            Misfit::Memory => Misfit::Memory,
        }
    }
}

impl From<AllocError> for Misfit {
    ghost from_gives = { λ _ misfit. IsMemory misfit };

    fn from(_error: AllocError) -> Misfit {
        Misfit::Memory
    }
}
