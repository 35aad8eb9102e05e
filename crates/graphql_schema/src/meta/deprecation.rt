//! Whether something is deprecated.

ghost use Rattle.std.specs.Prelude.{◌≡◌, ◌↔◌, ◌≢◌, IsTrue};
ghost use Rattle.std.specs.Option.{option_map};
ghost use Rattle.graphql_schema.specs.Deprecation.{reason_of};
ghost use Rattle.graphql_schema.specs.declared.meta.deprecation.DeprecationStatus.TheVariants as status;

use graphql_text::Text;
use std::alloc::AllocError;

/// Whether a field or an enum value is deprecated (GraphQL October 2021, 3.13.3 @deprecated).
#[derive(Debug, Drop, PartialEq, Eq)]
pub enum DeprecationStatus {
    /// It is not.
    Current,

    /// It is, for this reason where one is given.
    Deprecated(Option<Text>),
}

impl DeprecationStatus {
    /// Whether it is deprecated, with or without a reason.
    pub fn is_deprecated(&self) -> bool
        ensures { IsTrue result ↔ (self.now ≢ status.Current) }
    {
        match self {
            DeprecationStatus::Current => false,
            DeprecationStatus::Deprecated(_) => true,
        }
    }

    /// The reason for which it is deprecated, if it is and one is given.
    pub fn reason(&self) -> Option<&str>
        ensures { option_map (λ reason. reason.now) result ≡ reason_of self.now }
    {
        match self {
            DeprecationStatus::Deprecated(Some(reason)) => Some(reason.as_str()),
            _ => None,
        }
    }
}

impl Clone for DeprecationStatus {
    ghost is_clone = { λ deprecation copy. copy ≡ deprecation };

    /// The same once more. An error is want of memory.
    fn clone(&self) -> Result<DeprecationStatus, AllocError> {
        match self {
            DeprecationStatus::Current => Ok(DeprecationStatus::Current),
            DeprecationStatus::Deprecated(reason) => {
                Ok(DeprecationStatus::Deprecated(reason.clone()?))
            }
        }
    }
}
