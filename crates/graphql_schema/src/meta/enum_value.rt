//! The values that an enum declares.

ghost use Rattle.std.specs.Prelude.{◌≡◌, Some, None};
ghost use Rattle.graphql_schema.specs.declared.meta.deprecation.DeprecationStatus.TheVariants as status;

use super::DeprecationStatus;
use graphql_text::Text;
use std::alloc::AllocError;

/// A value that an enum declares (GraphQL October 2021, 3.9 Enums).
#[derive(Debug, Drop, PartialEq, Eq)]
pub struct EnumValue {
    /// The name.
    pub name: Text,

    /// What it stands for, in words.
    pub description: Option<Text>,

    /// Whether it is deprecated.
    pub deprecation_status: DeprecationStatus,
}

impl EnumValue {
    /// The value of this name.
    pub fn new(name: Text) -> EnumValue
        ensures { result
            ≡ record { name = name; description = None; deprecation_status = status.Current } }
    {
        EnumValue {
            name,
            description: None,
            deprecation_status: DeprecationStatus::Current,
        }
    }

    /// The same with this description.
    pub fn description(mut self, description: Text) -> EnumValue
        ensures { result ≡ record self { description = Some description } }
    {
        self.description = Some(description);
        self
    }

    /// The same, deprecated, for this reason where one is given.
    pub fn deprecated(mut self, reason: Option<Text>) -> EnumValue
        ensures { result ≡ record self { deprecation_status = status.Deprecated reason } }
    {
        self.deprecation_status = DeprecationStatus::Deprecated(reason);
        self
    }
}

impl Clone for EnumValue {
    ghost is_clone = { λ value copy. copy ≡ value };

    /// The same value once more. An error is want of memory.
    fn clone(&self) -> Result<EnumValue, AllocError> {
        let name = self.name.clone()?;
        let description = self.description.clone()?;
        let deprecation_status = self.deprecation_status.clone()?;
        Ok(EnumValue {
            name,
            description,
            deprecation_status,
        })
    }
}
