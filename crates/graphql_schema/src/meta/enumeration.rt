//! The metadata of enums.

ghost use Rattle.std.specs.Prelude.{◌≡◌, Some, None};
ghost use Rattle.graphql_schema.specs.declared.meta.MetaType.TheVariants as meta;

use super::{EnumValue, MetaType};
use graphql_text::Text;
use graphql_values::NamedItems;

/// What a schema says of an enum (GraphQL October 2021, 3.9 Enums).
#[derive(Drop)]
pub struct EnumMeta<C> {
    /// The name.
    pub name: Text,

    /// What it is for, in words.
    pub description: Option<Text>,

    /// The values that it declares, in order, each found by its name.
    pub values: NamedItems<EnumValue>,

    /// Which of the values that are given to it are taken.
    pub check: C,
}

impl<C> EnumMeta<C> {
    /// The enum of this name and these values that accepts what `check` accepts.
    pub fn new(name: Text, values: NamedItems<EnumValue>, check: C) -> EnumMeta<C>
        ensures { result
            ≡ record { name = name; description = None; values = values; check = check } }
    {
        EnumMeta {
            name,
            description: None,
            values,
            check,
        }
    }

    /// The same with this description.
    pub fn description(mut self, description: Text) -> EnumMeta<C>
        ensures { result ≡ record self { description = Some description } }
    {
        self.description = Some(description);
        self
    }

    /// It as the metadata of a type.
    pub fn into_meta<S>(self) -> MetaType<S, C>
        ensures { result ≡ meta.Enum self }
    {
        MetaType::Enum(self)
    }
}
