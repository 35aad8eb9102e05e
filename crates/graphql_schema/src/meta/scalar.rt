//! The metadata of scalars.

ghost use Rattle.std.specs.Prelude.{◌≡◌, Some, None};
ghost use Rattle.graphql_schema.specs.declared.meta.MetaType.TheVariants as meta;

use super::MetaType;
use graphql_text::Text;

/// What a schema says of a scalar (GraphQL October 2021, 3.5 Scalars).
#[derive(Drop)]
pub struct ScalarMeta<C> {
    /// The name.
    pub name: Text,

    /// What it is for, in words.
    pub description: Option<Text>,

    /// Where a custom scalar's values are specified (3.5 Scalars, Custom Scalars).
    pub specified_by_url: Option<Text>,

    /// Which values it accepts.
    pub check: C,
}

impl<C> ScalarMeta<C> {
    /// The scalar of this name that accepts what `check` accepts.
    pub fn new(name: Text, check: C) -> ScalarMeta<C>
        ensures { result
            ≡ record { name = name; description = None; specified_by_url = None; check = check } }
    {
        ScalarMeta {
            name,
            description: None,
            specified_by_url: None,
            check,
        }
    }

    /// The same with this description.
    pub fn description(mut self, description: Text) -> ScalarMeta<C>
        ensures { result ≡ record self { description = Some description } }
    {
        self.description = Some(description);
        self
    }

    /// The same with its values specified at this URL.
    pub fn specified_by_url(mut self, url: Text) -> ScalarMeta<C>
        ensures { result ≡ record self { specified_by_url = Some url } }
    {
        self.specified_by_url = Some(url);
        self
    }

    /// It as the metadata of a type.
    pub fn into_meta<S>(self) -> MetaType<S, C>
        ensures { result ≡ meta.Scalar self }
    {
        MetaType::Scalar(self)
    }
}
