//! The metadata of input objects.

ghost use Rattle.std.specs.Prelude.{◌≡◌, Some, None, true, false};
ghost use Rattle.graphql_schema.specs.declared.meta.MetaType.TheVariants as meta;

use super::{Argument, MetaType};
use crate::check::SchemaScalar;
use graphql_text::Text;
use graphql_values::NamedItems;

/// What a schema says of an input object (GraphQL October 2021, 3.10 Input Objects).
#[derive(Drop)]
pub struct InputObjectMeta<S, C = <S as SchemaScalar>::Check> {
    /// The name.
    pub name: Text,

    /// What it is for, in words.
    pub description: Option<Text>,

    /// The fields, as they were declared, each found by its name.
    pub input_fields: NamedItems<Argument<S>>,

    /// Which values it accepts.
    pub check: C,

    /// Whether exactly one field is given of each of its values.
    pub exactly_one: bool,
}

impl<S, C> InputObjectMeta<S, C> {
    /// The input object of this name and these fields that accepts what `check` accepts.
    pub fn new(name: Text, input_fields: NamedItems<Argument<S>>, check: C) -> InputObjectMeta<S, C>
        ensures { result ≡ record {
          name = name;
          description = None;
          input_fields = input_fields;
          check = check;
          exactly_one = false;
        } }
    {
        InputObjectMeta {
            name,
            description: None,
            input_fields,
            check,
            exactly_one: false,
        }
    }

    /// The same, of which exactly one field is given.
    pub fn one_of(mut self) -> InputObjectMeta<S, C>
        ensures { result ≡ record self { exactly_one = true } }
    {
        self.exactly_one = true;
        self
    }

    /// Whether exactly one field is given.
    pub fn is_one_of(&self) -> bool
        ensures { result ≡ self.now.exactly_one }
    {
        self.exactly_one
    }

    /// The same with this description.
    pub fn description(mut self, description: Text) -> InputObjectMeta<S, C>
        ensures { result ≡ record self { description = Some description } }
    {
        self.description = Some(description);
        self
    }

    /// It as the metadata of a type.
    pub fn into_meta(self) -> MetaType<S, C>
        ensures { result ≡ meta.InputObject self }
    {
        MetaType::InputObject(self)
    }
}
