//! What metadata tell of a type, and its fields by name.

ghost use Rattle.std.specs.Prelude.{◌≡◌, find};
ghost use Rattle.std.specs.Option.{option_map, option_copied};
ghost use Rattle.std.specs.Str.{bytes_eq};
ghost use Rattle.graphql_schema.specs.Types.{name_of, description_of, url_of, fields_of};
ghost use Rattle.graphql_schema.specs.Types.{input_fields_of, check_of};

use super::{Argument, Field, MetaType};
use graphql_text::Text;

impl<S, C> MetaType<S, C> {
    /// The name (GraphQL October 2021, 3.4 Types). Lists, types with `null` and placeholders have
    /// none.
    pub fn name(&self) -> Option<&str>
        ensures { option_map (λ name. name.now) result ≡ name_of self.now }
    {
        match self {
            MetaType::Scalar(meta) => Some(meta.name.as_str()),
            MetaType::Object(meta) => Some(meta.name.as_str()),
            MetaType::Enum(meta) => Some(meta.name.as_str()),
            MetaType::Interface(meta) => Some(meta.name.as_str()),
            MetaType::Union(meta) => Some(meta.name.as_str()),
            MetaType::InputObject(meta) => Some(meta.name.as_str()),
            _ => None,
        }
    }

    /// What the type is for, in words, where the schema says it (GraphQL October 2021, 3.2
    /// Descriptions). Lists, types with `null` and placeholders have no words of their own.
    pub fn description(&self) -> Option<&str>
        ensures { option_map (λ text. text.now) result ≡ description_of self.now }
    {
        match self {
            MetaType::Scalar(meta) => text_of(&meta.description),
            MetaType::Object(meta) => text_of(&meta.description),
            MetaType::Enum(meta) => text_of(&meta.description),
            MetaType::Interface(meta) => text_of(&meta.description),
            MetaType::Union(meta) => text_of(&meta.description),
            MetaType::InputObject(meta) => text_of(&meta.description),
            _ => None,
        }
    }

    /// Where a scalar's values are specified, where the schema says it (GraphQL October 2021, 3.5
    /// Scalars, Custom Scalars). All other types have no such place.
    pub fn specified_by_url(&self) -> Option<&str>
        ensures { option_map (λ url. url.now) result ≡ url_of self.now }
    {
        match self {
            MetaType::Scalar(meta) => text_of(&meta.specified_by_url),
            _ => None,
        }
    }

    /// The field of this name of an object or an interface (GraphQL October 2021, 3.6 Objects, 3.7
    /// Interfaces), the first where there are several. `None` where there is none; other types have
    /// no fields. Among many it is found by binary search.
    pub fn field_by_name(&self, name: &str) -> Option<&Field<S>>
        ensures { option_copied result
            ≡ find (λ field. bytes_eq field.name name.now) (fields_of self.now) }
    {
        match self {
            MetaType::Object(meta) => meta.fields.get(name),
            MetaType::Interface(meta) => meta.fields.get(name),
            _ => None,
        }
    }

    /// The field of this name of an input object (GraphQL October 2021, 3.10 Input Objects), the
    /// first where there are several. `None` where there is none; other types have no input fields.
    pub fn input_field_by_name(&self, name: &str) -> Option<&Argument<S>>
        ensures { option_copied result
            ≡ find (λ field. bytes_eq field.name name.now) (input_fields_of self.now) }
    {
        match self {
            MetaType::InputObject(meta) => meta.input_fields.get(name),
            _ => None,
        }
    }

    /// The check of a scalar, an enum or an input object: which values it accepts. All other types
    /// have none.
    pub fn input_value_parse_fn(&self) -> Option<&C>
        ensures { option_copied result ≡ check_of self.now }
    {
        match self {
            MetaType::Scalar(meta) => Some(&meta.check),
            MetaType::Enum(meta) => Some(&meta.check),
            MetaType::InputObject(meta) => Some(&meta.check),
            _ => None,
        }
    }
}

/// The text, lent, if there is one.
fn text_of(text: &Option<Text>) -> Option<&str>
    ensures { option_map (λ t. t.now) result ≡ text.now }
{
    match text {
        Some(held) => Some(held.as_str()),
        None => None,
    }
}
