//! The parts of a type and of a field, in order, whatever kind of type it is.

ghost use Rattle.std.specs.Prelude.{◌≡◌};
ghost use Rattle.graphql_schema.specs.Types.{arguments_of, fields_of, input_fields_of};
ghost use Rattle.graphql_schema.specs.Types.{interfaces_of, union_members, values_of};

use super::{Argument, EnumValue, Field, MetaType};
use graphql_text::Text;

impl<S, C> MetaType<S, C> {
    /// The fields of an object or an interface (GraphQL October 2021, 3.6 Objects, 3.7 Interfaces).
    /// Other types have none.
    pub fn fields(&self) -> &[Field<S>]
        ensures { result.now ≡ fields_of self.now }
    {
        match self {
            MetaType::Object(meta) => meta.fields.as_slice(),
            MetaType::Interface(meta) => meta.fields.as_slice(),
            _ => &[],
        }
    }

    /// The names of the interfaces that an object or an interface lists (GraphQL October 2021, 3.6
    /// Objects, 3.7 Interfaces). Other types list none.
    pub fn interface_names(&self) -> &[Text]
        ensures { result.now ≡ interfaces_of self.now }
    {
        match self {
            MetaType::Object(meta) => meta.interface_names.as_slice(),
            MetaType::Interface(meta) => meta.interface_names.as_slice(),
            _ => &[],
        }
    }

    /// The names of the members of a union (GraphQL October 2021, 3.8 Unions). Other types have
    /// none.
    pub fn member_names(&self) -> &[Text]
        ensures { result.now ≡ union_members self.now }
    {
        match self {
            MetaType::Union(meta) => meta.of_type_names.as_slice(),
            _ => &[],
        }
    }

    /// The values that an enum declares (GraphQL October 2021, 3.9 Enums). Other types have none.
    pub fn enum_values(&self) -> &[EnumValue]
        ensures { result.now ≡ values_of self.now }
    {
        match self {
            MetaType::Enum(meta) => meta.values.as_slice(),
            _ => &[],
        }
    }

    /// The fields of an input object (GraphQL October 2021, 3.10 Input Objects). Other types have
    /// none.
    pub fn input_fields(&self) -> &[Argument<S>]
        ensures { result.now ≡ input_fields_of self.now }
    {
        match self {
            MetaType::InputObject(meta) => meta.input_fields.as_slice(),
            _ => &[],
        }
    }
}

impl<S> Field<S> {
    /// The arguments (GraphQL October 2021, 3.6.1 Field Arguments). A field that holds no list of
    /// them has none.
    pub fn arguments(&self) -> &[Argument<S>]
        ensures { result.now ≡ arguments_of self.now }
    {
        match &self.arguments {
            Some(arguments) => arguments.as_slice(),
            None => &[],
        }
    }
}
