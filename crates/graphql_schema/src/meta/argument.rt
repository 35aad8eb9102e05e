//! The arguments of fields, and the fields of input objects.

ghost use Rattle.std.specs.Prelude.{◌≡◌, Some, None};
ghost use Rattle.graphql_schema.specs.Names.{is_reserved};

use super::names::is_reserved;
use graphql_names::Type;
use graphql_text::Text;
use graphql_values::{InputValue, ScalarValue};
use std::alloc::AllocError;

/// An argument of a field, or a field of an input object (GraphQL October 2021, 3.6.1 Field
/// Arguments, 3.10 Input Objects).
#[derive(Drop)]
pub struct Argument<S> {
    /// The name.
    pub name: Text,

    /// What it is for, in words.
    pub description: Option<Text>,

    /// The type of its values.
    pub arg_type: Type<Text>,

    /// The value that it has where none is given.
    pub default_value: Option<InputValue<S>>,
}

impl<S> Argument<S> {
    /// The argument of this name and this type.
    pub fn new(name: Text, arg_type: Type<Text>) -> Argument<S>
        ensures { result ≡ record {
          name = name;
          description = None;
          arg_type = arg_type;
          default_value = None;
        } }
    {
        Argument {
            name,
            description: None,
            arg_type,
            default_value: None,
        }
    }

    /// The same with this description.
    pub fn description(mut self, description: Text) -> Argument<S>
        ensures { result ≡ record self { description = Some description } }
    {
        self.description = Some(description);
        self
    }

    /// The same with this value where none is given.
    pub fn default_value(mut self, value: InputValue<S>) -> Argument<S>
    where
        S: Drop,
        ensures { result ≡ record self { default_value = Some value } }
    {
        self.default_value = Some(value);
        self
    }

    /// Whether its name is one that the standard keeps for introspection: it begins with two
    /// underscores (GraphQL October 2021, 4 Introspection, Reserved Names).
    pub fn is_builtin(&self) -> bool
        ensures { result ≡ is_reserved self.now.name }
    {
        is_reserved(self.name.as_str())
    }
}

impl<S: ScalarValue + Drop> Clone for Argument<S> {
    ghost is_clone = { λ argument copy. copy ≡ argument };

    /// The same argument once more. Takes stack for each level that its default value nests. An
    /// error is want of memory.
    fn clone(&self) -> Result<Argument<S>, AllocError> {
        let name = self.name.clone()?;
        let description = self.description.clone()?;
        let arg_type = self.arg_type.clone()?;
        let default_value = self.default_value.clone()?;
        Ok(Argument {
            name,
            description,
            arg_type,
            default_value,
        })
    }
}
