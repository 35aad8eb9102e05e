//! The directives of a schema.

ghost use Rattle.std.specs.Prelude.{◌≡◌, ◌↔◌, Some, None, IsTrue};
ghost use Rattle.std.specs.List.{Contains};

use crate::directive_location::DirectiveLocation;
use crate::meta::Argument;
use graphql_text::{Items, Text};
use graphql_values::{NamedItems, ScalarValue};
use std::alloc::AllocError;

/// What a schema says of a directive (GraphQL October 2021, 3.13 Directives).
#[derive(Drop)]
pub struct DirectiveType<S> {
    /// The name, without the `@`.
    pub name: Text,

    /// What it is for, in words.
    pub description: Option<Text>,

    /// The places at which it may stand, in order.
    pub locations: Items<DirectiveLocation>,

    /// The arguments, as they were declared, each found by its name.
    pub arguments: NamedItems<Argument<S>>,

    /// Whether it may stand more than once at one place.
    pub is_repeatable: bool,
}

impl<S> DirectiveType<S> {
    /// The directive of this name, these places and these arguments, which may stand more than once
    /// at one place where `is_repeatable` says so.
    pub fn new(
        name: Text,
        locations: Items<DirectiveLocation>,
        arguments: NamedItems<Argument<S>>,
        is_repeatable: bool,
    ) -> DirectiveType<S>
        ensures { result ≡ record {
          name = name;
          description = None;
          locations = locations;
          arguments = arguments;
          is_repeatable = is_repeatable;
        } }
    {
        DirectiveType {
            name,
            description: None,
            locations,
            arguments,
            is_repeatable,
        }
    }

    /// The same with this description.
    pub fn description(mut self, description: Text) -> DirectiveType<S>
        ensures { result ≡ record self { description = Some description } }
    {
        self.description = Some(description);
        self
    }

    /// Whether it may stand at this place (GraphQL October 2021, 5.7.2 Directives Are In Valid
    /// Locations).
    pub fn has_location(&self, location: DirectiveLocation) -> bool
        ensures { IsTrue result ↔ Contains self.now.locations location }
    {
        self.locations.as_slice().contains(&location)
    }
}

impl<S: ScalarValue + Drop> Clone for DirectiveType<S> {
    ghost is_clone = { λ directive copy. copy ≡ directive };

    /// The same directive once more. Takes stack for each level that a default value of its
    /// arguments nests. An error is want of memory.
    fn clone(&self) -> Result<DirectiveType<S>, AllocError> {
        let name = self.name.clone()?;
        let description = self.description.clone()?;
        let locations = self.locations.clone()?;
        let arguments = self.arguments.clone()?;
        let is_repeatable = self.is_repeatable;
        Ok(DirectiveType {
            name,
            description,
            locations,
            arguments,
            is_repeatable,
        })
    }
}
