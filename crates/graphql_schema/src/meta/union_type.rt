//! The metadata of unions.

ghost use Rattle.std.specs.Prelude.{◌≡◌, Some, None};
ghost use Rattle.graphql_schema.specs.declared.meta.MetaType.TheVariants as meta;

use super::MetaType;
use graphql_text::{Items, Text};
use std::alloc::AllocError;

/// What a schema says of a union (GraphQL October 2021, 3.8 Unions).
#[derive(Drop)]
pub struct UnionMeta {
    /// The name.
    pub name: Text,

    /// What it is for, in words.
    pub description: Option<Text>,

    /// The names of its member types, in order.
    pub of_type_names: Items<Text>,
}

impl UnionMeta {
    /// The union of this name and of the member types of these names.
    pub fn new(name: Text, of_type_names: Items<Text>) -> UnionMeta
        ensures { result
            ≡ record { name = name; description = None; of_type_names = of_type_names } }
    {
        UnionMeta {
            name,
            description: None,
            of_type_names,
        }
    }

    /// The same with this description.
    pub fn description(mut self, description: Text) -> UnionMeta
        ensures { result ≡ record self { description = Some description } }
    {
        self.description = Some(description);
        self
    }

    /// It as the metadata of a type.
    pub fn into_meta<S, C>(self) -> MetaType<S, C>
        ensures { result ≡ meta.Union self }
    {
        MetaType::Union(self)
    }
}

impl Clone for UnionMeta {
    ghost is_clone = { λ meta_of_union copy. copy ≡ meta_of_union };

    /// The same union once more. An error is want of memory.
    fn clone(&self) -> Result<UnionMeta, AllocError> {
        let name = self.name.clone()?;
        let description = self.description.clone()?;
        let of_type_names = self.of_type_names.clone()?;
        Ok(UnionMeta {
            name,
            description,
            of_type_names,
        })
    }
}
