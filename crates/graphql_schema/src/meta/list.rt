//! The metadata of lists.

ghost use Rattle.std.specs.Prelude.{◌≡◌};
ghost use Rattle.graphql_schema.specs.declared.meta.MetaType.TheVariants as meta;

use super::MetaType;
use graphql_names::Type;
use graphql_text::Text;
use std::alloc::AllocError;

/// Lists of a type (GraphQL October 2021, 3.11 List).
#[derive(Drop)]
pub struct ListMeta {
    /// The type of the items.
    pub of_type: Type<Text>,

    /// How many items there are, where that is known.
    pub expected_size: Option<usize>,
}

impl ListMeta {
    /// Lists of this type, of `expected_size` items where that is given.
    pub fn new(of_type: Type<Text>, expected_size: Option<usize>) -> ListMeta
        ensures { result ≡ record { of_type = of_type; expected_size = expected_size } }
    {
        ListMeta {
            of_type,
            expected_size,
        }
    }

    /// It as the metadata of a type.
    pub fn into_meta<S, C>(self) -> MetaType<S, C>
        ensures { result ≡ meta.List self }
    {
        MetaType::List(self)
    }
}

impl Clone for ListMeta {
    ghost is_clone = { λ list copy. copy ≡ list };

    /// The same once more. An error is want of memory.
    fn clone(&self) -> Result<ListMeta, AllocError> {
        let of_type = self.of_type.clone()?;
        let expected_size = self.expected_size;
        Ok(ListMeta {
            of_type,
            expected_size,
        })
    }
}
