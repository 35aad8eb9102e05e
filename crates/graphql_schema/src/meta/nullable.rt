//! The metadata of types with `null`.

ghost use Rattle.std.specs.Prelude.{◌≡◌};
ghost use Rattle.graphql_schema.specs.declared.meta.MetaType.TheVariants as meta;

use super::MetaType;
use graphql_names::Type;
use graphql_text::Text;
use std::alloc::AllocError;

/// A type with `null` among its values (GraphQL October 2021, 3.12 Non-Null, Nullable vs.
/// Optional).
#[derive(Drop)]
pub struct NullableMeta {
    /// The type whose values there are beside `null`.
    pub of_type: Type<Text>,
}

impl NullableMeta {
    /// This type with `null` among its values.
    pub fn new(of_type: Type<Text>) -> NullableMeta
        ensures { result ≡ record { of_type = of_type } }
    {
        NullableMeta { of_type }
    }

    /// It as the metadata of a type.
    pub fn into_meta<S, C>(self) -> MetaType<S, C>
        ensures { result ≡ meta.Nullable self }
    {
        MetaType::Nullable(self)
    }
}

impl Clone for NullableMeta {
    ghost is_clone = { λ nullable copy. copy ≡ nullable };

    /// The same once more. An error is want of memory.
    fn clone(&self) -> Result<NullableMeta, AllocError> {
        let of_type = self.of_type.clone()?;
        Ok(NullableMeta { of_type })
    }
}
