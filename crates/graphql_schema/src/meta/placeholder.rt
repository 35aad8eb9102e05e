//! The metadata of types of which only the reference is known.

ghost use Rattle.std.specs.Prelude.{◌≡◌};

use graphql_names::Type;
use graphql_text::Text;
use std::alloc::AllocError;

/// A type of which only the reference is known, until the type itself is told (GraphQL October
/// 2021, 2.11 Type References).
#[derive(Drop)]
pub struct PlaceholderMeta {
    /// The reference.
    pub of_type: Type<Text>,
}

impl Clone for PlaceholderMeta {
    ghost is_clone = { λ placeholder copy. copy ≡ placeholder };

    /// The same once more. An error is want of memory.
    fn clone(&self) -> Result<PlaceholderMeta, AllocError> {
        let of_type = self.of_type.clone()?;
        Ok(PlaceholderMeta { of_type })
    }
}
