//! Fields of a document where they apply.

ghost use Rattle.std.specs.Prelude.{◌≡◌, Some, ⊤, slice_get};
ghost use Rattle.graphql_tree.specs.declared.selection.Selection.TheVariants as selection;

use graphql_text::Spanning;
use graphql_tree::{Field, Selection};
use std::alloc::AllocError;

/// A field of a document, lent, where it applies.
pub struct CollectedField<'d, 'a, S> {
    /// The field.
    pub field: &'d Spanning<Field<'a, S>>,

    /// The selections of the list in which the field directly stands.
    pub among: &'d [Selection<'a, S>],

    /// Its place among them, from zero.
    pub place: usize,

    ghost stands: { slice_get among.now place ≡ Some (selection.Field field.now) },
}

impl<'d, 'a, S> Clone for CollectedField<'d, 'a, S> {
    ghost is_clone = { λ x y. y ≡ x };

    ghost is_infallible = { λ _. ⊤ };

    fn clone(&self) -> Result<CollectedField<'d, 'a, S>, AllocError> {
        Ok(*self)
    }
}

impl<'d, 'a, S> Copy for CollectedField<'d, 'a, S> {}
