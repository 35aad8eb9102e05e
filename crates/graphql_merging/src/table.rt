//! The selection sets of a document, by numbers.

ghost use Rattle.std.specs.Prelude.{◌≡◌, slice_get};
ghost use Rattle.std.specs.Option.{option_copied};

use crate::selected::SelectedField;
use graphql_schema::SchemaScalar;
use graphql_text::Items;

/// A field where a document writes it.
#[derive_where(Clone, Copy)]
pub struct WrittenField<'d, 'a, S, C = <S as SchemaScalar>::Check> {
    /// The field, and the type around it.
    pub selected: SelectedField<'d, 'a, S, C>,

    /// The number of its own selection set, which is empty where it has none.
    pub own: usize,
}

/// A selection set as a document writes it.
#[derive(Drop)]
pub struct WrittenSet<'d, 'a, S, C = <S as SchemaScalar>::Check> {
    /// The fields that stand directly in it, in order.
    pub fields: Items<WrittenField<'d, 'a, S, C>>,

    /// The numbers of the sets of the fragments that stand directly in it, spread or inline, in
    /// order.
    pub inner: Items<usize>,
}

/// The selection sets of a document as it writes them, by numbers from zero: a fragment's set once,
/// however often it is spread. A set that selects from an unknown type is empty.
#[derive(Drop)]
pub struct SetTable<'d, 'a, S, C = <S as SchemaScalar>::Check> {
    /// The sets, each at its number.
    pub sets: Items<WrittenSet<'d, 'a, S, C>>,
}

impl<'d, 'a, S, C> SetTable<'d, 'a, S, C> {
    /// The set of this number, if there is one.
    pub fn get(&self, number: usize) -> Option<&WrittenSet<'d, 'a, S, C>>
        ensures { option_copied result ≡ slice_get self.now.sets number }
    {
        self.sets.get(number)
    }
}
