//! Fields of a document, each with the type around it.

use graphql_schema::{MetaType, SchemaScalar};
use graphql_text::Spanning;
use graphql_tree::Field;

/// A field of a document, and the innermost type around it, both lent.
#[derive_where(Clone, Copy)]
pub struct SelectedField<'d, 'a, S, C = <S as SchemaScalar>::Check> {
    /// The type around it: that of the nearest condition, else that whose selection set it stands
    /// in.
    pub parent: &'d MetaType<S, C>,

    /// The field.
    pub field: &'d Spanning<Field<'a, S>>,
}
