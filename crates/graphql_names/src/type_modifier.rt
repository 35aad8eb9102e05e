//! What wraps a type's name.

use graphql_text::Items;

/// One wrap of a type (GraphQL October 2021, 2.11 Type References).
#[derive(Clone, Copy, Debug, PartialEq, Eq)]
pub enum TypeModifier {
    /// Values of the type within, and no `null`.
    NonNull,

    /// Lists of values of the type within, of this many items where a length is given.
    List(Option<usize>),
}

/// The wraps of a type, the innermost first.
pub type TypeModifiers = Items<TypeModifier>;
