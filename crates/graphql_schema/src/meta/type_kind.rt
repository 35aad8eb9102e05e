//! The kinds of types.

/// The kinds of types (GraphQL October 2021, 4.2.2 The __Type Type, Type Kinds).
#[derive(Clone, Copy, Debug, PartialEq, Eq)]
pub enum TypeKind {
    /// A scalar.
    Scalar,

    /// An object.
    Object,

    /// An interface.
    Interface,

    /// A union.
    Union,

    /// An enum.
    Enum,

    /// An input object.
    InputObject,

    /// A list.
    List,

    /// A type without `null`.
    NonNull,
}
