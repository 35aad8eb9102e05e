//! What a file of a schema says, lent from its JSON. No text in it has been read yet.

use graphql_text::{Items, TextRef};

/// An argument of a field (GraphQL October 2021, 3.6.1 Field Arguments).
#[derive(Drop)]
pub struct ArgumentDraft<'a> {
    /// The name.
    pub name: TextRef<'a>,

    /// The type, as it is written.
    pub type_text: TextRef<'a>,

    /// The default, as it is written, where there is one.
    pub default_text: Option<TextRef<'a>>,
}

/// A field of an object or an interface (GraphQL October 2021, 3.6 Objects, 3.7 Interfaces).
#[derive(Drop)]
pub struct FieldDraft<'a> {
    /// The name.
    pub name: TextRef<'a>,

    /// The type, as it is written.
    pub type_text: TextRef<'a>,

    /// The arguments, in order.
    pub arguments: Items<ArgumentDraft<'a>>,
}

/// The kinds of types that a file may declare.
#[derive(Clone, Copy, Debug, PartialEq, Eq)]
pub enum DraftKind {
    /// An object (GraphQL October 2021, 3.6).
    Object,

    /// An interface (3.7).
    Interface,

    /// A union (3.8).
    Union,
}

/// A type.
#[derive(Drop)]
pub struct TypeDraft<'a> {
    /// Its kind.
    pub kind: DraftKind,

    /// The name.
    pub name: TextRef<'a>,

    /// The fields, in order. A union has none.
    pub fields: Items<FieldDraft<'a>>,

    /// The names of the interfaces that an object or an interface lists, or of the members of a
    /// union, in order.
    pub listed: Items<TextRef<'a>>,
}

/// A schema (GraphQL October 2021, 3.3 Schema).
#[derive(Drop)]
pub struct SchemaDraft<'a> {
    /// The name of the query root.
    pub query: TextRef<'a>,

    /// The name of the mutation root, where there is one.
    pub mutation: Option<TextRef<'a>>,

    /// The types, in order.
    pub types: Items<TypeDraft<'a>>,
}
