//! What is wanted at a member of a file of a schema.

/// The members that a file of a schema has.
#[derive(Clone, Copy, Debug, PartialEq, Eq)]
pub enum Member {
    /// `query`, of the file.
    Query,

    /// `mutation`, of the file.
    Mutation,

    /// `types`, of the file.
    Types,

    /// `kind`, of a type.
    Kind,

    /// `name`, of a type, a field or an argument.
    Name,

    /// `fields`, of an object or an interface.
    Fields,

    /// `interfaces`, of an object or an interface.
    Interfaces,

    /// `members`, of a union.
    Members,

    /// `type`, of a field or an argument.
    TypeText,

    /// `args`, of a field.
    Arguments,

    /// `default`, of an argument.
    DefaultText,
}

/// What is wanted at a member.
#[derive(Clone, Copy, Debug, PartialEq, Eq)]
pub enum Wanted {
    /// An object.
    Object,

    /// A list.
    List,

    /// A text.
    Text,

    /// The name of a kind of types: `object`, `interface` or `union`.
    Kind,
}

/// Where a file of a schema has not the shape of one, and what is wanted there. Items of lists are
/// counted from 0.
#[derive(Clone, Copy, Debug)]
pub struct ShapeFault {
    /// The item of the list `types` in which it stands, if it stands in one.
    pub type_index: Option<usize>,

    /// The item of that type's list `fields`, if it stands in one.
    pub field_index: Option<usize>,

    /// The item of that field's list `args`, if it stands in one.
    pub argument_index: Option<usize>,

    /// The member that is missing there, or is of another kind; `None` where the item itself, or
    /// the file, is no object.
    pub member: Option<Member>,

    /// The item of the member's list of names, where the list itself is right.
    pub name_index: Option<usize>,

    /// What is wanted.
    pub wanted: Wanted,
}
