//! The kind of a type, and the sorts of types.

ghost use Rattle.std.specs.Prelude.{◌≡◌, ◌↔◌, IsTrue};
ghost use Rattle.graphql_schema.specs.Kinds.{kind_of, IsComposite, IsLeaf, IsAbstract, IsInput};
ghost use Rattle.graphql_schema.specs.Types.{name_of};
ghost use Rattle.graphql_schema.specs.Names.{names_builtin_type};

use super::names::is_builtin_type;
use super::{MetaType, TypeKind};

impl<S, C> MetaType<S, C> {
    /// The kind of the type (GraphQL October 2021, 4.2.2 The __Type Type, Type Kinds). A type with
    /// `null` and a placeholder tell none: theirs is the kind of the type that they refer to.
    pub fn type_kind(&self) -> Option<TypeKind>
        ensures { result ≡ kind_of self.now }
    {
        match self {
            MetaType::Scalar(_) => Some(TypeKind::Scalar),
            MetaType::List(_) => Some(TypeKind::List),
            MetaType::Object(_) => Some(TypeKind::Object),
            MetaType::Enum(_) => Some(TypeKind::Enum),
            MetaType::Interface(_) => Some(TypeKind::Interface),
            MetaType::Union(_) => Some(TypeKind::Union),
            MetaType::InputObject(_) => Some(TypeKind::InputObject),
            _ => None,
        }
    }

    /// Whether it is an object, an interface or a union: a selection set stands behind a field of
    /// such a type (GraphQL October 2021, 2.4 Selection Sets).
    pub fn is_composite(&self) -> bool
        ensures { IsTrue result ↔ IsComposite self.now }
    {
        match self {
            MetaType::Object(_) | MetaType::Interface(_) | MetaType::Union(_) => true,
            _ => false,
        }
    }

    /// Whether it is a scalar or an enum: no selection set stands behind a field of such a type
    /// (GraphQL October 2021, 5.3.3 Leaf Field Selections).
    pub fn is_leaf(&self) -> bool
        ensures { IsTrue result ↔ IsLeaf self.now }
    {
        match self {
            MetaType::Scalar(_) | MetaType::Enum(_) => true,
            _ => false,
        }
    }

    /// Whether it is an interface or a union (GraphQL October 2021, 3.4 Types).
    pub fn is_abstract(&self) -> bool
        ensures { IsTrue result ↔ IsAbstract self.now }
    {
        match self {
            MetaType::Interface(_) | MetaType::Union(_) => true,
            _ => false,
        }
    }

    /// Whether it is a scalar, an enum or an input object (GraphQL October 2021, 3.4.2 Input and
    /// Output Types). Of a list, a type with `null` and a placeholder the type within decides, and
    /// the answer is no.
    pub fn is_input(&self) -> bool
        ensures { IsTrue result ↔ IsInput self.now }
    {
        match self {
            MetaType::Scalar(_) | MetaType::Enum(_) | MetaType::InputObject(_) => true,
            _ => false,
        }
    }

    /// Whether a schema need not declare a type of this name: its name begins with two underscores,
    /// is that of a built-in scalar (GraphQL October 2021, 3.5 Scalars, 4 Introspection), or is
    /// `_EmptyMutation` or `_EmptySubscription`, which stand for no operations.
    pub fn is_builtin(&self) -> bool
        ensures { result ≡ names_builtin_type (name_of self.now) }
    {
        match self.name() {
            Some(name) => is_builtin_type(name),
            None => false,
        }
    }
}
