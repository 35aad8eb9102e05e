//! The metadata of a schema's types.

mod argument;
mod deprecation;
mod enum_value;
mod enumeration;
mod field;
mod input_object;
mod interface;
mod kinds;
mod list;
mod lookups;
mod names;
mod nullable;
mod object;
mod parts;
mod placeholder;
mod scalar;
mod type_kind;
mod type_of;
mod union_type;

use crate::check::SchemaScalar;
pub use argument::Argument;
pub use deprecation::DeprecationStatus;
pub use enum_value::EnumValue;
pub use enumeration::EnumMeta;
pub use field::Field;
pub use input_object::InputObjectMeta;
pub use interface::InterfaceMeta;
pub use list::ListMeta;
pub use nullable::NullableMeta;
pub use object::ObjectMeta;
pub use placeholder::PlaceholderMeta;
pub use scalar::ScalarMeta;
pub use type_kind::TypeKind;
pub use union_type::UnionMeta;

/// What a schema says of a type (GraphQL October 2021, 3.4 Types). It has no `clone`, since a check
/// may be a boxed function, which can't be copied; the metadata without a check, and the arguments,
/// fields and enum values within it, have.
#[derive(Drop)]
pub enum MetaType<S, C = <S as SchemaScalar>::Check> {
    /// A scalar.
    Scalar(ScalarMeta<C>),

    /// Lists of another type.
    List(ListMeta),

    /// Another type with `null`.
    Nullable(NullableMeta),

    /// An object.
    Object(ObjectMeta<S>),

    /// An enum.
    Enum(EnumMeta<C>),

    /// An interface.
    Interface(InterfaceMeta<S>),

    /// A union.
    Union(UnionMeta),

    /// An input object.
    InputObject(InputObjectMeta<S, C>),

    /// A type of which only the reference is known.
    Placeholder(PlaceholderMeta),
}
