//! The kinds of faults.

ghost use Rattle.std.specs.Prelude.{◌≡◌};
ghost use Rattle.graphql_schema.specs.Faults.{error_of};

use crate::error::SchemaError;
use graphql_text::Text;

/// What a fault of types is, the name at which it stands aside: each is a variant of
/// [`SchemaError`], which says more of it.
#[derive(Clone, Copy, Debug)]
pub enum FaultKind {
    /// A name stands twice.
    DuplicateName,

    /// A type that each schema has is missing.
    MissingBuiltin,

    /// A name to which a type refers is no type's.
    UnknownType,

    /// The type of a field is no output type.
    NotOutputType,

    /// The type of an argument or an input field is no input type.
    NotInputType,

    /// The type of a root is no object.
    BadRoot,

    /// A member of a union is no object, or a listed interface is none.
    BadMember,

    /// An input object of which exactly one field is given has a field that is non-null or has a
    /// default.
    BadOneOf,
}

/// The kinds in the order in which faults are told.
pub(super) const KINDS: [FaultKind; 8] = [
    FaultKind::DuplicateName,
    FaultKind::MissingBuiltin,
    FaultKind::UnknownType,
    FaultKind::NotOutputType,
    FaultKind::NotInputType,
    FaultKind::BadRoot,
    FaultKind::BadMember,
    FaultKind::BadOneOf,
];

/// The error that tells a fault of this kind at this name.
pub(super) fn error_of(kind: FaultKind, name: Text) -> SchemaError
    ensures { result ≡ error_of kind name }
{
    match kind {
        FaultKind::DuplicateName => SchemaError::DuplicateName(name),
        FaultKind::MissingBuiltin => SchemaError::MissingBuiltin(name),
        FaultKind::UnknownType => SchemaError::UnknownType(name),
        FaultKind::NotOutputType => SchemaError::NotOutputType(name),
        FaultKind::NotInputType => SchemaError::NotInputType(name),
        FaultKind::BadRoot => SchemaError::BadRoot(name),
        FaultKind::BadMember => SchemaError::BadMember(name),
        FaultKind::BadOneOf => SchemaError::BadOneOf(name),
    }
}
