//! Why metadata make no schema.

ghost use Rattle.std.specs.Prelude.{◌≡◌};
ghost use Rattle.graphql_schema.specs.Faults.{refusal_of};
ghost use Rattle.graphql_schema.specs.declared.error.SchemaError.TheVariants.{Memory};

use graphql_names::NameMapError;
use graphql_text::Text;
use std::alloc::{AllocError, AllocFailed};
use thiserror::Error;

/// Why metadata make no schema, in the order in which faults are told, each with a name at which it
/// stands; or want of memory (GraphQL October 2021, 3.3 Schema, 3.6 to 3.10 Type Validation).
#[derive(Debug, Drop, Error)]
pub enum SchemaError {
    /// Two types have this name, or two fields, arguments or values of one type.
    #[error("More than one type, field, argument or value of one type is named \"{0}\"")]
    DuplicateName(Text),

    /// One of the objects `__Schema` and `__Type` or of the scalars `String` and `Boolean` is
    /// missing.
    #[error("Type \"{0}\" is missing")]
    MissingBuiltin(Text),

    /// A type refers to this name, which no type has.
    #[error("Unknown type \"{0}\"")]
    UnknownType(Text),

    /// A field has this type, which is an input object.
    #[error("Type \"{0}\" of a field is no output type")]
    NotOutputType(Text),

    /// An argument or an input field has this type, which is an object, an interface or a union.
    #[error("Type \"{0}\" of an argument or an input field is no input type")]
    NotInputType(Text),

    /// The type of a root has this name, which no object has.
    #[error("Root type \"{0}\" is no object")]
    BadRoot(Text),

    /// A member of a union has this name, which no object has; or it is listed as an interface, and
    /// no interface has it.
    #[error("Type \"{0}\" is no object among a union's members, or no interface among those listed")]
    BadMember(Text),

    /// The input object of this name, of which exactly one field is given, has a field that is
    /// non-null or has a default.
    #[error("Input object \"{0}\", of which exactly one field is given, has a field that is non-null or has a default")]
    BadOneOf(Text),

    /// Memory ran out. It says nothing about the metadata.
    #[error("Out of memory")]
    Memory,
}

impl From<AllocError> for SchemaError {
    ghost from_gives = { λ _ e. e ≡ Memory };

    fn from(_error: AllocError) -> SchemaError {
        SchemaError::Memory
    }
}

impl<T: Drop> From<AllocFailed<T>> for SchemaError {
    ghost from_gives = { λ _ e. e ≡ Memory };

    fn from(_error: AllocFailed<T>) -> SchemaError {
        SchemaError::Memory
    }
}

/// A name that two types have.
impl From<NameMapError> for SchemaError {
    ghost from_gives = { λ repeat e. e ≡ refusal_of repeat };

    fn from(repeat: NameMapError) -> SchemaError {
        match repeat {
            NameMapError::Repeated(name) => SchemaError::DuplicateName(name),
            NameMapError::Memory => SchemaError::Memory,
        }
    }
}
