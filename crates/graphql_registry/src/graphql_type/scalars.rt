//! The built-in scalars.

ghost use Rattle.std.proofs.Common.{rules};
ghost use Rattle.std.specs.Prelude.{◌≡◌, Some, codes};
ghost use Rattle.std.specs.Option.{option_map};
ghost use Rattle.graphql_text.specs.Memory.{Gives};
ghost use Rattle.graphql_schema.specs.Types.{reference_to};

use super::{GraphQLType, named_type};
use graphql_input_types::ID;
use graphql_names::Type;
use graphql_text::Text;
use std::alloc::{AllocError, Global};

/// The scalar `Boolean` (GraphQL October 2021, 3.5.4 Boolean).
impl<S> GraphQLType<S> for bool {
    ghost type_name = { Some (codes "Boolean") };

    ghost type_reference = { reference_to (codes "Boolean") };

    ghost named = { Prim.search rules };

    fn name() -> Option<&'static str> {
        Some("Boolean")
    }

    fn as_type(alloc: Global) -> Result<Type<Text>, AllocError> {
        named_type(alloc, "Boolean")
    }
}

/// The scalar `Int` (GraphQL October 2021, 3.5.1 Int).
impl<S> GraphQLType<S> for i32 {
    ghost type_name = { Some (codes "Int") };

    ghost type_reference = { reference_to (codes "Int") };

    ghost named = { Prim.search rules };

    fn name() -> Option<&'static str> {
        Some("Int")
    }

    fn as_type(alloc: Global) -> Result<Type<Text>, AllocError> {
        named_type(alloc, "Int")
    }
}

/// The scalar `String` (GraphQL October 2021, 3.5.3 String).
impl<S> GraphQLType<S> for &str {
    ghost type_name = { Some (codes "String") };

    ghost type_reference = { reference_to (codes "String") };

    ghost named = { Prim.search rules };

    fn name() -> Option<&'static str>
        ensures { option_map (λ name. name.now) result ≡ Some (codes "String") }
    {
        Some("String")
    }

    fn as_type(alloc: Global) -> Result<Type<Text>, AllocError>
        ensures { Gives result (reference_to (codes "String")) }
    {
        named_type(alloc, "String")
    }
}

/// The scalar `String` (GraphQL October 2021, 3.5.3 String).
impl<S> GraphQLType<S> for String {
    ghost type_name = { Some (codes "String") };

    ghost type_reference = { reference_to (codes "String") };

    ghost named = { Prim.search rules };

    fn name() -> Option<&'static str> {
        Some("String")
    }

    fn as_type(alloc: Global) -> Result<Type<Text>, AllocError> {
        named_type(alloc, "String")
    }
}

/// The scalar `ID` (GraphQL October 2021, 3.5.5 ID).
impl<S> GraphQLType<S> for ID {
    ghost type_name = { Some (codes "ID") };

    ghost type_reference = { reference_to (codes "ID") };

    ghost named = { Prim.search rules };

    fn name() -> Option<&'static str> {
        Some("ID")
    }

    fn as_type(alloc: Global) -> Result<Type<Text>, AllocError> {
        named_type(alloc, "ID")
    }
}
