//! Lists, and types with `null`.

ghost use Rattle.std.proofs.Common.{rules};
ghost use Rattle.std.specs.Prelude.{None, Some};
ghost use Rattle.graphql_text.specs.Memory.{Gives};
ghost use Rattle.graphql_registry.specs.TypeReferences.{list_of, with_null};

use super::GraphQLType;
use graphql_input_types::Nullable;
use graphql_names::Type;
use graphql_text::Text;
use std::alloc::{AllocError, Global};

/// The same type with `null` (GraphQL October 2021, 3.12 Non-Null: a type is nullable where it is
/// not wrapped).
impl<S, T: GraphQLType<S>> GraphQLType<S> for Option<T> {
    ghost type_name = { None };

    ghost type_reference = { with_null T.type_reference };

    ghost named = { Prim.search rules };

    fn name() -> Option<&'static str> {
        None
    }

    fn as_type(alloc: Global) -> Result<Type<Text>, AllocError> {
        Ok(<T as GraphQLType<S>>::as_type(alloc)?.nullable())
    }
}

/// The same type with `null` (GraphQL October 2021, 2.9.5 Null Value).
impl<S, T: GraphQLType<S>> GraphQLType<S> for Nullable<T> {
    ghost type_name = { None };

    ghost type_reference = { with_null T.type_reference };

    ghost named = { Prim.search rules };

    fn name() -> Option<&'static str> {
        None
    }

    fn as_type(alloc: Global) -> Result<Type<Text>, AllocError> {
        Ok(<T as GraphQLType<S>>::as_type(alloc)?.nullable())
    }
}

/// Lists of the type (GraphQL October 2021, 3.11 List).
impl<S, T: GraphQLType<S>> GraphQLType<S> for Vec<T> {
    ghost type_name = { None };

    ghost type_reference = { list_of T.type_reference None };

    ghost named = { Prim.search rules };

    fn name() -> Option<&'static str> {
        None
    }

    fn as_type(alloc: Global) -> Result<Type<Text>, AllocError> {
        list_type(<T as GraphQLType<S>>::as_type(alloc)?, None)
    }
}

/// Lists of the type (GraphQL October 2021, 3.11 List).
impl<S, T: GraphQLType<S>> GraphQLType<S> for &[T] {
    ghost type_name = { None };

    ghost type_reference = { list_of T.type_reference None };

    ghost named = { Prim.search rules };

    fn name() -> Option<&'static str> {
        None
    }

    fn as_type(alloc: Global) -> Result<Type<Text>, AllocError> {
        list_type(<T as GraphQLType<S>>::as_type(alloc)?, None)
    }
}

/// Lists of the type, of `N` items (GraphQL October 2021, 3.11 List).
impl<S, T: GraphQLType<S>, const N: usize> GraphQLType<S> for [T; N] {
    ghost type_name = { None };

    ghost type_reference = { list_of T.type_reference (Some N) };

    ghost named = { Prim.search rules };

    fn name() -> Option<&'static str> {
        None
    }

    fn as_type(alloc: Global) -> Result<Type<Text>, AllocError> {
        list_type(<T as GraphQLType<S>>::as_type(alloc)?, Some(N))
    }
}

/// Lists of a type, without `null` beside them. An error is want of memory.
fn list_type(items: Type<Text>, size: Option<usize>) -> Result<Type<Text>, AllocError>
    ensures { Gives result (list_of items size) }
{
    items.wrap_list(size)?.wrap_non_null()
}
