//! What stands for the root operation types that a schema does not have.

ghost use Rattle.std.proofs.Common.{rules};
ghost use Rattle.std.specs.Prelude.{Some, codes};
ghost use Rattle.graphql_schema.specs.Types.{reference_to};

use crate::graphql_type::{GraphQLType, named_type};
use graphql_names::Type;
use graphql_text::Text;
use std::alloc::{AllocError, Global};
use std::marker::PhantomData;

/// What stands for the mutations of a schema that has none, over contexts `T` (GraphQL October
/// 2021, 3.3.1 Root Operation Types: a schema need not have a root of mutations). A schema takes
/// its name `_EmptyMutation` as that of no root.
#[derive(Drop)]
pub struct EmptyMutation<T = ()> {
    marker: PhantomData<T>,
}

impl<T> EmptyMutation<T> {
    /// What stands for no mutations. Takes no memory.
    pub fn new() -> EmptyMutation<T> {
        EmptyMutation {
            marker: PhantomData,
        }
    }
}

/// The same as `new` gives. Takes no memory.
impl<T> Default for EmptyMutation<T> {
    fn default() -> EmptyMutation<T> {
        EmptyMutation::new()
    }
}

/// The object `_EmptyMutation` (GraphQL October 2021, 3.6 Objects).
impl<S, T> GraphQLType<S> for EmptyMutation<T> {
    ghost type_name = { Some (codes "_EmptyMutation") };

    ghost type_reference = { reference_to (codes "_EmptyMutation") };

    ghost named = { Prim.search rules };

    fn name() -> Option<&'static str> {
        Some("_EmptyMutation")
    }

    fn as_type(alloc: Global) -> Result<Type<Text>, AllocError> {
        named_type(alloc, "_EmptyMutation")
    }
}

/// What stands for the subscriptions of a schema that has none, over contexts `T` (GraphQL October
/// 2021, 3.3.1 Root Operation Types: a schema need not have a root of subscriptions). A schema
/// takes its name `_EmptySubscription` as that of no root.
#[derive(Drop)]
pub struct EmptySubscription<T = ()> {
    marker: PhantomData<T>,
}

impl<T> EmptySubscription<T> {
    /// What stands for no subscriptions. Takes no memory.
    pub fn new() -> EmptySubscription<T> {
        EmptySubscription {
            marker: PhantomData,
        }
    }
}

/// The same as `new` gives. Takes no memory.
impl<T> Default for EmptySubscription<T> {
    fn default() -> EmptySubscription<T> {
        EmptySubscription::new()
    }
}

/// The object `_EmptySubscription` (GraphQL October 2021, 3.6 Objects).
impl<S, T> GraphQLType<S> for EmptySubscription<T> {
    ghost type_name = { Some (codes "_EmptySubscription") };

    ghost type_reference = { reference_to (codes "_EmptySubscription") };

    ghost named = { Prim.search rules };

    fn name() -> Option<&'static str> {
        Some("_EmptySubscription")
    }

    fn as_type(alloc: Global) -> Result<Type<Text>, AllocError> {
        named_type(alloc, "_EmptySubscription")
    }
}
