//! Pointers: a type behind one is the type itself.

use super::GraphQLType;
use graphql_names::Type;
use graphql_text::Text;
use std::alloc::{AllocError, Global};
use std::rc::Rc;

/// The type of what is lent.
impl<S, T: GraphQLType<S>> GraphQLType<S> for &T {
    ghost type_name = { T.type_name };

    ghost type_reference = { T.type_reference };

    ghost named = { T.named };

    fn name() -> Option<&'static str> {
        <T as GraphQLType<S>>::name()
    }

    fn as_type(alloc: Global) -> Result<Type<Text>, AllocError> {
        <T as GraphQLType<S>>::as_type(alloc)
    }
}

/// The type of what is in the box.
impl<S, T: GraphQLType<S>> GraphQLType<S> for Box<T> {
    ghost type_name = { T.type_name };

    ghost type_reference = { T.type_reference };

    ghost named = { T.named };

    fn name() -> Option<&'static str> {
        <T as GraphQLType<S>>::name()
    }

    fn as_type(alloc: Global) -> Result<Type<Text>, AllocError> {
        <T as GraphQLType<S>>::as_type(alloc)
    }
}

/// The type of what is shared.
impl<S, T: GraphQLType<S>> GraphQLType<S> for Rc<T> {
    ghost type_name = { T.type_name };

    ghost type_reference = { T.type_reference };

    ghost named = { T.named };

    fn name() -> Option<&'static str> {
        <T as GraphQLType<S>>::name()
    }

    fn as_type(alloc: Global) -> Result<Type<Text>, AllocError> {
        <T as GraphQLType<S>>::as_type(alloc)
    }
}
