//! Contexts, and contexts within them.

use graphql_schema::SchemaType;

/// What resolvers answer from, as a marker: a store, a connection, a user.
pub trait Context {}

impl<C: Context> Context for &C {}

impl<S, C> Context for SchemaType<S, C> {}

/// What can be lent out of a context of the type `T`.
pub trait FromContext<T> {
    ghost use Rattle.std.specs.Prelude.{◌≡◌};

    /// The context within.
    ghost within: { T → Self };

    /// The context within.
    fn from(value: &T) -> &Self
        ensures { result.now ≡ within value.now };
}

/// Nothing can be lent out of every context.
impl<T> FromContext<T> for () {
    ghost within = { λ _. tt };

    fn from(_value: &T) -> &Self {
        &()
    }
}

/// Each context can be lent out of itself.
impl<T: Context> FromContext<T> for T {
    ghost within = { λ context. context };

    fn from(value: &T) -> &Self {
        value
    }
}
