//! Values that may be null, where it is told apart whether null was given.

ghost use Rattle.std.specs.Prelude.{◌≡◌, not, is_some, is_ok, IsSome, IsSomeAnd, IsErrAnd};
ghost use Rattle.std.specs.Prelude.{MatchOption, MatchResult, Ok};
ghost use Rattle.std.specs.Borrow.{sem};
ghost use Rattle.std.specs.Option.{unwrap_or, ok_or, option_copied_mut, ForSome, ForNone};
ghost use Rattle.graphql_input_types.specs.NullableLending.{LendsValue};
ghost use Rattle.graphql_input_types.specs.Nullables as spec;
ghost use Rattle.graphql_input_types.specs.declared.nullable.Nullable.TheVariants as nullable;

use graphql_values::{FromInputValue, InputValue, ToInputValue};
use std::alloc::{AllocError, Global};

/// A value that may be null, where it is told apart whether null was given or nothing was (GraphQL
/// October 2021, 2.9.5 Null Value). What was not given stands first, then null, then values by
/// their own order.
#[derive(Clone, Copy, Debug, Drop, PartialEq, Eq, PartialOrd, Ord, Hash)]
pub enum Nullable<T> {
    /// Nothing was given.
    ImplicitNull,

    /// Null was given.
    ExplicitNull,

    /// This value was given.
    Some(T),
}

impl<T> Nullable<T> {
    /// Whether null was given.
    pub fn is_explicit_null(&self) -> bool
        ensures { result ≡ spec.is_explicit_null self.now }
    {
        match *self {
            Nullable::ExplicitNull => true,
            Nullable::ImplicitNull | Nullable::Some(_) => false,
        }
    }

    /// Whether nothing was given.
    pub fn is_implicit_null(&self) -> bool
        ensures { result ≡ spec.is_implicit_null self.now }
    {
        match *self {
            Nullable::ImplicitNull => true,
            Nullable::ExplicitNull | Nullable::Some(_) => false,
        }
    }

    /// Whether a value was given that is not null.
    pub fn is_some(&self) -> bool
        ensures { result ≡ is_some (spec.some self.now) }
    {
        match *self {
            Nullable::Some(_) => true,
            Nullable::ImplicitNull | Nullable::ExplicitNull => false,
        }
    }

    /// Whether null was given or nothing was.
    pub fn is_null(&self) -> bool
        ensures { result ≡ not (is_some (spec.some self.now)) }
    {
        match *self {
            Nullable::Some(_) => false,
            Nullable::ImplicitNull | Nullable::ExplicitNull => true,
        }
    }

    /// The value. It is there.
    pub fn expect(self, _message: &str) -> T
        requires { IsSome (spec.some self) }
        ensures { self ≡ nullable.Some result }
    {
        match self {
            Nullable::Some(given) => given,
            Nullable::ImplicitNull | Nullable::ExplicitNull => unreachable(),
        }
    }

    /// The value, or this one where it is null.
    pub fn unwrap_or(self, default: T) -> T
    where
        T: Drop,
        ensures { result ≡ unwrap_or (spec.some self) default }
    {
        match self {
            Nullable::Some(given) => given,
            Nullable::ImplicitNull | Nullable::ExplicitNull => default,
        }
    }

    /// The value, or this error where it is null.
    pub fn ok_or<E>(self, error: E) -> Result<T, E>
    where
        E: Drop,
        ensures { result ≡ ok_or (spec.some self) error }
    {
        match self {
            Nullable::Some(given) => Ok(given),
            Nullable::ImplicitNull | Nullable::ExplicitNull => Err(error),
        }
    }

    /// This one, or the other where this one is null.
    pub fn or(self, other: Nullable<T>) -> Nullable<T>
    where
        T: Drop,
        ensures { result ≡ spec.or self other }
    {
        match self {
            Nullable::Some(own) => Nullable::Some(own),
            Nullable::ImplicitNull | Nullable::ExplicitNull => other,
        }
    }

    /// Puts this value in, and gives what stood before.
    pub fn replace(&mut self, value: T) -> Nullable<T>
        ensures before { result ≡ self.old }
        ensures after { self.new ≡ nullable.Some value }
    {
        std::mem::replace(self, Nullable::Some(value))
    }

    /// The value, or none where it is null.
    pub fn some(self) -> Option<T>
        ensures { result ≡ spec.some self }
    {
        match self {
            Nullable::Some(given) => Some(given),
            Nullable::ImplicitNull | Nullable::ExplicitNull => None,
        }
    }

    /// None where nothing was given, and else what was given, with none for null.
    pub fn explicit(self) -> Option<Option<T>>
        ensures { result ≡ spec.explicit self }
    {
        match self {
            Nullable::ImplicitNull => None,
            Nullable::ExplicitNull => Some(None),
            Nullable::Some(given) => Some(Some(given)),
        }
    }
}

impl<T> Nullable<T> {
    /// The same with its value lent, to be written to.
    pub fn as_mut(&mut self) -> Nullable<&mut T>
        ensures { spec.copied_mut result ≡ self.old }
    {
        match self {
            Nullable::Some(given) => Nullable::Some(given),
            Nullable::ImplicitNull => Nullable::ImplicitNull,
            Nullable::ExplicitNull => Nullable::ExplicitNull,
        }
    }

    /// The value, lent, to be written to, or none where it is null.
    pub fn some_mut(&mut self) -> Option<&mut T>
        ensures* writes_back { sem 𝓛 (LendsValue T.row self.entry result) }
        ensures value { option_copied_mut result ≡ spec.some self.old }
    {
        match self {
            Nullable::Some(given) => Some(given),
            Nullable::ImplicitNull | Nullable::ExplicitNull => None,
        }
    }
}

impl<T> Nullable<T> {
    /// The value, or what the closure gives where it is null.
    pub fn unwrap_or_else<F: FnOnce() -> T>(self, default: F) -> T
        requires { ForNone (spec.some self) (F.pre default) }
        ensures { MatchOption (spec.some self) (F.post default result) (λ given. result ≡ given) }
    {
        self.some().unwrap_or_else(default)
    }

    /// What the closure gives for the value. Both nulls stay.
    pub fn map<U, F: FnOnce(T) -> U>(self, turn: F) -> Nullable<U>
        requires { ForSome (spec.some self) (F.pre turn) }
        ensures { spec.IsSameBy (F.post turn) self result }
    {
        match self {
            Nullable::Some(given) => Nullable::Some(turn(given)),
            Nullable::ImplicitNull => Nullable::ImplicitNull,
            Nullable::ExplicitNull => Nullable::ExplicitNull,
        }
    }

    /// What the closure gives for the value, or this default where it is null.
    pub fn map_or<U, F: FnOnce(T) -> U>(self, default: U, turn: F) -> U
    where
        U: Drop,
        requires { ForSome (spec.some self) (F.pre turn) }
        ensures { MatchOption (spec.some self) (result ≡ default)
            (λ given. F.post turn given result) }
    {
        self.some().map_or(default, turn)
    }

    /// What the second closure gives for the value, or what the first gives where it is null.
    pub fn map_or_else<U, D: FnOnce() -> U, F: FnOnce(T) -> U>(self, default: D, turn: F) -> U
        requires default_callable { ForNone (spec.some self) (D.pre default) }
        requires turn_callable { ForSome (spec.some self) (λ given. F.pre turn given) }
        ensures { MatchOption (spec.some self) (D.post default result)
            (λ given. F.post turn given result) }
    {
        self.some().map_or_else(default, turn)
    }

    /// The value, or the error that the closure gives where it is null.
    pub fn ok_or_else<E, F: FnOnce() -> E>(self, error: F) -> Result<T, E>
        requires { ForNone (spec.some self) (F.pre error) }
        ensures cases { MatchOption (spec.some self) (IsErrAnd result (F.post error))
            (λ given. result ≡ Ok given) }
        ensures variant { is_ok result ≡ is_some (spec.some self) }
    {
        self.some().ok_or_else(error)
    }

    /// This one, or what the closure gives where this one is null.
    pub fn or_else<F: FnOnce() -> Nullable<T>>(self, other: F) -> Nullable<T>
        requires { ForNone (spec.some self) (F.pre other) }
        ensures { MatchOption (spec.some self) (F.post other result)
            (λ given. result ≡ nullable.Some given) }
    {
        match self {
            Nullable::Some(given) => Nullable::Some(given),
            Nullable::ImplicitNull | Nullable::ExplicitNull => other(),
        }
    }
}

impl<T: Copy> Nullable<&T> {
    /// The same with a copy of the value that is lent.
    pub fn copied(self) -> Nullable<T>
        ensures { result ≡ spec.copied self.entry }
    {
        match self {
            Nullable::Some(given) => Nullable::Some(*given),
            Nullable::ImplicitNull => Nullable::ImplicitNull,
            Nullable::ExplicitNull => Nullable::ExplicitNull,
        }
    }
}

impl<T: Copy> Nullable<&mut T> {
    /// The same with a copy of the value that is lent.
    pub fn copied(self) -> Nullable<T>
        ensures { result ≡ spec.copied_mut self.entry }
    {
        match self {
            Nullable::Some(given) => Nullable::Some(*given),
            Nullable::ImplicitNull => Nullable::ImplicitNull,
            Nullable::ExplicitNull => Nullable::ExplicitNull,
        }
    }
}

impl<T: Clone> Nullable<&T> {
    /// The same with a clone of the value that is lent. An error is want of memory.
    pub fn cloned(self) -> Result<Nullable<T>, AllocError>
        ensures { MatchResult result (spec.IsSameBy (λ lent x. T.is_clone lent.now x) self.entry)
            (λ _. IsSomeAnd (spec.some self.entry) (λ lent. ¬ (T.is_infallible lent.now))) }
    {
        match self {
            Nullable::Some(given) => Ok(Nullable::Some(given.clone()?)),
            Nullable::ImplicitNull => Ok(Nullable::ImplicitNull),
            Nullable::ExplicitNull => Ok(Nullable::ExplicitNull),
        }
    }
}

impl<T: Clone> Nullable<&mut T> {
    /// The same with a clone of the value that is lent. An error is want of memory.
    pub fn cloned(self) -> Result<Nullable<T>, AllocError>
        ensures { MatchResult result (spec.IsSameBy (λ lent x. T.is_clone lent.now x) self.entry)
            (λ _. IsSomeAnd (spec.some self.entry) (λ lent. ¬ (T.is_infallible lent.now))) }
    {
        match self {
            Nullable::Some(given) => Ok(Nullable::Some((*given).clone()?)),
            Nullable::ImplicitNull => Ok(Nullable::ImplicitNull),
            Nullable::ExplicitNull => Ok(Nullable::ExplicitNull),
        }
    }
}

/// Nothing was given.
impl<T> Default for Nullable<T> {
    ghost is_default = { λ x. x ≡ nullable.ImplicitNull };

    fn default() -> Nullable<T> {
        Nullable::ImplicitNull
    }
}

/// Null is the explicit one, and any other value means what it means at `T`. What is absent is the
/// implicit null.
impl<S, T: FromInputValue<S>> FromInputValue<S> for Nullable<T> {
    type Error = T::Error;

    ghost means = { spec.MeansNullable T.means };

    ghost refuses = { spec.RefusesNullable T.refuses };

    ghost is_memory = { T.is_memory };

    ghost means_absent = { λ x. x ≡ nullable.ImplicitNull };

    ghost refuses_absent = { λ e. ⊥ };

    ghost apart = { spec.nullable_apart T.means T.refuses T.apart };

    ghost absent_apart = { λ x e is h. h };

    ghost memory = { T.memory };

    fn from_input_value(alloc: Global, value: &InputValue<S>) -> Result<Nullable<T>, T::Error> {
        match value {
            InputValue::Null => Ok(Nullable::ExplicitNull),
            given => match given.convert(alloc) {
                Ok(meant) => Ok(Nullable::Some(meant)),
                Err(error) => Err(error),
            },
        }
    }

    fn from_implicit_null(_alloc: Global) -> Result<Nullable<T>, T::Error> {
        Ok(Nullable::ImplicitNull)
    }
}

/// Null for both nulls, else the input value of what is there.
impl<S, T: ToInputValue<S>> ToInputValue<S> for Nullable<T> {
    ghost input = { spec.nullable_of T.input };

    fn to_input_value(&self, alloc: Global) -> Result<InputValue<S>, AllocError> {
        match self {
            Nullable::Some(given) => given.to_input_value(alloc),
            Nullable::ImplicitNull | Nullable::ExplicitNull => Ok(InputValue::Null),
        }
    }
}
