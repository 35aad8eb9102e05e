//! The law of values that may be null: the function's contract is the law, and its body does
//! nothing.

ghost use Rattle.std.specs.Prelude.{◌≡◌};
ghost use Rattle.graphql_input_types.specs.Nullables as spec;
ghost use Rattle.graphql_input_types.specs.declared.nullable.Nullable.{Nullable};

use crate::nullable::Nullable;

/// What was not given stands first, then null, then values by their own order.
pub fn values_behind_nulls<T: Ord>()
    ensures { (x y : Nullable T) → ⟦<Nullable<T> as Ord>⟧.cmp x y ≡ spec.order T.cmp x y }
{}
