//! Laws of joined data: each function's contract is a law, and its body does nothing.

ghost use Rattle.graphql_joined_data.specs.Joining.{AreOneWhereEqual};
ghost use Rattle.graphql_joined_data.specs.Laws.{DifferingHaveNoJoin};

use graphql_scalars::DefaultScalarValue;

/// Two data that differ somewhere, as [`crate::join_data`] says of where they do, have no join.
pub fn differing_have_no_join<S: Eq>()
    ensures { DifferingHaveNoJoin S.eq }
{}

/// Scalars of the default type that are equal are one, so that [`crate::join_data`] gives the join
/// of their data.
pub fn default_scalars_are_one_where_equal()
    ensures { AreOneWhereEqual ⟦<DefaultScalarValue as PartialEq>⟧.eq }
{}
