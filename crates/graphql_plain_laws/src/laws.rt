//! Laws of plain selection sets: each function's contract is a law, and its body does nothing.

ghost use Rattle.graphql_written_out.specs.FinalVariables.{value_in};
ghost use Rattle.graphql_plain_tree.specs.Laws.{Fit};
ghost use Rattle.graphql_plain_tree.specs.StandIns.{skip_true};
ghost use Rattle.graphql_plain_laws.specs.Laws.{PlainGivesTheSame, PlainMerges};
ghost use Rattle.graphql_written_out.specs.Conditions.{left_out};

use graphql_plain_tree::laws::stand_in_leaves_out;
use graphql_values::ScalarValue;
use graphql_written_out::FinalVariables;

/// A plain selection set merges where the set does, whatever is left out.
pub fn plain_merges<S: PartialEq, C>()
    ensures { PlainMerges S C S.eq }
{}

/// Plain selection sets give the same value and the same failures as the sets, where the directives
/// of a stand-in leave out and no directives do not.
pub fn plain_gives_the_same<S, N>()
    ensures { PlainGivesTheSame S N }
{}

/// So it is where selections are left out by `skip` and `include` over the final values of an
/// operation's variables, and a stand-in has the one directive `skip(if: true)`.
pub fn conditions_fit<S: ScalarValue>(variables: &FinalVariables<'_, S>)
    ensures { Fit (left_out S.answer (value_in variables.now)) (skip_true S.of_bool) }
{
    stand_in_leaves_out::<S>();
}
