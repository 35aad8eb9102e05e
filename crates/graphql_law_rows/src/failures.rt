//! Where failures of an evaluation stand.

ghost use Rattle.std.specs.Prelude.{◌≡◌, [], ◌∷◌};
ghost use Rattle.graphql_semantics.specs.Failing.{IsAt};
ghost use Rattle.graphql_law_rows.specs.SampleFailures as spec;

use graphql_semantics::laws::failures_stand_below;

/// A field of a friend, which has no answer, is the only one that fails, and its path begins with
/// that of the friend.
pub fn field_of_a_friend_fails()
    ensures told { spec.failures ≡ spec.failure ∷ [] }
    ensures below { IsAt spec.path spec.failure }
{
    failures_stand_below::<u8, bool>();
}
