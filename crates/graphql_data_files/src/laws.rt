//! A law of where faults stand: the function's contract is the law, and its body does nothing.

ghost use Rattle.graphql_data_files.specs.Laws.{ToldFaultsHavePlaces};

/// Where the first fault of a file stands at a member, at a record or at the root's id, so that it
/// is any but `NotJson` and want of memory, what [`place_of_fault`](crate::place_of_fault) tells of
/// it is a place.
pub fn told_faults_have_places()
    ensures { ToldFaultsHavePlaces }
{}
