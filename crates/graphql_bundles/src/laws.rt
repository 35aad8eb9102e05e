//! The law of bundles: a function's contract is a law, and its body does nothing.

ghost use Rattle.graphql_bundles.specs.Laws.{EndMeetsContract};

/// Where going through bundles ends, the errors are as the rule promises: where all were gone
/// through, and where something is told.
pub fn end_meets_contract<S: Eq, C>()
    ensures { EndMeetsContract S C S.eq }
{}
