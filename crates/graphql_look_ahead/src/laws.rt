//! Laws of the children of lists of selections: each function's contract is a law, and its body
//! does nothing.

ghost use Rattle.graphql_look_ahead.specs.Laws.{ChildrenAreUnique, ChildrenExist};

/// Where fragments are without a cycle, each list of selections has a list of children (GraphQL
/// October 2021, 2.4 Selection Sets, 2.8 Fragments), whatever its directives leave out and to
/// whichever type it is bound. So what `LookAheadSelection::child` says of the children, whatever
/// they are, is said of some.
pub fn children_exist<S>()
    ensures { ChildrenExist S }
{}

/// A list of selections has one list of children at most, so `LookAheadSelection::children` and
/// `child` speak of the same.
pub fn children_are_unique<S>()
    ensures { ChildrenAreUnique S }
{}
