//! Laws of evaluation: each function's contract is a law, and its body does nothing.

ghost use Rattle.graphql_semantics.specs.Laws.{DataFit, DataHaveDistinctKeys, DataOfGroups};
ghost use Rattle.graphql_semantics.specs.Laws.{DepthsAlike, FailuresAreExact, FailuresStandBelow};
ghost use Rattle.graphql_semantics.specs.Laws.{FailuresTellDistinctKeys, NoDataFails};
ghost use Rattle.graphql_semantics.specs.Laws.{RepeatsGiveNothing, TurnsOfGroups};

/// Each depth of selection sets that suffices gives the same value and the same failures.
pub fn depths_are_alike<S, N>()
    ensures { DepthsAlike S N }
{}

/// Data fit the selection sets at the types that are declared: each object has one member for each
/// response key, in the order of first appearance; each value is of its type, and `null` stands
/// only where the type lets it.
pub fn data_fit<S, N>()
    ensures { DataFit S N }
{}

/// Each object in data has distinct keys, however deep.
pub fn data_have_distinct_keys<S, N>()
    ensures { DataHaveDistinctKeys S N }
{}

/// The path of each failure begins with the path at which selections are evaluated.
pub fn failures_stand_below<S, N>()
    ensures { FailuresStandBelow S N }
{}

/// Where there are no data, something failed.
pub fn no_data_fails<S, N>()
    ensures { NoDataFails S N }
{}

/// The failures are just what fails: each is an error of the resolver, an answer that does not fit
/// the declared type, or the resolver's own `null` where the type keeps it out, and is told at the
/// path and at the start of the first field of its response key; and each of these is told.
pub fn failures_are_exact<S, N>()
    ensures { FailuresAreExact S N }
{}

/// What is told beside failures has distinct keys, however deep, where what each answer tells
/// beside an error has (GraphQL October 2021, 7.2.2 Serialized Map Ordering).
pub fn failures_tell_distinct_keys<S, N>()
    ensures { FailuresTellDistinctKeys S N }
{}

/// Selection sets of which some stand there before give nothing more: the same data, and the same
/// failures.
pub fn repeats_give_nothing<S, N>()
    ensures { RepeatsGiveNothing S N }
{}

/// Selection sets give what the groups of their fields give, each answered over what the selection
/// sets below it give, also where fields are left out that stand there before: so each fragment is
/// entered once for an object type, however often it is spread.
pub fn data_of_groups<S, N>()
    ensures { DataOfGroups S N }
{}

/// A walk that answers selection sets takes the turns that the groups of their fields take, each
/// over the selection sets below it, also where fields are left out that stand there before.
pub fn turns_of_groups<S, N>()
    ensures { TurnsOfGroups S N }
{}
