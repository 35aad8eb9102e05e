//! Laws of mutations: each function's contract is a law, and its body asks for the laws below it.

ghost use Rattle.graphql_mutation.specs.Laws.{
  AskingOnlyIsQuerying,
  RepeatsChangeNothing,
  RunFailuresAreExact,
  RunsFit,
  RunsHaveDistinctKeys,
  RunsWithoutDataFail,
};

use graphql_semantics::laws::{
    data_fit, data_have_distinct_keys, failures_are_exact, failures_tell_distinct_keys,
    no_data_fails,
};

/// Selection sets give and change what the groups of their fields do, also where fields are left
/// out that stand there before: so each fragment is entered once, however often it is spread.
pub fn repeats_change_nothing<S, N, X>()
    ensures { RepeatsChangeNothing S N X }
{}

/// A mutation that changes nothing, and is answered at the root what a node answers, gives what a
/// query gives on that node: the same data, and where there are data the same failures. Where a
/// `null` reaches the root, the failures are the first of the query's, since the later fields are
/// not asked.
pub fn asking_only_is_querying<S, N, X>()
    ensures { AskingOnlyIsQuerying S N X }
{}

/// Each object in the data of a mutation has distinct keys, however deep, and so has what is told
/// beside its failures, where what each answer tells beside an error has (GraphQL October 2021,
/// 7.2.2 Serialized Map Ordering).
pub fn runs_have_distinct_keys<S, N, X>()
    ensures { RunsHaveDistinctKeys S N X }
{
    data_have_distinct_keys::<S, N>();
    failures_tell_distinct_keys::<S, N>();
}

/// The data of a mutation fit its selection sets: they have a member for each group of the root, in
/// order, and at each place a value of the type that is declared there, on the context that the
/// group leaves. So no null stands at a place that is declared without null (GraphQL October 2021,
/// 6.2.2 Mutation, 6.4.4 Handling Field Errors).
pub fn runs_fit<S, N, X>()
    ensures { RunsFit S N X }
{
    data_fit::<S, N>();
}

/// The failures of a mutation are just what fails of its groups, up to the first whose null reaches
/// the root.
pub fn run_failures_are_exact<S, N, X>()
    ensures { RunFailuresAreExact S N X }
{
    failures_are_exact::<S, N>();
}

/// Where a mutation has no data, something failed.
pub fn runs_without_data_fail<S, N, X>()
    ensures { RunsWithoutDataFail S N X }
{
    no_data_fails::<S, N>();
}
