//! Laws of the definitions: each function's contract is a law, and its body does nothing.

ghost use Rattle.graphql_values.specs.Laws.{SameAsItself, SameEitherWay, SameByAThird};
ghost use Rattle.graphql_values.specs.Laws.{SameByUniqueNames, VariablesAreListed, NoneIsListed};
ghost use Rattle.graphql_values.specs.Laws.{ConstantsStay, NoVariableStays, OnlyMissingValuesFail};

/// Being the same value wherever they stand is an equivalence, since the scalars' equality is one.
pub fn same_value_is_an_equivalence<S: Eq>()
    ensures itself { SameAsItself S.eq }
    ensures either_way { SameEitherWay S.eq }
    ensures by_a_third { SameByAThird S.eq }
{}

/// Input objects in which no name stands twice (GraphQL October 2021, 5.6.3 Input Object Field
/// Uniqueness) are the same exactly if they have equally many fields and each of the one has one of
/// the same name and the same value in the other.
pub fn same_objects_have_the_same_fields<S: PartialEq>()
    ensures { SameByUniqueNames S.eq }
{}

/// The names that `referenced_variables` lists are those of the variables that stand in a value; it
/// lists none exactly where none stands there.
pub fn variables_are_listed<S>()
    ensures listed { VariablesAreListed S }
    ensures none { NoneIsListed S }
{}

/// `into_const` leaves a value without variables as it is. With values that have no variable it
/// gives one that has none. It gives nothing only where a variable of the value has no value.
pub fn variables_are_replaced<S>()
    ensures stay { ConstantsStay S }
    ensures constant { NoVariableStays S }
    ensures fail { OnlyMissingValuesFail S }
{}
