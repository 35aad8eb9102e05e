//! Laws of what a table answers and sets: each function's contract is a law, and its body does
//! nothing.

ghost use Rattle.graphql_records.specs.Laws.{AnswersRespect, IsExact, RefusalsChangeNothing};
ghost use Rattle.graphql_records.specs.Laws.{RefusalsTellDistinctKeys, SettingsRespect};

use graphql_scalars::DefaultScalarValue;

/// Scalars of the default type that are equal are one.
pub fn equal_scalars_are_one()
    ensures { IsExact ⟦<DefaultScalarValue as PartialEq>⟧.eq }
{}

/// To arguments that are the same under each name, in whichever order and wherever they stand, a
/// table gives one answer.
pub fn answers_respect_values()
    ensures { AnswersRespect ⟦<DefaultScalarValue as PartialEq>⟧.eq }
{
    equal_scalars_are_one();
}

/// To arguments that are the same in one order, wherever they stand, a field of a mutation's root
/// gives one answer, and leaves one table.
pub fn settings_respect_values()
    ensures { SettingsRespect ⟦<DefaultScalarValue as PartialEq>⟧.eq }
{
    equal_scalars_are_one();
}

/// Where a field of a mutation's root is refused, the table stays as it was.
pub fn refusals_change_nothing()
    ensures { RefusalsChangeNothing }
{}

/// What is told beside the reason of a refusal has distinct keys: it is nothing (GraphQL October
/// 2021, 7.2.2 Serialized Map Ordering).
pub fn refusals_tell_distinct_keys()
    ensures { RefusalsTellDistinctKeys }
{}
