//! Laws of the values of variables: each function's contract is a law, and its body does nothing.

ghost use Rattle.graphql_variable_checks.specs.Laws.{
  DistinctNamesAreFound,
  GivenValuesConform,
  NonNullHaveValues,
  NoneToldWhereAccepted,
  ToldIsDetermined,
  ValuesAreGivenOrDefaults,
};

use graphql_schema::{Meaning, SchemaScalar};

/// What is told of the values of variables is determined by the types of the schema, the
/// definitions of the operation and the values that are given, whatever the checks of types answer.
pub fn told_of_variables_is_determined<S: SchemaScalar>()
    ensures { ToldIsDetermined ⟦<S as Meaning>⟧.meaning }
{}

/// Nothing is told exactly where each definition accepts what is given for its name.
pub fn accepted_variables_are_not_told<S: SchemaScalar>()
    ensures { NoneToldWhereAccepted ⟦<S as Meaning>⟧.meaning }
{}

/// Where nothing is told, each value that is given for a variable of a known type is its final
/// value, and conforms to the type.
pub fn given_values_conform<S: SchemaScalar>()
    ensures { GivenValuesConform ⟦<S as Meaning>⟧.meaning }
{}

/// Where nothing is told, a variable of a known type without `null` has a final value.
pub fn non_null_variables_have_values<S: SchemaScalar>()
    ensures { NonNullHaveValues ⟦<S as Meaning>⟧.meaning }
{}

/// The final value of a variable is what is given for it, also where that is `null`. Where nothing
/// is given it is the default of the definition of the variable's name, and where there is none,
/// there is no value.
pub fn final_values_are_given_or_defaults<S>()
    ensures { ValuesAreGivenOrDefaults S }
{}

/// Where the names of variables are distinct, each definition is that of its name.
pub fn definitions_of_distinct_names_are_found<S>()
    ensures { DistinctNamesAreFound S }
{}
