//! Laws of the definitions: each function's contract is a law, and its body does nothing.

ghost use Rattle.graphql_json.specs.Laws.{JsonReadsBack, KeysKeepValues};
ghost use Rattle.graphql_lines.specs.Laws.{BadNumbersAreRefused, JsonHoldsNoVariable};

use graphql_scalars::ScalarValue;

/// JSON data stand for no input value exactly where a number anywhere in them is not held as a
/// whole one, or lies outside 32 bits (GraphQL October 2021, 3.5.1 Int); and so do the members of
/// an object of variables, so that `BadNumber` is told of no other.
pub fn bad_numbers_are_refused<S: ScalarValue>()
    ensures { BadNumbersAreRefused S.of_bool S.of_int S.of_text }
{}

/// No variable stands in an input value that JSON data stand for (GraphQL October 2021, 2.10
/// Variables).
pub fn json_holds_no_variable<S: ScalarValue>()
    ensures { JsonHoldsNoVariable S.of_bool S.of_int S.of_text }
{}
