//! Laws of answers: each function's contract is a law, and its body does nothing.

ghost use Rattle.graphql_answers.specs.Lines.{AnswersHaveDistinctKeys, PlainHasDistinctKeys};
ghost use Rattle.graphql_answers.specs.Lines.{ValuesAreLines};

use graphql_scalars::ScalarValue;

/// The JSON of a value holds no line feed, whatever its texts hold: with one behind it, it is one
/// line.
pub fn values_are_lines()
    ensures { ValuesAreLines }
{}

/// Each object in the answer to a request has distinct keys, however deep (GraphQL October 2021,
/// 7.2.2 Serialized Map Ordering), where those in its data have, and those in what is told beside
/// its errors.
pub fn answers_have_distinct_keys<S: ScalarValue>()
    ensures { AnswersHaveDistinctKeys S.answer }
{}

/// The answer that tells a plain text has distinct keys: it has one.
pub fn plain_answers_have_distinct_keys()
    ensures { PlainHasDistinctKeys }
{}
