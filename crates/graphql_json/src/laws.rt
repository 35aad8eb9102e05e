//! Laws of the definitions: each function's contract is a law, and its body does nothing.

ghost use Rattle.graphql_json.specs.Laws.{JsonReadsBack, KeysKeepValues};

use graphql_scalars::ScalarValue;

/// The JSON that `value_to_json` writes of a value is read by `serde_json` as the value's data
/// (GraphQL October 2021, 7.2 Serialization Format), where lists and objects nest no deeper than
/// 127, as deep as it reads, and integers have 32 bits, as those that `try_to_int` answers do.
pub fn json_reads_back<S: ScalarValue>()
    ensures { JsonReadsBack S.answer }
{}

/// Where an object's keys are distinct, its data has under each of them the data of its own value,
/// and under no other key anything (GraphQL October 2021, 7.2.2 Serialized Map Ordering).
pub fn keys_keep_values<S: ScalarValue>()
    ensures { KeysKeepValues S.answer }
{}
