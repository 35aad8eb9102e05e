//! How runs end.

use crate::lines::Lines;
use graphql_sample::SampleRecords;

/// How a run ended.
#[derive(Clone, Copy, Debug, PartialEq, Eq)]
pub enum Ending {
    /// Nothing failed: each line has its answer, and left what it should.
    Answered,

    /// What failed was told. The answers before it are written, and what is left is what their
    /// lines leave.
    Stopped,

    /// Another error was told.
    OtherError,

    /// Other answers were written.
    OtherAnswers,

    /// Other records are left.
    OtherRecords,
}

/// Whether these records are what is left by so many of the lines.
pub fn is_left(records: &SampleRecords, lines: &Lines, count: usize) -> bool {
    let Some((name, calls)) = lines.left.get(count) else {
        return false;
    };
    match records.records.first() {
        Some(human) => match &human.name {
            Some(told) => told.as_str() == *name && records.root_calls == *calls,
            None => false,
        },
        None => false,
    }
}

/// How a run ended that told of this failure, if these are right.
pub fn judged(answers: bool, records: bool, right: Ending) -> Ending {
    if !answers {
        return Ending::OtherAnswers;
    }
    if !records {
        return Ending::OtherRecords;
    }
    right
}
