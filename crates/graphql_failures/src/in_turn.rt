//! Each read, each write and each call of the resolver fails, one in each run, until a run meets
//! none.

use crate::asked::{Asked, ended};
use crate::ending::Ending;
use crate::lines::{CHANGES, Lines, MORE_CHANGES, PLAIN_TEXTS};
use crate::served::{Failing, Run};
use crate::unmade::Unmade;
use std::alloc::Global;
use std::process::Abort;

/// Lines, how many bytes a read gives of them, what fails, and how many runs end by that.
type Row = (Lines, usize, Failing, u64);

/// More bytes than there are.
const ALL: usize = 65_536;

/// More calls than a run has.
const MOST: u64 = 1_000;

/// Three bytes a read, and one read behind the last; or all bytes at once.
const READS: &[Row] = &[
    (MORE_CHANGES, 3, Failing::Read, 56),
    (MORE_CHANGES, ALL, Failing::Read, 2),
    (PLAIN_TEXTS, 3, Failing::Read, 61),
];

/// A byte a write.
const WRITES: &[Row] = &[
    (MORE_CHANGES, 3, Failing::Write, 100),
    (MORE_CHANGES, ALL, Failing::Write, 100),
    (MORE_CHANGES, 3, Failing::EmptyWrite, 100),
    (PLAIN_TEXTS, 3, Failing::Write, 140),
    (PLAIN_TEXTS, ALL, Failing::EmptyWrite, 140),
];

/// A field of a mutation, and fields of what it answers and of queries: each is asked once.
const ANSWERS: &[Row] = &[
    (CHANGES, 3, Failing::Answer, 4),
    (CHANGES, ALL, Failing::Answer, 4),
    (MORE_CHANGES, ALL, Failing::Answer, 6),
    (PLAIN_TEXTS, ALL, Failing::Answer, 0),
];

/// How many runs ended by the call that failed in them, another one in each, and how the run ended
/// that met none.
fn ended_in_turn(alloc: Global, row: &Row) -> Result<(u64, Ending), Unmade> {
    for number in 1..MOST {
        let run = Run {
            lines: row.0,
            step: row.1,
            failing: row.2,
            number,
            spent: 0,
        };
        let ending = ended(alloc, Asked::Lines(&run))?;
        if ending != Ending::Stopped {
            return Ok((number - 1, ending));
        }
    }
    Ok((MOST, Ending::Stopped))
}

/// Asserts how many runs end by what fails in them, and that the next one is answered.
fn end_in_turn(rt: &impl Abort, alloc: Global, rows: &[Row]) -> Result<(), Unmade> {
    for row in rows {
        let (ended, last) = ended_in_turn(alloc, row)?;
        assert_eq!(rt; last, Ending::Answered);
        assert_eq!(rt; ended, row.3);
    }
    Ok(())
}

#[test]
fn each_read_failing(rt: HostRuntime) -> Result<(), Unmade> {
    end_in_turn(&rt, rt.alloc(), READS)
}

#[test]
fn each_write_failing(rt: HostRuntime) -> Result<(), Unmade> {
    end_in_turn(&rt, rt.alloc(), WRITES)
}

#[test]
fn each_answer_refused(rt: HostRuntime) -> Result<(), Unmade> {
    end_in_turn(&rt, rt.alloc(), ANSWERS)
}
