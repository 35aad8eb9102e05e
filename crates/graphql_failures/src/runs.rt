//! The runs in which a request for memory is refused from outside.

use crate::asked::{Asked, ended};
use crate::ending::Ending;
use crate::lines::{CHANGES, Lines, PLAIN_TEXTS};
use crate::served::{Failing, Run};
use crate::spending::spend;
use crate::unmade::Unmade;
use std::alloc::Global;

/// How many bytes a read gives, at most: all that there are.
const STEP: usize = 65_536;

/// How it ends that a service is made, after so many requests for memory.
fn made(alloc: Global, spent: u32) -> Result<Ending, Unmade> {
    spend(alloc, spent)?;
    ended(alloc, Asked::Service)
}

/// How lines are answered, or told their plain texts, after so many requests for memory.
fn over(alloc: Global, lines: Lines, spent: u32) -> Result<Ending, Unmade> {
    let run = Run {
        lines,
        step: STEP,
        failing: Failing::None,
        number: 0,
        spent,
    };
    ended(alloc, Asked::Lines(&run))
}

/// How the run of this name ends, after so many requests for memory.
fn named(alloc: Global, name: &str, spent: u32) -> Result<Ending, Unmade> {
    match name {
        "make" => made(alloc, spent),
        "serve" => over(alloc, CHANGES, spent),
        "plain" => over(alloc, PLAIN_TEXTS, spent),
        "execute" => ended(alloc, Asked::Mutation(spent)),
        "plain_request" => ended(alloc, Asked::PlainText(spent)),
        _ => Err(Unmade::Refused),
    }
}

/// How a run ended, in words.
fn words_for(ended: Result<Ending, Unmade>) -> &'static str {
    match ended {
        Ok(Ending::Answered) => "answered",
        Ok(Ending::Stopped) => "refused whole",
        Ok(Ending::OtherError) => "another error",
        Ok(Ending::OtherAnswers) => "other answers",
        Ok(Ending::OtherRecords) => "other records",
        Err(Unmade::Memory) => "refused before",
        Err(Unmade::Unspent) => "not begun",
        Err(Unmade::Refused) => "nothing to run",
    }
}

/// How the run ended that a line asks for by its name, a space, and how many requests for memory
/// are to be spent before it: where it is to be made, before anything is; else when all is made.
pub fn told(alloc: Global, line: &str) -> &'static str {
    let Some((name, spent)) = line.split_once(' ') else {
        return "not a run";
    };
    match spent.parse::<u32>() {
        Ok(spent) => words_for(named(alloc, name, spent)),
        Err(_) => "not a number",
    }
}
