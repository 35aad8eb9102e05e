//! Runs over the sample in which something fails: a request for memory, a read, a write, or a call
//! of the resolver. What is run is made by calls that hand their errors on, so that a refusal is
//! met wherever it falls.
//!
//! Reads, writes and calls of the resolver fail in the tests (`in_turn`), one in each run. Requests
//! for memory are refused from outside: the program is asked, by lines of standard input, for runs
//! by their names, each with how many requests are to be made and let go before it, and tells how
//! each ended. So one number, that of the request that is refused, meets another request of the run
//! in each case (`refuse-memory`).
#![tactic(auto)]

pub mod alone;
pub mod asked;
pub mod ending;
#[cfg(test)]
mod in_turn;
pub mod lines;
pub mod refusing;
pub mod runs;
pub mod served;
pub mod sink;
pub mod source;
pub mod spending;
pub mod unmade;

use runs::told;
use std::io::{self, Read};
use std::process::ExitCode;

/// Tells how each run of the input ended, a line each.
fn run(rt: &HostRuntime) -> io::Result<ExitCode> {
    let mut asked = String::new(rt.alloc());
    rt.reader().read_to_string(&mut asked)?;
    for line in asked.lines() {
        println!(rt; "{}", told(rt.alloc(), line))?;
    }
    Ok(ExitCode::SUCCESS)
}

fn main(rt: HostRuntime) -> ExitCode {
    run(&rt).unwrap_or(ExitCode::FAILURE)
}
