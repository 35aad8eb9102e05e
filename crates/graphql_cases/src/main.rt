//! Answers cases from standard input: what the public calls say of schemas, documents, values of
//! variables and literals.
//!
//! The input is a list of schemas, and below each one its cases.
//!
//! - A schema stands below a line `== schema`, up to an empty line, written as the standard has it
//!   (`schema_text`). It is told whether requests can be executed over it, or why it is refused.
//! - Groups of cases stand below a line `== ` with what is asked of them (`asked`). What stands
//!   behind a colon there is for readers.
//! - Cases are parted by empty lines, so none has one within. A document is a case by itself.
//!   Values of variables stand behind their document, in a line `with a: 1 b: [2]`. A literal
//!   stands behind its type, `[Int!] = [1]`; a number behind the type is how many items the list
//!   has.
//! - In literals, and where documents are counted, lines follow each other without line feeds, and
//!   a line `30 * words` stands for the words thirty times (`repeated`).
//!
//! The output is the input with the answers in lines `=> ` below each case, so that it shows both.
#![tactic(auto)]

mod asked;
mod checked;
mod documents;
mod events;
mod faults;
mod groups;
mod literals;
mod repeated;
mod schema_text;
mod schemas;
mod variables;

use faults::Fault;
use schemas::answer_schema;
use std::alloc::Global;
use std::io::{self, Read};
use std::process::ExitCode;

/// The cases with their answers, or what is wrong with a schema's text.
fn answers(alloc: Global, cases: &str) -> Result<String, Fault> {
    let mut told = String::new(alloc);
    let mut texts = cases.split("== schema\n");
    if let Some(preface) = texts.next() {
        told.push_str(preface)?;
    }
    for text in texts {
        answer_schema(alloc, text, &mut told)?;
    }
    Ok(told)
}

/// Tells on standard error what is wrong with a schema's text.
fn refuse(rt: &HostRuntime, fault: &Fault) -> io::Result<ExitCode> {
    eprintln!(rt; "{fault}")?;
    Ok(ExitCode::FAILURE)
}

/// Writes the answers to standard output.
fn tell(rt: &HostRuntime, told: &str) -> io::Result<ExitCode> {
    print!(rt; "{told}")?;
    Ok(ExitCode::SUCCESS)
}

/// Answers the cases of the input.
fn run(rt: &HostRuntime) -> io::Result<ExitCode> {
    let alloc = rt.alloc();
    let mut cases = String::new(alloc);
    rt.reader().read_to_string(&mut cases)?;
    match answers(alloc, cases.as_str()) {
        Ok(told) => tell(rt, told.as_str()),
        Err(fault) => refuse(rt, &fault),
    }
}

fn main(rt: HostRuntime) -> ExitCode {
    run(&rt).unwrap_or(ExitCode::FAILURE)
}
