//! The groups of cases below a schema.

use crate::asked::Asked;
use crate::documents::{answer_count, answer_document};
use crate::faults::{Fault, answer_kind};
use crate::literals::{answer_check, answer_literal};
use crate::variables::answer_values;
use graphql_schema::RootNode;
use graphql_values::DefaultScalarValue;
use std::alloc::{AllocError, Global};

pub type Root = RootNode<DefaultScalarValue>;

/// Tells the kind of a text's fault, as the other answers are told.
fn answer_fault(alloc: Global, case: &str, told: &mut String) -> Result<(), Fault> {
    answer_kind(alloc, case, told)?;
    Ok(())
}

/// Tells of a case what is asked.
fn answer_asked(
    alloc: Global,
    root: &Root,
    asked: Asked,
    case: &str,
    told: &mut String,
) -> Result<(), Fault> {
    match asked {
        Asked::Document(sought) => answer_document(alloc, root, sought, case, told),
        Asked::Count(sought) => answer_count(alloc, root, sought, case, told),
        Asked::FaultKind => answer_fault(alloc, case, told),
        Asked::Variables => answer_values(alloc, root, case, told),
        Asked::Literal(source) => answer_literal(alloc, root, source, case, told),
        Asked::Check => answer_check(alloc, root, case, told),
    }
}

/// Tells of a case what is asked, or what is wrong with its text.
fn answer_case(
    alloc: Global,
    root: &Root,
    asked: Asked,
    case: &str,
    told: &mut String,
) -> Result<(), AllocError> {
    match answer_asked(alloc, root, asked, case, told) {
        Ok(()) => Ok(()),
        Err(fault) => write!(told, "=> {fault}\n"),
    }
}

/// The cases of a group, each with its answer.
fn answer_cases(
    alloc: Global,
    root: &Root,
    asked: Asked,
    cases: &str,
    told: &mut String,
) -> Result<(), AllocError> {
    for case in cases.split("\n\n") {
        if !case.is_empty() {
            write!(told, "{case}\n")?;
            answer_case(alloc, root, asked, case, told)?;
            told.push('\n')?;
        }
    }
    Ok(())
}

/// The cases below a heading.
fn answer_group(
    alloc: Global,
    root: &Root,
    heading: &str,
    cases: &str,
    told: &mut String,
) -> Result<(), AllocError> {
    write!(told, "== {heading}\n\n")?;
    let (words, _) = heading.split_once(": ").unwrap_or((heading, ""));
    match Asked::of(words) {
        Some(asked) => answer_cases(alloc, root, asked, cases, told),
        None => told.push_str("=> no such question\n\n"),
    }
}

/// The groups, each below what is asked of its cases, and behind a colon what they have in common.
pub fn answer_groups(
    alloc: Global,
    root: &Root,
    groups: &str,
    told: &mut String,
) -> Result<(), AllocError> {
    for group in groups.split("== ") {
        if let Some((heading, cases)) = group.split_once("\n\n") {
            answer_group(alloc, root, heading, cases, told)?;
        }
    }
    Ok(())
}
