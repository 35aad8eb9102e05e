//! What the rules say of documents.

use crate::asked::{Judge, Sought};
use crate::events::{count_events, tell_events};
use crate::faults::{Fault, push_place};
use crate::groups::Root;
use crate::repeated::written_out;
use graphql_language::parse_document_source;
use graphql_text::Items;
use graphql_tree::Definition;
use graphql_validation::rules::overlapping_fields_can_be_merged::{
    self as merging, overlapping_fields_by_pairs, overlapping_fields_can_be_merged,
};
use graphql_validation::rules::{document_errors, no_fragment_cycles, no_unused_fragments};
use graphql_validation::{
    MultiVisitorNil, RuleError, ValidatorContext, first_stage_errors, root_node_errors,
    validation_errors, visit, visit_all_rules,
};
use graphql_values::DefaultScalarValue;
use std::alloc::{AllocError, Global};

/// The errors of all rules, as they are left in a context.
fn context_errors(
    alloc: Global,
    root: &Root,
    document: &[Definition<'_>],
) -> Result<Items<RuleError>, AllocError> {
    let mut context = ValidatorContext::new(alloc, root.schema(), document)?;
    visit_all_rules(&mut context);
    context.into_errors()
}

/// The errors of the rule that fields merge, by a visitor.
fn merge_errors(
    alloc: Global,
    root: &Root,
    document: &[Definition<'_>],
) -> Result<Items<RuleError>, AllocError> {
    let mut context = ValidatorContext::new(alloc, root.schema(), document)?;
    let mut rule = merging::factory();
    visit(&mut rule, &mut context);
    context.into_errors()
}

/// The errors of two rules over all fragments of a document, by visitors.
fn fragment_errors(
    alloc: Global,
    root: &Root,
    document: &[Definition<'_>],
) -> Result<Items<RuleError>, AllocError> {
    let mut context = ValidatorContext::new(alloc, root.schema(), document)?;
    let rules = MultiVisitorNil.with(no_unused_fragments::factory());
    let mut rules = rules.with(no_fragment_cycles::factory());
    visit(&mut rules, &mut context);
    context.into_errors()
}

/// The errors of a document.
fn errors_of(
    alloc: Global,
    root: &Root,
    judge: Judge,
    document: &[Definition<'_>],
) -> Result<Items<RuleError>, AllocError> {
    match judge {
        Judge::FirstStage => first_stage_errors(alloc, root.schema(), document),
        Judge::Definitions => document_errors(alloc, root.schema(), document),
        Judge::AllRules => validation_errors(alloc, root.schema(), document),
        Judge::Context => context_errors(alloc, root, document),
        Judge::RootNode => root_node_errors(alloc, root, document),
        Judge::Merging => merge_errors(alloc, root, document),
        Judge::MergingAlone => overlapping_fields_can_be_merged(alloc, root.schema(), document),
        Judge::Fragments => fragment_errors(alloc, root, document),
    }
}

/// What the error says, and the places that it names.
fn push_error(told: &mut String, error: &RuleError) -> Result<(), AllocError> {
    write!(told, "=> {} at", error.message())?;
    for place in error.locations() {
        push_place(told, *place)?;
    }
    told.push('\n')
}

/// The errors, a line each.
pub fn push_errors(told: &mut String, errors: &[RuleError]) -> Result<(), AllocError> {
    if errors.is_empty() {
        return told.push_str("=> no errors\n");
    }
    for error in errors {
        push_error(told, error)?;
    }
    Ok(())
}

/// Tells the errors of a document.
fn tell_errors(
    alloc: Global,
    root: &Root,
    judge: Judge,
    document: &[Definition<'_>],
    told: &mut String,
) -> Result<(), AllocError> {
    let errors = errors_of(alloc, root, judge, document)?;
    push_errors(told, errors.as_slice())
}

/// Tells how many errors a document has.
fn count_errors(
    alloc: Global,
    root: &Root,
    judge: Judge,
    document: &[Definition<'_>],
    told: &mut String,
) -> Result<(), AllocError> {
    let errors = errors_of(alloc, root, judge, document)?;
    write!(told, "=> errors: {}\n", errors.len())
}

/// Tells how many times the rule that fields merge, the first of a list of visitors, compares two
/// fields of a document.
fn count_comparisons(
    alloc: Global,
    root: &Root,
    document: &[Definition<'_>],
    told: &mut String,
) -> Result<(), AllocError> {
    let mut context = ValidatorContext::new(alloc, root.schema(), document)?;
    let mut rules = MultiVisitorNil.with(merging::factory());
    visit(&mut rules, &mut context);
    let _errors = context.into_errors()?;
    write!(told, "=> comparisons: {}\n", rules.first().comparisons())
}

/// What the errors of the rule that fields merge say.
fn verdict(errors: &[RuleError]) -> &'static str {
    if errors.is_empty() {
        "merge"
    } else {
        "do not merge"
    }
}

/// Tells whether the fields of a document merge, by bundles of selection sets and by comparing each
/// two.
fn tell_merging(
    alloc: Global,
    root: &Root,
    document: &[Definition<'_>],
    told: &mut String,
) -> Result<(), AllocError> {
    let bundled = overlapping_fields_can_be_merged(alloc, root.schema(), document)?;
    let paired = overlapping_fields_by_pairs(alloc, root.schema(), document)?;
    let by_bundles = verdict(bundled.as_slice());
    let by_pairs = verdict(paired.as_slice());
    write!(told, "=> {by_bundles} by bundles, {by_pairs} by pairs\n")
}

/// Tells how many definitions a document has.
fn count_definitions(document: &[Definition<'_>], told: &mut String) -> Result<(), AllocError> {
    write!(told, "=> definitions: {}\n", document.len())
}

/// Tells of a document what is sought.
fn tell(
    alloc: Global,
    root: &Root,
    sought: Sought,
    document: &[Definition<'_>],
    told: &mut String,
) -> Result<(), Fault> {
    let answered = match sought {
        Sought::Definitions => count_definitions(document, told),
        Sought::Events => tell_events(alloc, root, document, told),
        Sought::Comparisons => count_comparisons(alloc, root, document, told),
        Sought::Merging => tell_merging(alloc, root, document, told),
        Sought::Errors(judge) => tell_errors(alloc, root, judge, document, told),
    };
    answered?;
    Ok(())
}

/// Tells how many of what is sought a document has.
fn count(
    alloc: Global,
    root: &Root,
    sought: Sought,
    document: &[Definition<'_>],
    told: &mut String,
) -> Result<(), Fault> {
    let answered = match sought {
        Sought::Definitions => count_definitions(document, told),
        Sought::Events => count_events(alloc, root, document, told),
        Sought::Comparisons => count_comparisons(alloc, root, document, told),
        Sought::Merging => tell_merging(alloc, root, document, told),
        Sought::Errors(judge) => count_errors(alloc, root, judge, document, told),
    };
    answered?;
    Ok(())
}

/// Tells of a document's text what is sought.
pub fn answer_document(
    alloc: Global,
    root: &Root,
    sought: Sought,
    text: &str,
    told: &mut String,
) -> Result<(), Fault> {
    match parse_document_source::<DefaultScalarValue>(alloc, text) {
        Ok(document) => tell(alloc, root, sought, document.as_slice(), told),
        Err(fault) => Err(fault),
    }
}

/// Tells how long a text is with what is repeated written out, and how many of what is sought it
/// has.
pub fn answer_count(
    alloc: Global,
    root: &Root,
    sought: Sought,
    lines: &str,
    told: &mut String,
) -> Result<(), Fault> {
    let text = written_out(alloc, lines)?;
    write!(told, "=> bytes: {}\n", text.len())?;
    match parse_document_source::<DefaultScalarValue>(alloc, text.as_str()) {
        Ok(document) => count(alloc, root, sought, document.as_slice(), told),
        Err(fault) => Err(fault),
    }
}
