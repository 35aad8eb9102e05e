//! Spreads of fragments that a document has not.

ghost use Rattle.std.specs.Prelude.{◌∷◌, [], not};
ghost use Rattle.std.specs.Option.{is_some};
ghost use Rattle.graphql_tree.specs.Definitions.{fragment_named};
ghost use Rattle.graphql_rule_errors.specs.Places.{error_if};
ghost use Rattle.graphql_visitors.specs.Reports.{Reports};
ghost use Rattle.graphql_visitors.specs.Subjects.{subject_of};

use graphql_occurrences::{Event, Node};
use graphql_rule_errors::joined;
use graphql_schema::SchemaScalar;
use graphql_text::{Spanning, Text, TextRef};
use graphql_visitors::{Local, LocalRule, ValidatorContext};
use std::alloc::{AllocError, Global};

/// The document has each fragment that is spread (GraphQL October 2021, 5.5.2.1 Fragment Spread
/// Target Defined).
///
/// An error names the start of the fragment's name in the spread.
#[derive(Drop)]
pub struct KnownFragmentNames;

/// The rule, as a visitor.
pub fn factory() -> Local<KnownFragmentNames> {
    Local(KnownFragmentNames)
}

/// What is said of a spread. An error is want of memory.
fn message(alloc: Global, fragment: &str) -> Result<Text, AllocError> {
    joined(alloc, &["Unknown fragment: \"", fragment, "\""])
}

/// Reports the name of a fragment, if the document has none of this name.
fn check<'a, 't, S: SchemaScalar>(
    context: &mut ValidatorContext<'a, 't, S>,
    name: &Spanning<TextRef<'t>>,
)
    ensures { Reports
        (error_if (not (is_some (fragment_named (subject_of context.old).document name.now.item)))
        (name.now.span.start ∷ [])) context.old context.new }
{
    if !context.is_known_fragment(name.item.as_str()) {
        let text = message(context.alloc(), name.item.as_str());
        context.report_error(text, &[name.span.start]);
    }
}

impl<S: SchemaScalar> LocalRule<S> for KnownFragmentNames {
    ghost use Rattle.graphql_rules.specs.KnownFragmentNames.{known_fragment_names_faults};

    ghost says = { known_fragment_names_faults };

    fn tell<'a, 't>(&self, context: &mut ValidatorContext<'a, 't, S>, event: &Event<'a, 't, S>) {
        match event {
            Event::Enter(Node::FragmentSpread(spread)) if context.parent_type().is_some() => {
                check(context, &spread.item.name);
            }
            _ => {}
        }
    }
}
