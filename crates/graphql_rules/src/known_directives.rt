//! Directives that are unknown, or stand where they may not.

ghost use Rattle.std.specs.Prelude.{◌≡◌};
ghost use Rattle.std.specs.Option.{option_copied};
ghost use Rattle.graphql_schema.specs.Directives.{is_place};
ghost use Rattle.graphql_visitors.specs.Reports.{Reports};
ghost use Rattle.graphql_visitors.specs.Rules.{told_at};
ghost use Rattle.graphql_visitors.specs.Subjects.{seen_in, subject_of};
ghost use Rattle.graphql_rules.specs.KnownDirectives.{known_directives_faults, misplaced};

use graphql_occurrences::{Event, Node};
use graphql_schema::{DirectiveLocation, DirectiveType, SchemaScalar};
use graphql_text::{Spanning, Text};
use graphql_tree::Directive;
use graphql_visitors::{Local, LocalRule, ValidatorContext};
use std::alloc::{AllocError, Global};

/// A directive that the schema lacks, or that may not stand where it does (GraphQL October 2021,
/// 5.7.1 Directives Are Defined, 5.7.2 Directives Are In Valid Locations). Names the place of its
/// `@`.
#[derive(Drop)]
pub struct KnownDirectives;

/// The visitor of the rule.
pub fn factory() -> Local<KnownDirectives> {
    Local(KnownDirectives)
}

impl<S: SchemaScalar> LocalRule<S> for KnownDirectives {
    ghost use Rattle.graphql_visitors.specs.Reports.{Reports};
    ghost use Rattle.graphql_visitors.specs.Rules.{told_at};
    ghost use Rattle.graphql_visitors.specs.Subjects.{seen_in, subject_of};
    ghost use Rattle.graphql_rules.specs.KnownDirectives.{known_directives_faults};

    ghost says = { known_directives_faults };

    fn tell<'a, 't>(&self, context: &mut ValidatorContext<'a, 't, S>, event: &Event<'a, 't, S>)
        ensures { Reports (told_at known_directives_faults (subject_of context.old)
            (seen_in context.old event.now)) context.old context.new }
    {
        match event {
            Event::Enter(node) => report_node(context, node),
            Event::Leave(_) => {}
        }
    }
}

/// Reports a node, if it is a directive that is unknown or may not stand there.
fn report_node<'a, 't, S: SchemaScalar>(
    context: &mut ValidatorContext<'a, 't, S>,
    node: &Node<'a, 't, S>,
)
    ensures { Reports (told_at known_directives_faults (subject_of context.old)
        (seen_in context.old (Event.Enter node.now))) context.old context.new }
{
    if let Node::Directive(location, known, directive) = node {
        report_directive(context, *location, *known, directive);
    }
}

/// Reports a directive, unless it is known and may stand there.
fn report_directive<'a, 't, S: SchemaScalar>(
    context: &mut ValidatorContext<'a, 't, S>,
    location: DirectiveLocation,
    known: Option<&'a DirectiveType<S>>,
    directive: &'a Spanning<Directive<'t, S>>,
)
    ensures { Reports
        (misplaced (record {
          name = directive.now.item.name.item;
          place = directive.now.span.start;
          location = location;
          declared = option_copied known.entry;
        })) context.old context.new }
{
    let name = directive.item.name.item.as_str();
    let places = [directive.span.start];
    match known {
        None => context.report_error(unknown(context.alloc(), name), &places),
        Some(known) => {
            if !may_stand(known, location) {
                context.report_error(misplaced_at(context.alloc(), name, location), &places);
            }
        }
    }
}

/// Whether a directive may stand at this place.
fn may_stand<S>(known: &DirectiveType<S>, location: DirectiveLocation) -> bool
    ensures { result ≡ is_place known.now.locations location }
{
    known.has_location(location)
}

/// What is said of a directive that the schema lacks.
fn unknown(alloc: Global, name: &str) -> Result<Text, AllocError> {
    let text = format!(in alloc; "Unknown directive \"{name}\"")?;
    Ok(Text::from_string(text))
}

/// What is said of a directive that may not stand at this place.
fn misplaced_at(
    alloc: Global,
    name: &str,
    location: DirectiveLocation,
) -> Result<Text, AllocError> {
    let text = format!(in alloc; "Directive \"{name}\" may not be used on {location}")?;
    Ok(Text::from_string(text))
}
