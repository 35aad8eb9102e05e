//! Names of types that a schema has not.

ghost use Rattle.std.specs.Prelude.{◌∷◌, []};
ghost use Rattle.std.specs.Option.{is_none};
ghost use Rattle.graphql_occurrences.specs.Lookups.{known};
ghost use Rattle.graphql_rule_errors.specs.Places.{error_if};
ghost use Rattle.graphql_schema.specs.Declarations.{declarations_of};
ghost use Rattle.graphql_visitors.specs.Reports.{Reports};

use graphql_occurrences::{Event, Node};
use graphql_rule_errors::joined;
use graphql_schema::SchemaScalar;
use graphql_text::{SourcePosition, Text};
use graphql_visitors::{Local, LocalRule, ValidatorContext};
use std::alloc::{AllocError, Global};

/// The schema has each type that a type condition names (GraphQL October 2021, 5.5.1.2 Fragment
/// Spread Type Existence), and each that the type of a variable names, within its wraps (5.8.2
/// Variables Are Input Types). It has those of introspection, and of the built-in scalars those
/// with which it was made.
///
/// An error names the start of the condition's name, or of the variable's type.
#[derive(Drop)]
pub struct KnownTypeNames;

/// The rule, as a visitor.
pub fn factory() -> Local<KnownTypeNames> {
    Local(KnownTypeNames)
}

/// What is said of a type. An error is want of memory.
fn message(alloc: Global, name: &str) -> Result<Text, AllocError> {
    joined(alloc, &["Unknown type \"", name, "\""])
}

/// Reports a type that is named here, if the schema has not got it.
fn check<'a, 't, S: SchemaScalar>(
    context: &mut ValidatorContext<'a, 't, S>,
    name: &str,
    start: SourcePosition,
)
    ensures { Reports
        (error_if (is_none (known (declarations_of context.old.schema.now) name.now)) (start ∷ []))
        context.old context.new }
{
    if context.schema().concrete_type_by_name(name).is_none() {
        let text = message(context.alloc(), name);
        context.report_error(text, &[start]);
    }
}

impl<S: SchemaScalar> LocalRule<S> for KnownTypeNames {
    ghost use Rattle.graphql_rules.specs.KnownTypeNames.{known_type_names_faults};

    ghost says = { known_type_names_faults };

    fn tell<'a, 't>(&self, context: &mut ValidatorContext<'a, 't, S>, event: &Event<'a, 't, S>) {
        match event {
            Event::Enter(Node::VariableDefinition((_, definition))) => {
                let of = &definition.var_type;
                check(context, of.item.name.as_str(), of.span.start);
            }
            Event::Enter(Node::Fragment(fragment)) => {
                let condition = &fragment.item.type_condition;
                check(context, condition.item.as_str(), condition.span.start);
            }
            Event::Enter(Node::InlineFragment(inline)) if context.parent_type().is_some() => {
                if let Some(condition) = &inline.item.type_condition {
                    check(context, condition.item.as_str(), condition.span.start);
                }
            }
            _ => {}
        }
    }
}
