//! Type conditions that nothing can be selected of.

ghost use Rattle.std.specs.Prelude.{◌≡◌, ◌∷◌, []};
ghost use Rattle.graphql_rule_errors.specs.Places.{error_if};
ghost use Rattle.graphql_rules.specs.FragmentsOnCompositeTypes as spec;
ghost use Rattle.graphql_schema.specs.Declarations.{declarations_of};
ghost use Rattle.graphql_visitors.specs.Reports.{Reports};

use crate::kinds::is_composite;
use graphql_occurrences::{Event, Node};
use graphql_schema::{SchemaScalar, SchemaType};
use graphql_text::{Spanning, Text, TextRef};
use graphql_visitors::{Local, LocalRule, ValidatorContext};
use std::alloc::{AllocError, Global};

/// The type condition of each fragment is an object, an interface or a union (GraphQL October 2021,
/// 5.5.1.3 Fragments on Composite Types). A type that the schema has not is left to
/// `KnownTypeNames`.
///
/// An error names the start of the condition's name.
#[derive(Drop)]
pub struct FragmentsOnCompositeTypes;

/// The rule, as a visitor.
pub fn factory() -> Local<FragmentsOnCompositeTypes> {
    Local(FragmentsOnCompositeTypes)
}

/// What is said of a condition. An error is want of memory.
fn message(alloc: Global, condition: &str) -> Result<Text, AllocError> {
    let text = format!(in alloc; "Fragment cannot condition non composite type \"{condition}\"")?;
    Ok(Text::from_string(text))
}

/// Whether the type of this name is known, and is no object, interface or union.
fn is_no_composite<S, C>(schema: &SchemaType<S, C>, name: &str) -> bool
    ensures { result ≡ spec.is_no_composite (declarations_of schema.now) name.now }
{
    match schema.concrete_type_by_name(name) {
        Some(meta) => !is_composite(meta),
        None => false,
    }
}

/// Reports a condition, if its type is known and is no object, interface or union.
fn check<'a, 't, S: SchemaScalar>(
    context: &mut ValidatorContext<'a, 't, S>,
    condition: &Spanning<TextRef<'t>>,
)
    ensures { Reports (error_if (spec.is_no_composite (declarations_of context.old.schema.now)
        condition.now.item) (condition.now.span.start ∷ [])) context.old context.new }
{
    let name = condition.item.as_str();
    if is_no_composite(context.schema(), name) {
        let text = message(context.alloc(), name);
        context.report_error(text, &[condition.span.start]);
    }
}

impl<S: SchemaScalar> LocalRule<S> for FragmentsOnCompositeTypes {
    ghost use Rattle.graphql_rules.specs.FragmentsOnCompositeTypes.{fragments_on_composite_types_faults};

    ghost says = { fragments_on_composite_types_faults };

    fn tell<'a, 't>(&self, context: &mut ValidatorContext<'a, 't, S>, event: &Event<'a, 't, S>) {
        match event {
            Event::Enter(Node::Fragment(fragment)) => check(context, &fragment.item.type_condition),
            Event::Enter(Node::InlineFragment(inline)) if context.parent_type().is_some() => {
                if let Some(condition) = &inline.item.type_condition {
                    check(context, condition);
                }
            }
            _ => {}
        }
    }
}
