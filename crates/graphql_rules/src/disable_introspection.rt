//! Fields of introspection.

ghost use Rattle.std.specs.Prelude.{◌≡◌};
ghost use Rattle.graphql_rules.specs.DisableIntrospection as spec;

use graphql_occurrences::{Event, Node};
use graphql_schema::SchemaScalar;
use graphql_text::Text;
use graphql_visitors::{Local, LocalRule, ValidatorContext};
use std::alloc::{AllocError, Global};

/// No field is `__schema` or `__type` (GraphQL October 2021, 4.2 Schema Introspection), whether the
/// type of which it is selected has it or not. `__typename` may be asked for.
///
/// An error names the start of the field, which is that of its alias where it has one.
#[derive(Drop)]
pub struct DisableIntrospection;

/// The rule, as a visitor.
pub fn factory() -> Local<DisableIntrospection> {
    Local(DisableIntrospection)
}

/// What is said of a field. An error is want of memory.
fn message(alloc: Global, field: &str) -> Result<Text, AllocError> {
    let text = format!(in alloc;
        "Introspection is not allowed, but the operation contains \"{field}\""
    )?;
    Ok(Text::from_string(text))
}

/// Whether a field of this name tells of the schema.
fn introspects(name: &str) -> bool
    ensures { result ≡ spec.introspects name.now }
{
    name == "__schema" || name == "__type"
}

impl<S: SchemaScalar> LocalRule<S> for DisableIntrospection {
    ghost use Rattle.graphql_rules.specs.DisableIntrospection.{disable_introspection_faults};

    ghost says = { disable_introspection_faults };

    fn tell<'a, 't>(&self, context: &mut ValidatorContext<'a, 't, S>, event: &Event<'a, 't, S>) {
        if let Event::Enter(Node::Field(_, field)) = event {
            let name = field.item.name.item.as_str();
            if context.parent_type().is_some() && introspects(name) {
                let text = message(context.alloc(), name);
                context.report_error(text, &[field.span.start]);
            }
        }
    }
}
