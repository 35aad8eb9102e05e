//! Fields that no type has.

use graphql_names::Named;
use graphql_occurrences::{Event, Node};
use graphql_rule_errors::joined;
use graphql_schema::SchemaScalar;
use graphql_text::Text;
use graphql_visitors::{Local, LocalRule, ValidatorContext};
use std::alloc::{AllocError, Global};

/// Each field is one of the type of which it is selected (GraphQL October 2021, 5.3.1 Field
/// Selections). `__typename` is a field of each object, interface and union; a scalar, an enum and
/// an input object have none.
///
/// An error names the start of the field, which is that of its alias where it has one.
#[derive(Drop)]
pub struct FieldsOnCorrectType;

/// The rule, as a visitor.
pub fn factory() -> Local<FieldsOnCorrectType> {
    Local(FieldsOnCorrectType)
}

/// What is said of a field. An error is want of memory.
fn message(alloc: Global, field: &str, parent: &str) -> Result<Text, AllocError> {
    joined(
        alloc,
        &["Unknown field \"", field, "\" on type \"", parent, "\""],
    )
}

impl<S: SchemaScalar> LocalRule<S> for FieldsOnCorrectType {
    ghost use Rattle.graphql_rules.specs.FieldsOnCorrectType.{fields_on_correct_type_faults};

    ghost says = { fields_on_correct_type_faults };

    fn tell<'a, 't>(&self, context: &mut ValidatorContext<'a, 't, S>, event: &Event<'a, 't, S>) {
        if let Event::Enter(Node::Field(None, field)) = event {
            if let Some(parent) = context.parent_type() {
                let name = field.item.name.item.as_str();
                let text = message(context.alloc(), name, Named::name(parent));
                context.report_error(text, &[field.span.start]);
            }
        }
    }
}
