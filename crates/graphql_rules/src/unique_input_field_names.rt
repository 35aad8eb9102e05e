//! Fields of input objects of one name.

ghost use Rattle.graphql_visitors.specs.Reports.{Reports};
ghost use Rattle.graphql_visitors.specs.Rules.{told_at};
ghost use Rattle.graphql_visitors.specs.Subjects.{seen_in, subject_of};
ghost use Rattle.graphql_rules.specs.UniqueInputFieldNames.{unique_input_field_names_faults};

use crate::repeats::report_repeats;
use graphql_occurrences::{Event, Node};
use graphql_schema::SchemaScalar;
use graphql_text::Spanning;
use graphql_values::InputValue;
use graphql_visitors::{Local, LocalRule, ValidatorContext};

/// A later field of a name in an input object (GraphQL October 2021, 5.6.3 Input Object Field
/// Uniqueness). Names the place of the first field of the name, and its own. Each object within an
/// object stands for itself.
#[derive(Drop)]
pub struct UniqueInputFieldNames;

/// The visitor of the rule.
pub fn factory() -> Local<UniqueInputFieldNames> {
    Local(UniqueInputFieldNames)
}

impl<S: SchemaScalar> LocalRule<S> for UniqueInputFieldNames {
    ghost use Rattle.graphql_visitors.specs.Reports.{Reports};
    ghost use Rattle.graphql_visitors.specs.Rules.{told_at};
    ghost use Rattle.graphql_visitors.specs.Subjects.{seen_in, subject_of};
    ghost use Rattle.graphql_rules.specs.UniqueInputFieldNames.{unique_input_field_names_faults};

    ghost says = { unique_input_field_names_faults };

    fn tell<'a, 't>(&self, context: &mut ValidatorContext<'a, 't, S>, event: &Event<'a, 't, S>)
        ensures { Reports (told_at unique_input_field_names_faults (subject_of context.old)
            (seen_in context.old event.now)) context.old context.new }
    {
        match event {
            Event::Enter(node) => report_node(context, node),
            Event::Leave(_) => {}
        }
    }
}

/// Reports what the names of its fields repeat, if a node is an object.
fn report_node<'a, 't, S: SchemaScalar>(
    context: &mut ValidatorContext<'a, 't, S>,
    node: &Node<'a, 't, S>,
)
    ensures { Reports (told_at unique_input_field_names_faults (subject_of context.old)
        (seen_in context.old (Event.Enter node.now))) context.old context.new }
{
    if let Node::Value(value) = node {
        report_value(context, value);
    }
}

/// The same of a value.
fn report_value<'a, 't, S: SchemaScalar>(
    context: &mut ValidatorContext<'a, 't, S>,
    value: &'a Spanning<InputValue<S>>,
)
    ensures { Reports (told_at unique_input_field_names_faults (subject_of context.old)
        (seen_in context.old (Event.Enter (Node.Value value.entry)))) context.old context.new }
{
    if let InputValue::Object(fields) = &value.item {
        report_repeats(context, "input field", fields.as_slice());
    }
}
