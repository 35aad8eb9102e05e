//! Defaults of variables that are not of the variables' types.

ghost use Rattle.std.specs.Prelude.{◌≡◌};
ghost use Rattle.std.specs.List.{flat_map};
ghost use Rattle.std.specs.Option.{is_some};
ghost use Rattle.graphql_occurrences.specs.Lookups.{known};
ghost use Rattle.graphql_occurrences.specs.Occurrences.{variable_part};
ghost use Rattle.graphql_occurrences.specs.PartsOf.{parts_of};
ghost use Rattle.graphql_schema.specs.Declarations.{declarations_of};
ghost use Rattle.graphql_visitors.specs.Reports.{ReportsBy};
ghost use Rattle.graphql_visitors.specs.Subjects.{seen_in};
ghost use Rattle.graphql_rules.specs.DefaultValuesOfCorrectType.{defaults_asked, defaults_at};
ghost use Rattle.graphql_rules.specs.Literals.{Misfits};

use crate::literals::{Role, report_literal};
use graphql_occurrences::{Event, Node};
use graphql_schema::{Meaning, SchemaScalar, SchemaType};
use graphql_text::{Spanning, TextRef};
use graphql_tree::VariableDefinition;
use graphql_visitors::{Relational, RelationalRule, ValidatorContext};

/// The default of each variable conforms to the variable's own type, with its `!` (GraphQL October
/// 2021, 5.6.1 Values of Correct Type): `null` is no default of a type that has none. A type that
/// the schema has not is left to `KnownTypeNames`.
///
/// An error names the start of the default.
#[derive(Drop)]
pub struct DefaultValuesOfCorrectType;

/// The rule, as a visitor.
pub fn factory() -> Relational<DefaultValuesOfCorrectType> {
    Relational(DefaultValuesOfCorrectType)
}

impl<S: SchemaScalar> RelationalRule<S> for DefaultValuesOfCorrectType {
    ghost use Rattle.graphql_visitors.specs.Reports.{ReportsBy};
    ghost use Rattle.graphql_visitors.specs.Rules.{TellAt};
    ghost use Rattle.graphql_visitors.specs.Subjects.{seen_in, subject_of};
    ghost use Rattle.graphql_rules.specs.DefaultValuesOfCorrectType.{default_values_of_correct_type_faults};

    ghost says = { default_values_of_correct_type_faults ⟦<S as Meaning>⟧.meaning };

    fn tell<'a, 't>(&self, context: &mut ValidatorContext<'a, 't, S>, event: &Event<'a, 't, S>)
        ensures { ReportsBy (TellAt (default_values_of_correct_type_faults ⟦<S as Meaning>⟧.meaning)
            (subject_of context.old) (seen_in context.old event.now)) context.old context.new }
    {
        report_event(context, event);
    }
}

/// Reports the default of the variable whose definition is entered, unless it conforms.
fn report_event<'a, 't, S: SchemaScalar>(
    context: &mut ValidatorContext<'a, 't, S>,
    event: &Event<'a, 't, S>,
)
    ensures { ReportsBy (Misfits ⟦<S as Meaning>⟧.meaning context.old.schema.now.types
        (flat_map (defaults_at (declarations_of context.old.schema.now))
        (parts_of (seen_in context.old event.now)))) context.old context.new }
{
    match event {
        Event::Enter(node) => report_node(context, node),
        Event::Leave(_) => {}
    }
}

/// The same of a node.
fn report_node<'a, 't, S: SchemaScalar>(
    context: &mut ValidatorContext<'a, 't, S>,
    node: &Node<'a, 't, S>,
)
    ensures { ReportsBy (Misfits ⟦<S as Meaning>⟧.meaning context.old.schema.now.types
        (flat_map (defaults_at (declarations_of context.old.schema.now))
        (parts_of (seen_in context.old (Event.Enter node.now))))) context.old context.new }
{
    if let Node::VariableDefinition(variable) = node {
        report_variable(context, variable);
    }
}

/// Reports the default of a variable of a known type, unless it conforms.
fn report_variable<'a, 't, S: SchemaScalar>(
    context: &mut ValidatorContext<'a, 't, S>,
    variable: &'a (Spanning<TextRef<'t>>, VariableDefinition<'t, S>),
)
    ensures { ReportsBy (Misfits ⟦<S as Meaning>⟧.meaning context.old.schema.now.types
        (defaults_asked (declarations_of context.old.schema.now) (variable_part variable.now)))
        context.old context.new }
{
    let (name, definition) = variable;
    let asked = &definition.var_type.item;
    if !is_known(context.schema(), asked.name.as_str()) {
        return;
    }
    if let Some(default) = &definition.default_value {
        let role = Role::Default(name.item.as_str());
        report_literal(context, role, asked, default);
    }
}

/// Whether the schema has the type of this name.
fn is_known<S, C>(schema: &SchemaType<S, C>, name: &str) -> bool
    ensures { result ≡ is_some (known (declarations_of schema.now) name.now) }
{
    schema.concrete_type_by_name(name).is_some()
}
