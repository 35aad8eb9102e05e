//! Arguments whose values are not of the declared types.

ghost use Rattle.std.specs.List.{flat_map};
ghost use Rattle.std.specs.Option.{option_map};
ghost use Rattle.graphql_occurrences.specs.Lent.{arguments_lent};
ghost use Rattle.graphql_occurrences.specs.PartsOf.{parts_of};
ghost use Rattle.graphql_visitors.specs.Reports.{ReportsBy};
ghost use Rattle.graphql_visitors.specs.Subjects.{seen_in};
ghost use Rattle.graphql_rules.specs.ArgumentsOfCorrectType.{literal_of, literals_among};
ghost use Rattle.graphql_rules.specs.ArgumentsOfCorrectType.{literals_at};
ghost use Rattle.graphql_rules.specs.Literals.{Misfits};

use crate::literals::{Role, report_literal};
use graphql_occurrences::{
    DeclaredArguments, Event, KnownField, Node, arguments_of_field, declared_by_directive,
};
use graphql_schema::{Meaning, SchemaScalar};
use graphql_text::{Spanning, TextRef};
use graphql_tree::{Field, arguments_in};
use graphql_values::InputValue;
use graphql_visitors::{Relational, RelationalRule, ValidatorContext};

/// The value of each argument conforms to the type that is declared for the argument (GraphQL
/// October 2021, 5.6.1 Values of Correct Type). What is not declared is left to
/// `KnownArgumentNames`, and what an unknown field or an unknown directive is given to the rules
/// that tell of those.
///
/// An error names the start of the value.
#[derive(Drop)]
pub struct ArgumentsOfCorrectType;

/// The rule, as a visitor.
pub fn factory() -> Relational<ArgumentsOfCorrectType> {
    Relational(ArgumentsOfCorrectType)
}

impl<S: SchemaScalar> RelationalRule<S> for ArgumentsOfCorrectType {
    ghost use Rattle.graphql_visitors.specs.Reports.{ReportsBy};
    ghost use Rattle.graphql_visitors.specs.Rules.{TellAt};
    ghost use Rattle.graphql_visitors.specs.Subjects.{seen_in, subject_of};
    ghost use Rattle.graphql_rules.specs.ArgumentsOfCorrectType.{arguments_of_correct_type_faults};

    ghost says = { arguments_of_correct_type_faults ⟦<S as Meaning>⟧.meaning };

    fn tell<'a, 't>(&self, context: &mut ValidatorContext<'a, 't, S>, event: &Event<'a, 't, S>)
        ensures { ReportsBy (TellAt (arguments_of_correct_type_faults ⟦<S as Meaning>⟧.meaning)
            (subject_of context.old) (seen_in context.old event.now)) context.old context.new }
    {
        report_event(context, event);
    }
}

/// Reports what is given to the field or the directive that is entered, as far as it does not
/// conform.
fn report_event<'a, 't, S: SchemaScalar>(
    context: &mut ValidatorContext<'a, 't, S>,
    event: &Event<'a, 't, S>,
)
    ensures { ReportsBy (Misfits ⟦<S as Meaning>⟧.meaning context.old.schema.now.types
        (flat_map literals_at (parts_of (seen_in context.old event.now)))) context.old context.new }
{
    match event {
        Event::Enter(node) => report_node(context, node),
        Event::Leave(_) => {}
    }
}

/// The same of a node.
fn report_node<'a, 't, S: SchemaScalar>(
    context: &mut ValidatorContext<'a, 't, S>,
    node: &Node<'a, 't, S>,
)
    ensures { ReportsBy (Misfits ⟦<S as Meaning>⟧.meaning context.old.schema.now.types
        (flat_map literals_at (parts_of (seen_in context.old (Event.Enter node.now))))) context.old
        context.new }
{
    match node {
        Node::Field(known, field) => report_field(context, *known, field),
        Node::Directive(_, known, directive) => {
            let given = arguments_in(&directive.item.arguments);
            report_given(context, declared_by_directive(*known), given);
        }
        _ => {}
    }
}

/// The same of a field.
fn report_field<'a, 't, S: SchemaScalar>(
    context: &mut ValidatorContext<'a, 't, S>,
    known: Option<KnownField<'a, S>>,
    field: &'a Spanning<Field<'t, S>>,
)
    ensures { ReportsBy
        (Misfits ⟦<S as Meaning>⟧.meaning context.old.schema.now.types (flat_map literals_at
        (parts_of (seen_in context.old (Event.Enter (Node.Field known.entry field.entry))))))
        context.old context.new }
{
    if context.parent_type().is_some() {
        let given = arguments_in(&field.item.arguments);
        report_given(context, arguments_of_field(known), given);
    }
}

/// Reports those of the arguments that do not conform, where it is known what is declared.
fn report_given<'a, 't, S: SchemaScalar>(
    context: &mut ValidatorContext<'a, 't, S>,
    declared: Option<DeclaredArguments<'a, S>>,
    given: &'a [(Spanning<TextRef<'t>>, Spanning<InputValue<S>>)],
)
    ensures { ReportsBy (Misfits ⟦<S as Meaning>⟧.meaning context.old.schema.now.types
        (literals_among (option_map arguments_lent declared.entry) given.now)) context.old
        context.new }
{
    if let Some(declared) = declared {
        report_arguments(context, declared, given);
    }
}

/// Reports those of the arguments that do not conform.
fn report_arguments<'a, 't, S: SchemaScalar>(
    context: &mut ValidatorContext<'a, 't, S>,
    declared: DeclaredArguments<'a, S>,
    given: &'a [(Spanning<TextRef<'t>>, Spanning<InputValue<S>>)],
)
    ensures { ReportsBy (Misfits ⟦<S as Meaning>⟧.meaning context.old.schema.now.types
        (flat_map (literal_of (arguments_lent declared.entry)) given.now)) context.old context.new }
{
    'arguments: for argument in given {
        report_argument(context, declared, argument);
    }
}

/// Reports an argument that is declared, unless its value conforms.
fn report_argument<'a, 't, S: SchemaScalar>(
    context: &mut ValidatorContext<'a, 't, S>,
    declared: DeclaredArguments<'a, S>,
    argument: &'a (Spanning<TextRef<'t>>, Spanning<InputValue<S>>),
)
    ensures { ReportsBy (Misfits ⟦<S as Meaning>⟧.meaning context.old.schema.now.types
        (literal_of (arguments_lent declared.entry) argument.now)) context.old context.new }
{
    let name = argument.0.item.as_str();
    if let Some(asked) = declared.get(name) {
        report_literal(context, Role::Argument(name), &asked.arg_type, &argument.1);
    }
}
