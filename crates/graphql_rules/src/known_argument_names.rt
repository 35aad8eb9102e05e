//! Arguments that are not declared.

ghost use Rattle.std.specs.List.{flat_map};
ghost use Rattle.graphql_occurrences.specs.Lent.{arguments_lent};
ghost use Rattle.graphql_visitors.specs.Reports.{Reports};
ghost use Rattle.graphql_rules.specs.Givens.{given_of};
ghost use Rattle.graphql_rules.specs.KnownArgumentNames.{undeclared, undeclared_in};

use crate::given::{Given, given_at};
use graphql_occurrences::{DeclaredArguments, Event, Owner};
use graphql_rule_errors::joined;
use graphql_schema::SchemaScalar;
use graphql_text::{Spanning, Text, TextRef};
use graphql_values::InputValue;
use graphql_visitors::{Local, LocalRule, ValidatorContext};
use std::alloc::AllocError;

/// An argument that its field or its directive does not declare (GraphQL October 2021, 5.4.1
/// Argument Names). Names the place of the argument's name. What an unknown field or an unknown
/// directive is given has no such error.
#[derive(Drop)]
pub struct KnownArgumentNames;

/// The visitor of the rule.
pub fn factory() -> Local<KnownArgumentNames> {
    Local(KnownArgumentNames)
}

impl<S: SchemaScalar> LocalRule<S> for KnownArgumentNames {
    ghost use Rattle.graphql_visitors.specs.Reports.{Reports};
    ghost use Rattle.graphql_visitors.specs.Rules.{told_at};
    ghost use Rattle.graphql_visitors.specs.Subjects.{seen_in, subject_of};
    ghost use Rattle.graphql_rules.specs.KnownArgumentNames.{known_argument_names_faults};

    ghost says = { known_argument_names_faults };

    fn tell<'a, 't>(&self, context: &mut ValidatorContext<'a, 't, S>, event: &Event<'a, 't, S>)
        ensures { Reports (told_at known_argument_names_faults (subject_of context.old)
            (seen_in context.old event.now)) context.old context.new }
    {
        if let Some(given) = given_at(context, event) {
            report_given(context, given);
        }
    }
}

/// Reports what is given and not declared.
fn report_given<'a, 't, S: SchemaScalar>(
    context: &mut ValidatorContext<'a, 't, S>,
    given: Given<'a, 't, S>,
)
    ensures { Reports (undeclared_in (given_of given.entry)) context.old context.new }
{
    if let Some(declared) = given.declared {
        report_arguments(context, given.owner, declared, given.arguments);
    }
}

/// Reports those of the arguments that are not declared.
fn report_arguments<'a, 't, S: SchemaScalar>(
    context: &mut ValidatorContext<'a, 't, S>,
    owner: Owner<'a>,
    declared: DeclaredArguments<'a, S>,
    arguments: &'a [(Spanning<TextRef<'t>>, Spanning<InputValue<S>>)],
)
    ensures { Reports (flat_map (undeclared (arguments_lent declared.entry)) arguments.now)
        context.old context.new }
{
    'arguments: for argument in arguments {
        report_argument(context, owner, declared, argument);
    }
}

/// Reports an argument, unless it is declared.
fn report_argument<'a, 't, S: SchemaScalar>(
    context: &mut ValidatorContext<'a, 't, S>,
    owner: Owner<'a>,
    declared: DeclaredArguments<'a, S>,
    argument: &'a (Spanning<TextRef<'t>>, Spanning<InputValue<S>>),
)
    ensures { Reports (undeclared (arguments_lent declared.entry) argument.now) context.old
        context.new }
{
    let name = argument.0.item.as_str();
    if declared.get(name).is_none() {
        let message = message(context, owner, name);
        context.report_error(message, &[argument.0.span.start]);
    }
}

/// What is said of an argument of this name.
fn message<'a, 't, S: SchemaScalar>(
    context: &ValidatorContext<'a, 't, S>,
    owner: Owner<'a>,
    name: &str,
) -> Result<Text, AllocError> {
    let alloc = context.alloc();
    match owner {
        Owner::Field(field) => {
            let parent = parent_name(context);
            joined(
                alloc,
                &[
                    "Unknown argument \"",
                    name,
                    "\" on field \"",
                    field,
                    "\" of type \"",
                    parent,
                    "\"",
                ],
            )
        }
        Owner::Directive(directive) => {
            joined(
                alloc,
                &[
                    "Unknown argument \"",
                    name,
                    "\" on directive \"",
                    directive,
                    "\"",
                ],
            )
        }
    }
}

/// The name of the type that is selected of; empty where there is none.
fn parent_name<'a, 't, S: SchemaScalar>(context: &ValidatorContext<'a, 't, S>) -> &'a str {
    match context.parent_type() {
        Some(parent) => parent.name().unwrap_or(""),
        None => "",
    }
}
