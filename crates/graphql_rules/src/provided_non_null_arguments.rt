//! Arguments that must be given, and are not.

ghost use Rattle.std.specs.Prelude.{◌≡◌, ℕ, List, IfOk, map, unwrap_or};
ghost use Rattle.std.specs.List.{flat_map, list_all};
ghost use Rattle.graphql_names.specs.NameSets.{has_name};
ghost use Rattle.graphql_names.specs.Names.{is_one_of};
ghost use Rattle.graphql_schema.specs.Executable as spec;
ghost use Rattle.graphql_visitors.specs.Reports.{Reports};
ghost use Rattle.graphql_rules.specs.Givens.{given_of};
ghost use Rattle.graphql_rules.specs.ProvidedNonNullArguments.{missing, missing_in};

use crate::given::{Given, given_at};
use graphql_occurrences::Event;
use graphql_schema::{Argument, SchemaScalar};
use graphql_text::{SourcePosition, Spanning, Text, TextRef};
use graphql_values::InputValue;
use graphql_visitors::{Local, LocalRule, ValidatorContext};
use std::alloc::{AllocError, Global};
use std::collections::HashSet;

/// An argument that its field or its directive must be given, and is not: `null` is not among its
/// values, and it has no default (GraphQL October 2021, 5.4.2.1 Required Arguments). Names the
/// place of the field or of the directive.
#[derive(Drop)]
pub struct ProvidedNonNullArguments;

/// The visitor of the rule.
pub fn factory() -> Local<ProvidedNonNullArguments> {
    Local(ProvidedNonNullArguments)
}

impl<S: SchemaScalar> LocalRule<S> for ProvidedNonNullArguments {
    ghost use Rattle.graphql_visitors.specs.Reports.{Reports};
    ghost use Rattle.graphql_visitors.specs.Rules.{told_at};
    ghost use Rattle.graphql_visitors.specs.Subjects.{seen_in, subject_of};
    ghost use Rattle.graphql_rules.specs.ProvidedNonNullArguments.{provided_non_null_arguments_faults};

    ghost says = { provided_non_null_arguments_faults };

    fn tell<'a, 't>(&self, context: &mut ValidatorContext<'a, 't, S>, event: &Event<'a, 't, S>)
        ensures { Reports (told_at provided_non_null_arguments_faults (subject_of context.old)
            (seen_in context.old event.now)) context.old context.new }
    {
        if let Some(given) = given_at(context, event) {
            report_given(context, given);
        }
    }
}

/// Reports what is declared, has to be given and is not.
fn report_given<'a, 't, S: SchemaScalar>(
    context: &mut ValidatorContext<'a, 't, S>,
    given: Given<'a, 't, S>,
)
    ensures { Reports (missing_in (given_of given.entry)) context.old context.new }
{
    if let Some(declared) = given.declared {
        report_declared(context, given.place, declared.as_slice(), given.arguments);
    }
}

/// Reports those of the declared arguments that have to be given and are not among these. Takes
/// time in proportion to both, and memory for the names of those given, if one has to be given.
fn report_declared<'a, 't, S: SchemaScalar>(
    context: &mut ValidatorContext<'a, 't, S>,
    place: SourcePosition,
    declared: &'a [Argument<S>],
    arguments: &'a [(Spanning<TextRef<'t>>, Spanning<InputValue<S>>)],
)
    ensures { Reports
        (flat_map (missing place (is_one_of (map (λ a. a.0.item) arguments.now))) declared.now)
        context.old context.new }
{
    if are_optional(declared) {
        return;
    }
    match names_of(context.alloc(), arguments) {
        Ok(given) => report_missing(context, place, declared, &given),
        Err(_) => context.fail(),
    }
}

/// Reports those of the declared arguments that have to be given and are not.
fn report_missing<'a, 't, S: SchemaScalar>(
    context: &mut ValidatorContext<'a, 't, S>,
    place: SourcePosition,
    declared: &'a [Argument<S>],
    given: &HashSet<&'a str>,
)
    ensures { Reports (flat_map (missing place (has_name given.now)) declared.now) context.old
        context.new }
{
    'declared: for argument in declared {
        report_argument(context, place, argument, given);
    }
}

/// Reports an argument, if it has to be given and is not.
fn report_argument<'a, 't, S: SchemaScalar>(
    context: &mut ValidatorContext<'a, 't, S>,
    place: SourcePosition,
    argument: &'a Argument<S>,
    given: &HashSet<&'a str>,
)
    ensures { Reports (missing place (has_name given.now) argument.now) context.old context.new }
{
    if !is_optional(argument) && !given.contains(argument.name.as_str()) {
        let message = message(context.alloc(), argument);
        context.report_error(message, &[place]);
    }
}

/// Whether an argument need not be given.
fn is_optional<S>(argument: &Argument<S>) -> bool
    ensures { result ≡ spec.is_optional argument.now }
{
    !argument.arg_type.is_non_null() || argument.default_value.is_some()
}

/// Whether none of the arguments has to be given.
fn are_optional<S>(declared: &[Argument<S>]) -> bool
    ensures { result ≡ list_all spec.is_optional declared.now }
{
    declared.iter().all(|argument| is_optional(argument))
}

/// The names of the arguments that are given. An error is want of memory.
fn names_of<'a, 't, S>(
    alloc: Global,
    arguments: &'a [(Spanning<TextRef<'t>>, Spanning<InputValue<S>>)],
) -> Result<HashSet<&'a str>, AllocError>
    ensures { IfOk result (λ names. (name : List ℕ)
        → has_name names name ≡ is_one_of (map (λ a. a.0.item) arguments.now) name) }
{
    let mut names: HashSet<&str> = HashSet::new(alloc);
    'arguments: for argument in arguments {
        names.insert(argument.0.item.as_str())?;
    }
    Ok(names)
}

/// What is said of an argument that is not given.
fn message<S>(alloc: Global, argument: &Argument<S>) -> Result<Text, AllocError> {
    let name = &argument.name;
    let of_type = &argument.arg_type;
    let text = format!(in alloc;
        "Argument \"{name}\" of type \"{of_type}\" is required but not provided"
    )?;
    Ok(Text::from_string(text))
}
