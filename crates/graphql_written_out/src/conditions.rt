//! Which selections are left out.

ghost use Rattle.std.specs.Prelude.{◌≡◌};
ghost use Rattle.graphql_written_out.specs.FinalVariables.{value_in};
ghost use Rattle.graphql_written_out.specs.Conditions as spec;
ghost use Rattle.graphql_written_out.specs.Written.{listed};

use crate::{ArgumentValue, FinalVariables};
use graphql_text::{Items, Spanning};
use graphql_tree::Directive;
use graphql_values::{InputValue, ScalarValue};

/// The truth value of a literal with the values of variables in their stead, if it is one.
fn truth<S: ScalarValue>(literal: &InputValue<S>, variables: &FinalVariables<'_, S>) -> Option<bool>
    ensures { result ≡ spec.truth S.answer (value_in variables.now) literal.now }
{
    match ArgumentValue::new(literal, variables) {
        Some(ArgumentValue::Scalar(scalar)) => scalar.try_to_bool(),
        _ => None,
    }
}

/// The truth value of a directive's argument `if`, if it has one.
fn condition<S: ScalarValue>(
    directive: &Directive<'_, S>,
    variables: &FinalVariables<'_, S>,
) -> Option<bool>
    ensures { result ≡ spec.condition S.answer (value_in variables.now) directive.now }
{
    match &directive.arguments {
        Some(arguments) => match arguments.item.get("if") {
            Some(literal) => truth(&literal.item, variables),
            None => None,
        },
        None => None,
    }
}

/// Whether the directive leaves out what it stands at.
#[tactic(auto, unfolding(crate::specs::Conditions::leaves_out))]
fn leaves_out<S: ScalarValue>(
    directive: &Directive<'_, S>,
    variables: &FinalVariables<'_, S>,
) -> bool
    ensures { result ≡ spec.leaves_out S.answer (value_in variables.now) directive.now }
{
    match directive.name.item.as_str() {
        "skip" => condition(directive, variables) != Some(false),
        "include" => condition(directive, variables) != Some(true),
        _ => false,
    }
}

/// Whether one of the directives leaves out what they stand at, over the final values of variables:
/// a `skip` whose condition is not false, or an `include` whose condition is not true (GraphQL
/// October 2021, 3.13.1 @skip, 3.13.2 @include). A condition that is no truth value leaves out in
/// either case.
pub fn left_out<S: ScalarValue>(
    directives: &Option<Items<Spanning<Directive<'_, S>>>>,
    variables: &FinalVariables<'_, S>,
) -> bool
    ensures { result ≡ spec.left_out S.answer (value_in variables.now) (listed directives.now) }
{
    match directives {
        Some(directives) => one_leaves_out(directives.as_slice(), variables),
        None => false,
    }
}

/// The same of directives that are there.
fn one_leaves_out<S: ScalarValue>(
    directives: &[Spanning<Directive<'_, S>>],
    variables: &FinalVariables<'_, S>,
) -> bool
    ensures { result ≡ spec.left_out S.answer (value_in variables.now) directives.now }
{
    for directive in directives {
        if leaves_out(&directive.item, variables) {
            return true;
        }
    }
    false
}
