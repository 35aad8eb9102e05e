//! Literals that are judged.

ghost use Rattle.graphql_literal_checks.specs.Judged.{asked_for};
ghost use Rattle.graphql_visitors.specs.Reports.{ReportsBy};
ghost use Rattle.graphql_rules.specs.Literals.{LiteralJudged};

use graphql_literal_checks::validate_literal_value;
use graphql_names::{Type, TypeModifier};
use graphql_schema::{Meaning, SchemaScalar};
use graphql_text::{Spanning, Text};
use graphql_values::InputValue;
use graphql_visitors::ValidatorContext;
use std::alloc::{AllocError, Global};
use std::convert::{AsSlice, AsStr};

/// What a literal stands for.
#[derive(Clone, Copy)]
pub(crate) enum Role<'n> {
    /// The value of the argument of this name.
    Argument(&'n str),

    /// The default of the variable of this name, without the `$`.
    Default(&'n str),
}

/// Reports a literal, at its start, unless it conforms to the type that is asked for.
pub(crate) fn report_literal<'a, 't, S: SchemaScalar, N: AsStr, M: AsSlice<TypeModifier>>(
    context: &mut ValidatorContext<'a, 't, S>,
    role: Role<'_>,
    asked: &Type<N, M>,
    literal: &Spanning<InputValue<S>>,
)
    ensures { ReportsBy (LiteralJudged ⟦<S as Meaning>⟧.meaning context.old.schema.now.types
        (record { type_of = asked_for N.text M.items asked.now; literal = literal.now }))
        context.old context.new }
{
    match validate_literal_value(context.alloc(), context.schema(), asked, &literal.item) {
        Ok(None) => {}
        Ok(Some(reason)) => {
            let message = message(context.alloc(), role, &reason);
            context.report_error(message, &[literal.span.start]);
        }
        Err(_) => context.fail(),
    }
}

/// What is said of a literal that does not conform, for this reason. An error is want of memory.
fn message(alloc: Global, role: Role<'_>, reason: &Text) -> Result<Text, AllocError> {
    let text = match role {
        Role::Argument(name) => {
            format!(in alloc; "Invalid value for argument \"{name}\", reason: {reason}")?
        }
        Role::Default(name) => {
            format!(in alloc; "Invalid default value for variable \"{name}\", reason: {reason}")?
        }
    };
    Ok(Text::from_string(text))
}
