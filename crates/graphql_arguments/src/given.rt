//! Values of arguments, lent where they stand whole.

ghost use Rattle.std.specs.Prelude.{◌≡◌};
ghost use Rattle.std.specs.Option.{option_map};
ghost use Rattle.graphql_text.specs.Memory.{GivesBy};
ghost use Rattle.graphql_written_out.specs.Filled.{filled};
ghost use Rattle.graphql_written_out.specs.FinalVariables.{value_in};
ghost use Rattle.graphql_arguments.specs.GivenValues.{value_told};

use crate::made_value::made_value;
use graphql_values::{InputValue, ScalarValue};
use graphql_written_out::FinalVariables;
use std::alloc::{AllocError, Global};

/// The value of an argument, in which each variable of the literal has its value (GraphQL October
/// 2021, 6.4.1 Coercing Field Arguments).
#[derive(Drop)]
pub enum GivenValue<'a, S> {
    /// The literal itself, in which no variable stands, or the value of the variable that it is.
    Lent(&'a InputValue<S>),

    /// A value made of a list or an object in which variables stand.
    Made(InputValue<S>),
}

impl<'a, S> GivenValue<'a, S> {
    /// The value itself.
    pub fn value(&self) -> &InputValue<S>
        ensures { result.now ≡ value_told self.now }
    {
        match self {
            GivenValue::Lent(value) => value,
            GivenValue::Made(value) => value,
        }
    }
}

/// The literal, with the final values of variables in their stead; `None` where it is a variable
/// without a value. In a list such a variable is `null`, and in an object the field is absent.
///
/// A value is made only of a list or an object in which variables stand; else it is lent. Where one
/// is made, variables' values are copied, and it takes stack for each level that the literal and
/// those values nest. In a valid document the type of the argument bounds that depth, but where
/// input types hold themselves. An error is want of memory.
pub fn given_value<'a, S: ScalarValue + Drop>(
    alloc: Global,
    literal: &'a InputValue<S>,
    variables: &'a FinalVariables<'a, S>,
) -> Result<Option<GivenValue<'a, S>>, AllocError>
    ensures { GivesBy (option_map value_told) result (filled (value_in variables.now) literal.now) }
{
    match literal {
        InputValue::Variable(name) => match variables.get(name.as_str()) {
            Some(value) => Ok(Some(GivenValue::Lent(value))),
            None => Ok(None),
        },
        InputValue::Null => Ok(Some(GivenValue::Lent(literal))),
        InputValue::Scalar(_) => Ok(Some(GivenValue::Lent(literal))),
        InputValue::Enum(_) => Ok(Some(GivenValue::Lent(literal))),
        InputValue::List(_) => whole_value(alloc, literal, variables),
        InputValue::Object(_) => whole_value(alloc, literal, variables),
    }
}

/// A literal, lent if no variable stands in it, else made.
fn whole_value<'a, S: ScalarValue + Drop>(
    alloc: Global,
    literal: &'a InputValue<S>,
    variables: &FinalVariables<'_, S>,
) -> Result<Option<GivenValue<'a, S>>, AllocError>
    ensures { GivesBy (option_map value_told) result (filled (value_in variables.now) literal.now) }
{
    if literal.referenced_variables(alloc)?.is_empty() {
        return Ok(Some(GivenValue::Lent(literal)));
    }
    match made_value(literal, alloc, variables)? {
        Some(value) => Ok(Some(GivenValue::Made(value))),
        None => Ok(None),
    }
}
