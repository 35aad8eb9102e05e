//! Copies of literals, with the values of variables in their stead.

ghost use Rattle.std.specs.Prelude.{map};
ghost use Rattle.std.specs.List.{filter_map};
ghost use Rattle.graphql_text.specs.Memory.{Gives};
ghost use Rattle.graphql_written_out.specs.Filled.{filled, filled_item, filled_pair};
ghost use Rattle.graphql_written_out.specs.FinalVariables.{value_in};

use graphql_text::{Items, Spanning, Text};
use graphql_values::{InputValue, ScalarValue};
use graphql_written_out::FinalVariables;
use std::alloc::{AllocError, Global};

/// A copy of a literal with the final values of variables in their stead; `None` where it is a
/// variable without a value. Takes stack for each level that the literal nests. An error is want of
/// memory.
#[cycle(made)]
pub fn made_value<S: ScalarValue + Drop>(
    literal: &InputValue<S>,
    alloc: Global,
    variables: &FinalVariables<'_, S>,
) -> Result<Option<InputValue<S>>, AllocError>
    ensures { Gives result (filled (value_in variables.now) literal.now) }
{
    match literal {
        InputValue::Null => Ok(Some(InputValue::Null)),
        InputValue::Scalar(scalar) => Ok(Some(InputValue::Scalar(scalar.clone()?))),
        InputValue::Enum(name) => Ok(Some(InputValue::Enum(name.clone()?))),
        InputValue::Variable(name) => copy_of_value(name.as_str(), variables),
        InputValue::List(items) => Ok(Some(InputValue::List(made_items(items, alloc, variables)?))),
        InputValue::Object(pairs) => {
            Ok(Some(InputValue::Object(made_pairs(pairs, alloc, variables)?)))
        }
    }
}

/// A copy of the final value of the variable of this name, if it has one. An error is want of
/// memory.
fn copy_of_value<S: ScalarValue + Drop>(
    name: &str,
    variables: &FinalVariables<'_, S>,
) -> Result<Option<InputValue<S>>, AllocError>
    ensures { Gives result (value_in variables.now name.now) }
{
    match variables.get(name) {
        Some(found) => Ok(Some(found.clone()?)),
        None => Ok(None),
    }
}

/// The items of a list: a variable without a value is `null`. An error is want of memory.
#[cycle(made)]
fn made_items<S: ScalarValue + Drop>(
    items: &Items<Spanning<InputValue<S>>>,
    alloc: Global,
    variables: &FinalVariables<'_, S>,
) -> Result<Items<Spanning<InputValue<S>>>, AllocError>
    ensures { Gives result (map (filled_item (value_in variables.now)) items.now) }
{
    let mut made = Items::with_capacity(alloc, items.len())?;
    for part in items.as_slice() {
        let value = made_value(&part.item, alloc, variables)?;
        let item = value.unwrap_or(InputValue::Null);
        let span = part.span;
        made.push(Spanning { item, span })?;
    }
    Ok(made)
}

/// The fields of an object: one whose value is a variable without a value is absent. An error is
/// want of memory.
#[cycle(made)]
fn made_pairs<S: ScalarValue + Drop>(
    pairs: &Items<(Spanning<Text>, Spanning<InputValue<S>>)>,
    alloc: Global,
    variables: &FinalVariables<'_, S>,
) -> Result<Items<(Spanning<Text>, Spanning<InputValue<S>>)>, AllocError>
    ensures { Gives result (filter_map (filled_pair (value_in variables.now)) pairs.now) }
{
    let mut made = Items::new(alloc);
    for pair in pairs.as_slice() {
        if let Some(item) = made_value(&pair.1.item, alloc, variables)? {
            made.push(field_with(pair, item)?)?;
        }
    }
    Ok(made)
}

/// A field of the same name, at the same places, with this value. An error is want of memory.
fn field_with<S: Drop>(
    pair: &(Spanning<Text>, Spanning<InputValue<S>>),
    item: InputValue<S>,
) -> Result<(Spanning<Text>, Spanning<InputValue<S>>), AllocError>
    ensures { Gives result (pair.now.0, record { item = item; span = pair.now.1.span }) }
{
    let name = Spanning {
        item: pair.0.item.clone()?,
        span: pair.0.span,
    };
    let span = pair.1.span;
    Ok((name, Spanning { item, span }))
}
