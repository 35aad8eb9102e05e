//! The variables in an input value, and what it is once they have their values.

ghost use Rattle.std.specs.HashMap.{get_by_text};
ghost use Rattle.graphql_text.specs.Memory.{Gives};
ghost use Rattle.graphql_values.specs.Variables.{names_of_variables, constant_of, each_given};
ghost use Rattle.graphql_values.specs.Variables.{constant_item, constant_pair};

use super::InputValue;
use super::pushed::{push_at, push_field};
use super::walk::{Step, Walk};
use graphql_scalars::ScalarValue;
use graphql_text::{Items, Spanning, Text, TextRef};
use std::alloc::{AllocError, Global};
use std::collections::HashMap;

/// The values of variables, by the variables' names without the `$` (GraphQL October 2021, 6.1.2
/// Coercing Variable Values).
pub type Variables<S> = HashMap<String, InputValue<S>>;

impl<S> InputValue<S> {
    /// The names of the variables that stand in the value (GraphQL October 2021, 2.10 Variables),
    /// from left to right, each as often as it stands there. It takes no more stack however deep
    /// the value is. An error is want of memory.
    pub fn referenced_variables(&self, alloc: Global) -> Result<Items<TextRef<'_>>, AllocError>
        ensures { Gives result (names_of_variables self.now) }
    {
        let mut found = Items::new(alloc);
        let mut walk = Walk::new(alloc, self)?;
        'steps: while let Some(step) = walk.next()? {
            if let Step::Variable(name) = step {
                found.push(TextRef::new(name))?;
            }
        }
        Ok(found)
    }
}

impl<S: ScalarValue + Drop> InputValue<S> {
    /// The value with each variable's value in its stead (GraphQL October 2021, 6.4.1 Coercing
    /// Field Arguments), everything else at its place; `None` where a variable has no value in
    /// `variables`. A variable's value is copied wherever the variable stands; `ArgumentValue` of
    /// `graphql_written_out` reads a literal and copies none. Takes stack for each level that the
    /// value nests. An error is want of memory.
    pub fn into_const(
        self,
        alloc: Global,
        variables: &Variables<S>,
    ) -> Result<Option<InputValue<S>>, AllocError>
        ensures { Gives result (constant_of (get_by_text variables.now) self) }
    {
        constant(&self, alloc, variables)
    }
}

/// What a value becomes, if each variable in it has a value.
#[cycle(constants)]
fn constant<S: ScalarValue + Drop>(
    value: &InputValue<S>,
    alloc: Global,
    variables: &Variables<S>,
) -> Result<Option<InputValue<S>>, AllocError>
    ensures { Gives result (constant_of (get_by_text variables.now) value.now) }
{
    match value {
        InputValue::Null => Ok(Some(InputValue::Null)),
        InputValue::Scalar(scalar) => Ok(Some(InputValue::Scalar(scalar.clone()?))),
        InputValue::Enum(name) => Ok(Some(InputValue::Enum(name.clone()?))),
        InputValue::Variable(name) => value_of(name.as_str(), variables),
        InputValue::List(items) => match constant_items(items, alloc, variables)? {
            Some(constants) => Ok(Some(InputValue::List(constants))),
            None => Ok(None),
        },
        InputValue::Object(pairs) => match constant_pairs(pairs, alloc, variables)? {
            Some(constants) => Ok(Some(InputValue::Object(constants))),
            None => Ok(None),
        },
    }
}

/// A copy of the value that the variable of this name has, if it has one.
fn value_of<S: ScalarValue + Drop>(
    name: &str,
    variables: &Variables<S>,
) -> Result<Option<InputValue<S>>, AllocError>
    ensures { Gives result (get_by_text variables.now name.now) }
{
    match variables.get(name) {
        Some(found) => Ok(Some(found.clone()?)),
        None => Ok(None),
    }
}

/// What the items of a list become, if each variable in them has a value.
#[cycle(constants)]
fn constant_items<S: ScalarValue + Drop>(
    items: &Items<Spanning<InputValue<S>>>,
    alloc: Global,
    variables: &Variables<S>,
) -> Result<Option<Items<Spanning<InputValue<S>>>>, AllocError>
    ensures { Gives result (each_given (constant_item (get_by_text variables.now)) items.now) }
{
    let mut constants = Items::new(alloc);
    for part in items.as_slice() {
        let Some(item) = constant(&part.item, alloc, variables)? else {
            return Ok(None);
        };
        push_at(&mut constants, item, part.span)?;
    }
    Ok(Some(constants))
}

/// What the fields of an object become, if each variable in them has a value.
#[cycle(constants)]
fn constant_pairs<S: ScalarValue + Drop>(
    pairs: &Items<(Spanning<Text>, Spanning<InputValue<S>>)>,
    alloc: Global,
    variables: &Variables<S>,
) -> Result<Option<Items<(Spanning<Text>, Spanning<InputValue<S>>)>>, AllocError>
    ensures { Gives result (each_given (constant_pair (get_by_text variables.now)) pairs.now) }
{
    let mut constants = Items::new(alloc);
    for pair in pairs.as_slice() {
        let Some(item) = constant(&pair.1.item, alloc, variables)? else {
            return Ok(None);
        };
        push_field(&mut constants, pair, item)?;
    }
    Ok(Some(constants))
}
