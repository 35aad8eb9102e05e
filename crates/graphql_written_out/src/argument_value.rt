//! Literals with the values of variables in their stead, read layer by layer and not copied.

ghost use Rattle.std.specs.Prelude.{◌≡◌, ◌∷◌, [], MatchOption, length};
ghost use Rattle.std.specs.Option.{option_map};
ghost use Rattle.graphql_written_out.specs.Filled.{filled};
ghost use Rattle.graphql_written_out.specs.FinalVariables.{value_in};
ghost use Rattle.graphql_written_out.specs.Told.{fields_told, items_told, part_told, placed_value};
ghost use Rattle.graphql_written_out.specs.Told.{value_told};

use crate::final_variables::FinalVariables;
use graphql_text::{Spanning, Text};
use graphql_values::InputValue;

/// The value of an argument (GraphQL October 2021, 6.4.1 Coercing Field Arguments): a literal of a
/// document with the values of variables in their stead. It is read layer by layer, and lends what
/// the literal and the variables hold, so no variable's value is copied, however often the variable
/// stands in a literal.
///
/// A variable without a value is `null` as an item of a list; as a field of an object it is absent.
#[derive(Clone, Copy)]
pub enum ArgumentValue<'a, S> {
    /// `null`
    Null,

    /// A number, a string or a boolean.
    Scalar(&'a S),

    /// An enum value, by its name.
    Enum(&'a str),

    /// A variable that stands in the value of a variable, by its name without the `$`. The values
    /// of a request's variables hold none.
    Variable(&'a str),

    /// A list of values, in order.
    List(ArgumentItems<'a, S>),

    /// An input object: its fields' names and values, in order.
    Object(ArgumentFields<'a, S>),
}

/// The items of a list that have yet to be read.
#[derive(Clone, Copy)]
pub struct ArgumentItems<'a, S> {
    items: &'a [Spanning<InputValue<S>>],
    /// What variables among them stand for, where they stand in a literal.
    variables: Option<&'a FinalVariables<'a, S>>,
}

/// The fields of an input object that have yet to be read.
#[derive(Clone, Copy)]
pub struct ArgumentFields<'a, S> {
    fields: &'a [(Spanning<Text>, Spanning<InputValue<S>>)],
    /// What variables among their values stand for, where they stand in a literal.
    variables: Option<&'a FinalVariables<'a, S>>,
}

impl<'a, S> ArgumentValue<'a, S> {
    /// The literal, with the values of variables in their stead; `None` where it is a variable
    /// without a value. Takes no memory, and no more time than it takes to find one variable by its
    /// name.
    pub fn new(
        literal: &'a InputValue<S>,
        variables: &'a FinalVariables<'a, S>,
    ) -> Option<ArgumentValue<'a, S>>
        ensures { option_map value_told result ≡ filled (value_in variables.now) literal.now }
    {
        match literal {
            InputValue::Variable(name) => match variables.get(name.as_str()) {
                Some(value) => Some(final_value(value)),
                None => None,
            },
            InputValue::Null => Some(ArgumentValue::Null),
            InputValue::Scalar(scalar) => Some(ArgumentValue::Scalar(scalar)),
            InputValue::Enum(name) => Some(ArgumentValue::Enum(name.as_str())),
            InputValue::List(items) => Some(ArgumentValue::List(ArgumentItems {
                items: items.as_slice(),
                variables: Some(variables),
            })),
            InputValue::Object(pairs) => Some(ArgumentValue::Object(ArgumentFields {
                fields: pairs.as_slice(),
                variables: Some(variables),
            })),
        }
    }
}

/// A variable's value, as it is.
fn final_value<S>(value: &InputValue<S>) -> ArgumentValue<'_, S>
    ensures { value_told result ≡ value.now }
{
    match value {
        InputValue::Null => ArgumentValue::Null,
        InputValue::Scalar(scalar) => ArgumentValue::Scalar(scalar),
        InputValue::Enum(name) => ArgumentValue::Enum(name.as_str()),
        InputValue::Variable(name) => ArgumentValue::Variable(name.as_str()),
        InputValue::List(items) => ArgumentValue::List(ArgumentItems {
            items: items.as_slice(),
            variables: None,
        }),
        InputValue::Object(pairs) => ArgumentValue::Object(ArgumentFields {
            fields: pairs.as_slice(),
            variables: None,
        }),
    }
}

/// A part of a literal where there are variables, else of a variable's value; `None` where it is a
/// variable without a value.
fn part<'a, S>(
    value: &'a InputValue<S>,
    variables: Option<&'a FinalVariables<'a, S>>,
) -> Option<ArgumentValue<'a, S>>
    ensures { option_map value_told result
        ≡ part_told (option_map (λ v. value_in v.now) variables.entry) value.now }
{
    match variables {
        Some(given) => ArgumentValue::new(value, given),
        None => Some(final_value(value)),
    }
}

impl<'a, S> ArgumentItems<'a, S> {
    /// How many items have yet to be read.
    pub fn len(&self) -> usize
        ensures { result ≡ length (items_told self.now) }
    {
        self.items.len()
    }

    /// The next item, at its place, or `None` at the end of the list. A variable without a value is
    /// `null`.
    pub fn next(&mut self) -> Option<Spanning<ArgumentValue<'a, S>>>
        ensures { MatchOption result (items_told self.old ≡ [])
            (λ item. items_told self.old ≡ placed_value item ∷ items_told self.new) }
    {
        match self.items.split_first() {
            Some((first, others)) => {
                self.items = others;
                let span = first.span;
                let item = match part(&first.item, self.variables) {
                    Some(value) => value,
                    None => ArgumentValue::Null,
                };
                Some(Spanning { item, span })
            }
            None => None,
        }
    }
}

impl<'a, S> ArgumentFields<'a, S> {
    /// The next field, its name and its value at their places, or `None` at the end of the object.
    /// A field whose value is a variable without a value is passed over.
    pub fn next(&mut self) -> Option<(&'a Spanning<Text>, Spanning<ArgumentValue<'a, S>>)>
        ensures { MatchOption result (fields_told self.old ≡ [])
            (λ field. fields_told self.old ≡ (field.0.now, placed_value field.1)
            ∷ fields_told self.new) }
    {
        'fields: while let Some((first, others)) = self.fields.split_first() {
            self.fields = others;
            if let Some(item) = part(&first.1.item, self.variables) {
                let span = first.1.span;
                return Some((&first.0, Spanning { item, span }));
            }
        }
        None
    }
}
