//! Input values, as a document writes them.

ghost use Rattle.std.specs.Prelude.{◌≡◌, ℕ, List, map, IsTrue, ◌↔◌};
ghost use Rattle.graphql_text.specs.Memory.{Gives};
ghost use Rattle.graphql_values.specs.InputValues.{unplaced, unplaced_pair};
ghost use Rattle.graphql_values.specs.declared.input_value.InputValue.TheVariants as value;

mod clones;
mod display;
mod equality;
mod let_go;
mod parts;
pub(crate) mod pushed;
mod variables;
mod walk;

use graphql_scalars::DefaultScalarValue;
use graphql_text::{Items, Spanning, Text};
pub use pushed::push_unlocated;
use pushed::{unlocated_fields, unlocated_items};
use std::alloc::{AllocError, Global};
pub use variables::Variables;

/// A value that a document gives to an argument, a variable or an input field, before any type is
/// known for it (GraphQL October 2021, 2.9 Input Values).
///
/// A value nests as deep as its text is long. It is read, shown, compared and let go by loops; a
/// call that goes down by calling itself says that it takes stack for each level. Such a call is
/// for a value that the type asked for has been found to fit, which bounds its depth, but where
/// input types hold themselves.
#[derive(Debug)]
pub enum InputValue<S = DefaultScalarValue> {
    /// `null`
    Null,

    /// A number, a string or a boolean.
    Scalar(S),

    /// An enum value, by its name.
    Enum(Text),

    /// A variable, by its name without the `$`.
    Variable(Text),

    /// A list of values, in order.
    List(Items<Spanning<InputValue<S>>>),

    /// An input object: its fields' names and values, in order.
    Object(Items<(Spanning<Text>, Spanning<InputValue<S>>)>),
}

/// A loop, which takes no memory, and no more stack however deep the value is. It ends since each
/// turn lets one go of the values that stand in this one, itself among them.
impl<S: Drop> Drop for InputValue<S> {
    fn drop(mut self) {
        'values: while let Some(others) = self.let_one_go() {
            self = others;
        }
    }
}

impl<S> InputValue<S> {
    /// The value `null`.
    pub fn null() -> InputValue<S>
        ensures { result ≡ value.Null }
    {
        InputValue::Null
    }

    /// The value of the scalar that `scalar` converts to, or is.
    pub fn scalar<T: Into<S>>(scalar: T) -> InputValue<S>
        ensures { (s : S) × T.converts scalar s × (result ≡ value.Scalar s) }
    {
        InputValue::Scalar(scalar.into())
    }

    /// The enum value of this name. An error is want of memory.
    pub fn enum_value(alloc: Global, name: &str) -> Result<InputValue<S>, AllocError>
        ensures { Gives result (value.Enum name.now) }
    {
        Ok(InputValue::Enum(Text::from_str(alloc, name)?))
    }

    /// The variable of this name, which is given without its `$`. An error is want of memory.
    pub fn variable(alloc: Global, name: &str) -> Result<InputValue<S>, AllocError>
        ensures { Gives result (value.Variable name.now) }
    {
        Ok(InputValue::Variable(Text::from_str(alloc, name)?))
    }

    /// The list of these values, which stand in no text. An error is want of memory.
    pub fn list(alloc: Global, values: Vec<InputValue<S>>) -> Result<InputValue<S>, AllocError>
    where
        S: Drop,
        ensures { Gives result (value.List (map unplaced values.items)) }
    {
        Ok(InputValue::List(unlocated_items(alloc, values)?))
    }

    /// The list of these values, at their places. Takes no memory.
    pub fn parsed_list(items: Items<Spanning<InputValue<S>>>) -> InputValue<S>
        ensures { result ≡ value.List items }
    {
        InputValue::List(items)
    }

    /// The input object of these fields, in order, whose names and values stand in no text. An
    /// error is want of memory.
    pub fn object(
        alloc: Global,
        fields: Vec<(Text, InputValue<S>)>,
    ) -> Result<InputValue<S>, AllocError>
    where
        S: Drop,
        ensures { Gives result (value.Object (map unplaced_pair fields.items)) }
    {
        Ok(InputValue::Object(unlocated_fields(alloc, fields)?))
    }

    /// The input object of these fields, in order, at their places. Takes no memory.
    pub fn parsed_object(pairs: Items<(Spanning<Text>, Spanning<InputValue<S>>)>) -> InputValue<S>
        ensures { result ≡ value.Object pairs }
    {
        InputValue::Object(pairs)
    }

    /// Whether this is a variable. A list or an object that holds one is none itself.
    pub fn is_variable(&self) -> bool
        ensures { IsTrue result ↔ ((name : List ℕ) × (self.now ≡ value.Variable name)) }
    {
        match self {
            InputValue::Variable(_) => true,
            _ => false,
        }
    }
}
