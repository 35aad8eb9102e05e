//! Values of arguments, with the values of variables in their stead, read layer by layer.

ghost use Rattle.std.specs.Prelude.{◌≡◌};
ghost use Rattle.graphql_look_ahead.specs.Seen.{seen_alone, seen_in};
ghost use Rattle.graphql_look_ahead.specs.Values.{seen_by, value_shown};

use crate::list::LookAheadList;
use crate::object::LookAheadObject;
use graphql_values::InputValue;
use graphql_written_out::FinalVariables;

/// The value of an argument, or a part of it, with the values of variables in their stead. It is
/// read layer by layer, and lends what the document and the variables hold.
///
/// A variable without a value is `null`, wherever it stands. A variable that stands in the value of
/// a variable is `null` too; the values of a request's variables hold none.
#[derive_where(Clone, Copy)]
pub enum LookAheadValue<'a, S> {
    /// `null`
    Null,

    /// A number, a string or a boolean.
    Scalar(&'a S),

    /// An enum value, by its name.
    Enum(&'a str),

    /// A list of values, in order.
    List(LookAheadList<'a, S>),

    /// An input object: its fields' names and values, in order.
    Object(LookAheadObject<'a, S>),
}

impl<'a, S> LookAheadValue<'a, S> {
    /// The value that is written so, where the variables in it have these values; without
    /// variables, a part of a variable's value.
    pub(crate) fn new(
        written: &'a InputValue<S>,
        variables: Option<&'a FinalVariables<'a, S>>,
    ) -> LookAheadValue<'a, S>
        ensures { value_shown result ≡ seen_by variables.entry written.now }
    {
        match variables {
            Some(given) => in_document(written, given),
            None => alone(written),
        }
    }
}

/// A value that a document writes, where the variables in it have these values.
fn in_document<'a, S>(
    written: &'a InputValue<S>,
    variables: &'a FinalVariables<'a, S>,
) -> LookAheadValue<'a, S>
    ensures { value_shown result ≡ seen_in variables.now written.now }
{
    match written {
        InputValue::Null => LookAheadValue::Null,
        InputValue::Scalar(scalar) => LookAheadValue::Scalar(scalar),
        InputValue::Enum(name) => LookAheadValue::Enum(name.as_str()),
        InputValue::Variable(name) => match variables.get(name.as_str()) {
            Some(value) => alone(value),
            None => LookAheadValue::Null,
        },
        InputValue::List(items) => {
            LookAheadValue::List(LookAheadList::new(items.as_slice(), Some(variables)))
        }
        InputValue::Object(pairs) => {
            LookAheadValue::Object(LookAheadObject::new(pairs.as_slice(), Some(variables)))
        }
    }
}

/// A variable's value, or a part of it.
fn alone<S>(value: &InputValue<S>) -> LookAheadValue<'_, S>
    ensures { value_shown result ≡ seen_alone value.now }
{
    match value {
        InputValue::Null => LookAheadValue::Null,
        InputValue::Scalar(scalar) => LookAheadValue::Scalar(scalar),
        InputValue::Enum(name) => LookAheadValue::Enum(name.as_str()),
        InputValue::Variable(_) => LookAheadValue::Null,
        InputValue::List(items) => LookAheadValue::List(LookAheadList::new(items.as_slice(), None)),
        InputValue::Object(pairs) => {
            LookAheadValue::Object(LookAheadObject::new(pairs.as_slice(), None))
        }
    }
}
