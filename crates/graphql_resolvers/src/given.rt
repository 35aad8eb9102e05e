//! What is given to arguments.

ghost use Rattle.std.specs.Prelude.{◌≡◌, ◌↔◌, IsTrue, Some, [], ◌∷◌, is_some};
ghost use Rattle.std.specs.Option.{option_copied};
ghost use Rattle.graphql_resolvers.specs.Inputs.{field_named, inputs_of, null};
ghost use Rattle.graphql_arguments.specs.GivenValues.{arguments_told};
ghost use Rattle.graphql_resolvers.specs.Told as spec;

use graphql_arguments::Arguments;
use graphql_scalars::DefaultScalarValue;
use graphql_text::{Spanning, Text};
use graphql_values::InputValue;
use std::alloc::Global;

/// A field of an input object, with its name.
type Pair = (Spanning<Text>, Spanning<InputValue<DefaultScalarValue>>);

/// Where what is given stands.
#[derive(Clone, Copy)]
pub(crate) enum Source<'a> {
    /// In the arguments of a field.
    Arguments(&'a Arguments<'a, DefaultScalarValue>),

    /// In the fields of an input object.
    Fields(&'a [Pair]),
}

/// What is given to a field's arguments, or to the fields of an input object, under their names:
/// literals, values of variables, and defaults of arguments where nothing is given (GraphQL October
/// 2021, 6.4.1 Coercing Field Arguments, 3.10 Input Objects).
///
/// A resolver asks for a value by a name and a kind. Where something of another kind stands there,
/// or nothing where it is needed, the answer is the error of the field, which names the argument.
#[derive(Clone, Copy)]
pub struct Given<'a> {
    /// Where memory is taken.
    pub(crate) alloc: Global,

    /// Where it stands.
    pub(crate) source: Source<'a>,
}

/// The value of the first field of this name.
fn field_named<'a>(pairs: &'a [Pair], name: &str) -> Option<&'a InputValue<DefaultScalarValue>>
    ensures { option_copied result ≡ field_named pairs.now name.now }
{
    for pair in pairs {
        if pair.0.item.as_str() == name {
            return Some(&pair.1.item);
        }
    }
    None
}

impl<'a> Given<'a> {
    /// What is given to these arguments.
    pub fn new(alloc: Global, arguments: &'a Arguments<'a, DefaultScalarValue>) -> Given<'a>
        ensures { spec.given_to result ≡ inputs_of (arguments_told arguments.now) }
    {
        let source = Source::Arguments(arguments);
        Given { alloc, source }
    }

    /// The value under this name.
    pub(crate) fn value(&self, name: &str) -> Option<&'a InputValue<DefaultScalarValue>>
        ensures { option_copied result ≡ spec.named_in self.now.source name.now }
    {
        match self.source {
            Source::Arguments(arguments) => arguments.get_input_value(name),
            Source::Fields(pairs) => field_named(pairs, name),
        }
    }

    /// Whether something stands under this name, if only `null`.
    pub fn is_given(&self, name: &str) -> bool
        ensures { result ≡ is_some (spec.given_to self.now (name.now ∷ [])) }
    {
        self.value(name).is_some()
    }

    /// Whether `null` stands under this name (GraphQL October 2021, 2.9.5 Null Value).
    pub fn is_null(&self, name: &str) -> bool
        ensures { IsTrue result ↔ (spec.given_to self.now (name.now ∷ []) ≡ Some null) }
    {
        match self.value(name) {
            Some(InputValue::Null) => true,
            _ => false,
        }
    }
}
