//! The places at which a directive may stand.

ghost use Rattle.std.specs.Prelude.{◌≡◌, Some};
ghost use Rattle.graphql_schema.specs.DirectiveTypes.{words};

use std::fmt;

/// The places at which a directive may stand (GraphQL October 2021, 3.13 Directives,
/// DirectiveLocation): every place in an executable document, and those places in a type system at
/// which a directive of the standard's own may stand.
#[derive(Clone, Copy, Debug, PartialEq, Eq)]
pub enum DirectiveLocation {
    /// A query operation.
    Query,

    /// A mutation operation.
    Mutation,

    /// A subscription operation.
    Subscription,

    /// A field of a selection set.
    Field,

    /// The definition of a scalar.
    Scalar,

    /// The definition of a fragment.
    FragmentDefinition,

    /// The definition of a field.
    FieldDefinition,

    /// The definition of a variable.
    VariableDefinition,

    /// A spread of a fragment.
    FragmentSpread,

    /// An inline fragment.
    InlineFragment,

    /// The definition of an enum value.
    EnumValue,
}

/// The place in words, in lower case.
fn in_words(location: DirectiveLocation) -> &'static str
    ensures { result.now ≡ words location }
{
    match location {
        DirectiveLocation::Query => "query",
        DirectiveLocation::Mutation => "mutation",
        DirectiveLocation::Subscription => "subscription",
        DirectiveLocation::Field => "field",
        DirectiveLocation::Scalar => "scalar",
        DirectiveLocation::FragmentDefinition => "fragment definition",
        DirectiveLocation::FieldDefinition => "field definition",
        DirectiveLocation::VariableDefinition => "variable definition",
        DirectiveLocation::FragmentSpread => "fragment spread",
        DirectiveLocation::InlineFragment => "inline fragment",
        DirectiveLocation::EnumValue => "enum value",
    }
}

/// Writes the place in words, in lower case.
impl fmt::Display for DirectiveLocation {
    ghost output = { λ location. Some (words location) };

    fn fmt<W: fmt::Write>(&self, f: &mut fmt::Formatter<W>) -> fmt::Result {
        f.write_str(in_words(*self))
    }
}
