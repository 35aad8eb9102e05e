//! What a walk over a document enters and leaves.

use crate::around::Around;
use crate::{DeclaredArguments, KnownField};
use graphql_schema::{DirectiveLocation, DirectiveType, SchemaScalar};
use graphql_text::{Spanning, Text, TextRef};
use graphql_tree::{
    Definition, Directive, Field, Fragment, FragmentSpread, InlineFragment, Operation, Selection,
    VariableDefinition,
};
use graphql_values::InputValue;

/// What an argument is given to, by its name (GraphQL October 2021, 2.6 Arguments).
#[derive(Clone, Copy)]
pub enum Owner<'a> {
    /// A field.
    Field(&'a str),

    /// A directive, without the `@`.
    Directive(&'a str),
}

/// A node of a document's tree, lent, with what the schema declares there.
#[derive(Drop)]
pub enum Node<'a, 't, S> {
    /// The whole document.
    Document(&'a [Definition<'t, S>]),

    /// An operation.
    Operation(&'a Spanning<Operation<'t, S>>),

    /// A fragment.
    Fragment(&'a Spanning<Fragment<'t, S>>),

    /// The definition of a variable: its name, and what is said of it.
    VariableDefinition(&'a (Spanning<TextRef<'t>>, VariableDefinition<'t, S>)),

    /// A directive, with where it stands, and the directive of its name, where the schema has one.
    Directive(DirectiveLocation, Option<&'a DirectiveType<S>>, &'a Spanning<Directive<'t, S>>),

    /// An argument, its name and its value, with what it is given to, and the arguments that are
    /// declared there, where the field or the directive is known.
    Argument(
        Owner<'a>,
        Option<DeclaredArguments<'a, S>>,
        &'a (Spanning<TextRef<'t>>, Spanning<InputValue<S>>),
    ),

    /// A selection set of a known type.
    SelectionSet(&'a [Selection<'t, S>]),

    /// A field, with the field of its name that its parent has, if it has one.
    Field(Option<KnownField<'a, S>>, &'a Spanning<Field<'t, S>>),

    /// A spread of a fragment.
    FragmentSpread(&'a Spanning<FragmentSpread<'t, S>>),

    /// An inline fragment.
    InlineFragment(&'a Spanning<InlineFragment<'t, S>>),

    /// A value: `null`, a scalar, an enum value, a variable, a list or an object, as it tells
    /// itself.
    Value(&'a Spanning<InputValue<S>>),

    /// A field of an input object, by its name; its value comes within.
    ObjectField(&'a Spanning<Text>),
}

/// A node is entered, and left once all within it has been.
///
/// Users of `juniper` find what its visitors are told so, each once for `Enter`, which is its
/// `enter_..`, and once for `Leave`, its `exit_..`:
///
/// | `juniper` | here |
/// |---|---|
/// | `document` | `Node::Document` |
/// | `operation_definition` | `Node::Operation` |
/// | `fragment_definition` | `Node::Fragment` |
/// | `variable_definition` | `Node::VariableDefinition` |
/// | `directive` | `Node::Directive` |
/// | `argument` | `Node::Argument` |
/// | `selection_set` | `Node::SelectionSet` |
/// | `field` | `Node::Field` |
/// | `fragment_spread` | `Node::FragmentSpread` |
/// | `inline_fragment` | `Node::InlineFragment` |
/// | `null_value` | `Node::Value` of an `InputValue::Null` |
/// | `scalar_value` | `Node::Value` of an `InputValue::Scalar` |
/// | `enum_value` | `Node::Value` of an `InputValue::Enum` |
/// | `variable_value` | `Node::Value` of an `InputValue::Variable` |
/// | `list_value` | `Node::Value` of an `InputValue::List` |
/// | `object_value` | `Node::Value` of an `InputValue::Object` |
/// | `object_field` | `Node::ObjectField` |
#[derive(Drop)]
pub enum Event<'a, 't, S> {
    /// The node is entered: what stands within it comes next, and then its `Leave`.
    Enter(Node<'a, 't, S>),

    /// The node is left.
    Leave(Node<'a, 't, S>),
}

/// An event, and the types around its node. They are the same where a node is entered and where it
/// is left.
#[derive(Drop)]
pub struct Seen<'a, 't, S, C = <S as SchemaScalar>::Check> {
    /// The types around the node.
    pub around: Around<'a, S, C>,

    /// The event.
    pub event: Event<'a, 't, S>,
}
