//! Documents and their definitions.

mod clones;

use crate::directive::Directive;
use crate::selection::Selection;
use crate::variable::VariableDefinitions;
use graphql_text::{Items, Spanning, TextRef};
use graphql_values::DefaultScalarValue;

/// What an operation does (GraphQL October 2021, 2.3 Operations).
#[derive(Clone, Copy, Debug, PartialEq, Eq)]
pub enum OperationType {
    /// Reads.
    Query,
    /// Writes, and then reads.
    Mutation,
    /// Reads on each event.
    Subscription,
}

/// An operation (GraphQL October 2021, 2.3 Operations).
#[derive(Debug, Drop)]
pub struct Operation<'a, S = DefaultScalarValue> {
    /// What it does; a query where it is written as a selection set alone.
    pub operation_type: OperationType,

    /// The name; none where it has none.
    pub name: Option<Spanning<TextRef<'a>>>,

    /// The variables, with the parentheses; none where there are none.
    pub variable_definitions: Option<Spanning<VariableDefinitions<'a, S>>>,

    /// The directives, in the order of the text; none where there are none.
    pub directives: Option<Items<Spanning<Directive<'a, S>>>>,

    /// What is selected.
    pub selection_set: Items<Selection<'a, S>>,
}

/// A fragment (GraphQL October 2021, 2.8 Fragments).
#[derive(Debug, Drop)]
pub struct Fragment<'a, S = DefaultScalarValue> {
    /// The name.
    pub name: Spanning<TextRef<'a>>,

    /// The type to which it applies, without the `on`.
    pub type_condition: Spanning<TextRef<'a>>,

    /// The directives, in the order of the text; none where there are none.
    pub directives: Option<Items<Spanning<Directive<'a, S>>>>,

    /// What is selected.
    pub selection_set: Items<Selection<'a, S>>,
}

/// A definition of a document (GraphQL October 2021, 2.2 Document).
#[derive(Debug, Drop)]
pub enum Definition<'a, S = DefaultScalarValue> {
    /// An operation, from its first token to its last.
    Operation(Spanning<Operation<'a, S>>),

    /// A fragment, from its first token to its last.
    Fragment(Spanning<Fragment<'a, S>>),
}

/// A document that owns its definitions, in the order of the text.
pub type OwnedDocument<'a, S = DefaultScalarValue> = Items<Definition<'a, S>>;
