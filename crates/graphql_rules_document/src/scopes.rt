//! What operations and fragments hold.

ghost use Rattle.std.specs.Prelude.{◌≡◌};
ghost use Rattle.graphql_text.specs.Memory.{GivesBy};
ghost use Rattle.graphql_schema.specs.Declarations.{declarations_of};
ghost use Rattle.graphql_rules_document.specs.Lent.{scopes_told};
ghost use Rattle.graphql_rules_document.specs.Scopes.{scopes_in};

use crate::gathering::gather;
use graphql_document_walk::Walk;
use graphql_occurrences::InputPlace;
use graphql_schema::SchemaType;
use graphql_text::{Items, SourcePosition, Spanning, TextRef};
use graphql_tree::{Definition, VariableDefinition};
use std::alloc::{AllocError, Global};

/// A variable where it stands for a value (GraphQL October 2021, 2.10 Variables).
#[derive(Clone, Copy)]
pub struct Use<'a> {
    /// The variable's name, without the `$`.
    pub name: &'a str,

    /// Where it begins: its `$`.
    pub place: SourcePosition,

    /// Where the value stands, where that is known.
    pub at: Option<InputPlace<'a>>,
}

/// A fragment where it is spread (GraphQL October 2021, 2.8 Fragments).
#[derive(Clone, Copy)]
pub struct Spread<'a> {
    /// The fragment's name.
    pub name: &'a str,

    /// Where the spread begins: its dots.
    pub place: SourcePosition,
}

/// What an operation defines, uses and spreads (GraphQL October 2021, 2.3 Operations).
#[derive(Drop)]
pub struct OperationScope<'a, 't, S> {
    /// The operation's name, if it has one.
    pub name: Option<&'a str>,

    /// Where it begins.
    pub place: SourcePosition,

    /// The variables that it defines, in order.
    pub defined: &'a [(Spanning<TextRef<'t>>, VariableDefinition<'t, S>)],

    /// The variables within it where they are used, in order.
    pub uses: Items<Use<'a>>,

    /// The spreads within it, in order.
    pub spreads: Items<Spread<'a>>,
}

/// What a fragment uses and spreads (GraphQL October 2021, 2.8 Fragments).
#[derive(Drop)]
pub struct FragmentScope<'a> {
    /// The fragment's name.
    pub name: &'a str,

    /// Where it begins: its word `fragment`.
    pub place: SourcePosition,

    /// The variables within it where they are used, in order.
    pub uses: Items<Use<'a>>,

    /// The spreads within it, in order.
    pub spreads: Items<Spread<'a>>,
}

/// What the operations and the fragments of a document hold, each in the order of the document.
/// Below an unknown type there is nothing.
#[derive(Drop)]
pub struct Scopes<'a, 't, S> {
    /// The operations.
    pub operations: Items<OperationScope<'a, 't, S>>,

    /// The fragments.
    pub fragments: Items<FragmentScope<'a>>,
}

/// What the operations and the fragments of `document` hold, with the types of `schema`. It lends
/// names and definitions of the document, and copies none. It walks over the document once. An
/// error is want of memory.
pub fn scopes_of<'a, 't, S, C>(
    alloc: Global,
    schema: &'a SchemaType<S, C>,
    document: &'a [Definition<'t, S>],
) -> Result<Scopes<'a, 't, S>, AllocError>
    ensures { GivesBy scopes_told result (scopes_in (declarations_of schema.now) document.now) }
{
    let walk = Walk::new(alloc, schema, document)?;
    gather(alloc, walk)
}
