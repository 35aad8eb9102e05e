//! What a walk has yet to do, on a stack of its own.

ghost use Rattle.std.specs.Prelude.{◌≡◌, ◌∷◌, [], ◌++◌, OnOk};
ghost use Rattle.graphql_schema.specs.Declarations.{declarations_of};
ghost use Rattle.graphql_occurrences.specs.Events.{seen_event};
ghost use Rattle.graphql_occurrences.specs.Lent.{around_of, event_of, node_of};
ghost use Rattle.graphql_document_walk.specs.Pending.{PutsFirst, OpensEvents, part_events};
ghost use Rattle.graphql_document_walk.specs.Pending.{side_event};
ghost use Rattle.graphql_document_walk.specs.Siblings as spec;

use graphql_occurrences::{Around, DeclaredArguments, Event, Node, Owner};
use graphql_schema::{DirectiveLocation, SchemaScalar, SchemaType};
use graphql_text::{Items, Spanning, Text, TextRef};
use graphql_tree::{Definition, Directive, Selection, VariableDefinition};
use graphql_values::InputValue;
use std::alloc::AllocError;

/// A part of a document that a walk goes through. Siblings are one part, so that there are no more
/// tasks than the tree is deep, but for a few at each level.
#[derive(Drop)]
pub(crate) enum Part<'a, 't, S> {
    /// A document.
    Document(&'a [Definition<'t, S>]),

    /// Definitions.
    Definitions(&'a [Definition<'t, S>]),

    /// The definitions of variables.
    Variables(&'a [(Spanning<TextRef<'t>>, VariableDefinition<'t, S>)]),

    /// Directives, which stand at this place.
    Directives(DirectiveLocation, &'a [Spanning<Directive<'t, S>>]),

    /// Arguments, by what they are given to and what is declared there.
    Arguments(
        Owner<'a>,
        Option<DeclaredArguments<'a, S>>,
        &'a [(Spanning<TextRef<'t>>, Spanning<InputValue<S>>)],
    ),

    /// A selection set.
    Set(&'a [Selection<'t, S>]),

    /// Selections.
    Selections(&'a [Selection<'t, S>]),

    /// A value.
    Value(&'a Spanning<InputValue<S>>),

    /// The items of a list.
    Items(&'a [Spanning<InputValue<S>>]),

    /// The fields of an object.
    Pairs(&'a [(Spanning<Text>, Spanning<InputValue<S>>)]),
}

/// A node is entered, or left.
#[derive(Drop)]
pub(crate) enum Side {
    /// It is entered.
    Enter,

    /// It is left.
    Leave,
}

/// What a walk has yet to do.
#[derive(Drop)]
pub(crate) enum Work<'a, 't, S> {
    /// To tell that a node is entered or left.
    Tell(Side, Node<'a, 't, S>),

    /// To go through a part.
    Through(Part<'a, 't, S>),
}

/// What a walk has yet to do, and the types around it.
#[derive(Drop)]
pub(crate) struct Task<'a, 't, S, C = <S as SchemaScalar>::Check> {
    pub(crate) around: Around<'a, S, C>,
    pub(crate) work: Work<'a, 't, S>,
}

/// Puts an item on top. An error is want of memory.
fn put<T: Drop>(items: &mut Items<T>, item: T) -> Result<(), AllocError>
    ensures { OnOk result (items.new ≡ items.old ++ item ∷ []) }
{
    items.push(item)?;
    Ok(())
}

/// How many siblings stand in a part. A document, a set and a value stand alone.
fn siblings_in<S>(part: &Part<'_, '_, S>) -> usize
    ensures { result ≡ spec.siblings_in part.now }
{
    match part {
        Part::Document(_) => 1,
        Part::Definitions(definitions) => definitions.len(),
        Part::Variables(variables) => variables.len(),
        Part::Directives(_, directives) => directives.len(),
        Part::Arguments(_, _, arguments) => arguments.len(),
        Part::Set(_) => 1,
        Part::Selections(selections) => selections.len(),
        Part::Value(_) => 1,
        Part::Items(items) => items.len(),
        Part::Pairs(pairs) => pairs.len(),
    }
}

/// Puts a part on top, to be gone through, if anything stands in it. An error is want of memory.
pub(crate) fn add<'a, 't, S, C>(
    schema: &'a SchemaType<S, C>,
    tasks: &mut Items<Task<'a, 't, S, C>>,
    around: Around<'a, S, C>,
    part: Part<'a, 't, S>,
) -> Result<(), AllocError>
    ensures { OnOk result (PutsFirst (declarations_of schema.now) (part_events
        (declarations_of schema.now) part.entry (around_of around.entry)) tasks.old tasks.new) }
{
    if siblings_in(&part) == 0 {
        return Ok(());
    }
    put(
        tasks,
        Task {
            around,
            work: Work::Through(part),
        },
    )
}

/// Puts on top that a node is entered or left. An error is want of memory.
pub(crate) fn tell<'a, 't, S, C>(
    schema: &'a SchemaType<S, C>,
    tasks: &mut Items<Task<'a, 't, S, C>>,
    around: Around<'a, S, C>,
    side: Side,
    node: Node<'a, 't, S>,
) -> Result<(), AllocError>
    ensures { OnOk result (OpensEvents (declarations_of schema.now)
        (seen_event (around_of around.entry) (side_event side (node_of node.entry)) ∷ []) tasks.old
        tasks.new) }
{
    put(
        tasks,
        Task {
            around,
            work: Work::Tell(side, node),
        },
    )
}

/// The node is entered or left.
pub(crate) fn event<'a, 't, S>(side: Side, node: Node<'a, 't, S>) -> Event<'a, 't, S>
    ensures { event_of result ≡ side_event side (node_of node.entry) }
{
    match side {
        Side::Enter => Event::Enter(node),
        Side::Leave => Event::Leave(node),
    }
}
