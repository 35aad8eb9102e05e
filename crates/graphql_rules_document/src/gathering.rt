//! What a walk over a document gathers of its operations and fragments.

ghost use Rattle.std.specs.Prelude.{◌≡◌, OnOk, fold};
ghost use Rattle.std.specs.Option.{option_map};
ghost use Rattle.graphql_text.specs.Memory.{GivesBy};
ghost use Rattle.graphql_tree.specs.Documents.{variables_in as variables_given};
ghost use Rattle.graphql_occurrences.specs.Events.{seen_event};
ghost use Rattle.graphql_occurrences.specs.Lent.{around_of, event_of, node_of};
ghost use Rattle.graphql_occurrences.specs.Nodes.{AtFragment, AtFragmentSpread, AtOperation};
ghost use Rattle.graphql_occurrences.specs.Nodes.{AtValue, Enter, Leave, fragment_head};
ghost use Rattle.graphql_occurrences.specs.Nodes.{operation_head, placed_as, spread_head};
ghost use Rattle.graphql_occurrences.specs.Nodes.{value_head};
ghost use Rattle.graphql_occurrences.specs.PartsOf.{parts_at, parts_of_event};
ghost use Rattle.graphql_document_walk.specs.Pending.{ahead};
ghost use Rattle.graphql_rules_document.specs.Gathered.{closed, gathered, noted, nothing};
ghost use Rattle.graphql_rules_document.specs.Gathered.{scopes_gathered, with_event};
ghost use Rattle.graphql_rules_document.specs.Lent.{scopes_told};

use crate::scopes::{FragmentScope, OperationScope, Scopes, Spread, Use};
use graphql_document_walk::Walk;
use graphql_occurrences::{Around, Event, Node};
use graphql_text::{Items, Spanning, TextRef};
use graphql_tree::{Fragment, FragmentSpread, Operation, VariableDefinition, VariableDefinitions};
use graphql_values::InputValue;
use std::alloc::{AllocError, Global};
use std::mem;

/// What was gathered so far of the operations and the fragments of a document, event by event: for
/// those who walk over the document themselves. `scopes_of` gathers those of a whole document.
#[derive(Drop)]
pub struct Gathering<'a, 't, S> {
    // The operations and the fragments that are over.
    operations: Items<OperationScope<'a, 't, S>>,
    fragments: Items<FragmentScope<'a>>,

    // What the definition at hand uses and spreads.
    uses: Items<Use<'a>>,
    spreads: Items<Spread<'a>>,
}

/// The variables, if there are any.
fn variables_in<'b, 't, S>(
    variables: &'b Option<Spanning<VariableDefinitions<'t, S>>>,
) -> &'b [(Spanning<TextRef<'t>>, VariableDefinition<'t, S>)]
    ensures { result.now ≡ variables_given variables.now }
{
    match variables {
        Some(variables) => variables.item.items.as_slice(),
        None => &[],
    }
}

/// The name, if there is one.
fn name_in<'b, 't>(name: &'b Option<Spanning<TextRef<'t>>>) -> Option<&'b str>
    ensures { option_map (λ n. n.now) result ≡ option_map (λ n. n.item) name.now }
{
    match name {
        Some(name) => Some(name.item.as_str()),
        None => None,
    }
}

impl<'a, 't, S> Gathering<'a, 't, S> {
    /// Nothing yet. Takes no memory.
    pub fn new(alloc: Global) -> Gathering<'a, 't, S>
        ensures { gathered result ≡ nothing }
    {
        Gathering {
            operations: Items::new(alloc),
            fragments: Items::new(alloc),
            uses: Items::new(alloc),
            spreads: Items::new(alloc),
        }
    }

    /// An operation is over.
    fn close_operation(
        &mut self,
        alloc: Global,
        operation: &'a Spanning<Operation<'t, S>>,
    ) -> Result<(), AllocError>
        ensures { OnOk result (gathered self.new
            ≡ closed (gathered self.old)
            (Leave (AtOperation (placed_as operation.now (operation_head operation.now.item))))) }
    {
        let uses = mem::replace(&mut self.uses, Items::new(alloc));
        let spreads = mem::replace(&mut self.spreads, Items::new(alloc));
        self.operations.push(OperationScope {
            name: name_in(&operation.item.name),
            place: operation.span.start,
            defined: variables_in(&operation.item.variable_definitions),
            uses,
            spreads,
        })?;
        Ok(())
    }

    /// A fragment is over.
    fn close_fragment(
        &mut self,
        alloc: Global,
        fragment: &'a Spanning<Fragment<'t, S>>,
    ) -> Result<(), AllocError>
        ensures { OnOk result (gathered self.new
            ≡ closed (gathered self.old)
            (Leave (AtFragment (placed_as fragment.now (fragment_head fragment.now.item))))) }
    {
        let uses = mem::replace(&mut self.uses, Items::new(alloc));
        let spreads = mem::replace(&mut self.spreads, Items::new(alloc));
        self.fragments.push(FragmentScope {
            name: fragment.item.name.item.as_str(),
            place: fragment.span.start,
            uses,
            spreads,
        })?;
        Ok(())
    }

    /// A value is entered: a variable is a use.
    #[tactic(auto, using(crate::proofs::GatheredLemmas::value_laws))]
    fn note_value<C>(
        &mut self,
        around: &Around<'a, S, C>,
        value: &'a Spanning<InputValue<S>>,
    ) -> Result<(), AllocError>
        ensures { OnOk result (gathered self.new ≡ fold noted (gathered self.old) (parts_at
            (around_of around.now) (AtValue (placed_as value.now (value_head value.now.item))))) }
    {
        match &value.item {
            InputValue::Variable(name) => {
                self.uses.push(Use {
                    name: name.as_str(),
                    place: value.span.start,
                    at: around.input,
                })?;
                Ok(())
            }
            InputValue::List(_) => Ok(()),
            InputValue::Object(_) => Ok(()),
            InputValue::Null => Ok(()),
            InputValue::Scalar(_) => Ok(()),
            InputValue::Enum(_) => Ok(()),
        }
    }

    /// A spread is entered.
    fn note_spread<C>(
        &mut self,
        around: &Around<'a, S, C>,
        spread: &'a Spanning<FragmentSpread<'t, S>>,
    ) -> Result<(), AllocError>
        ensures { OnOk result
            (gathered self.new ≡ fold noted (gathered self.old) (parts_at (around_of around.now)
            (AtFragmentSpread (placed_as spread.now (spread_head spread.now.item))))) }
    {
        match around.parent {
            Some(_) => {
                self.spreads.push(Spread {
                    name: spread.item.name.item.as_str(),
                    place: spread.span.start,
                })?;
                Ok(())
            }
            None => Ok(()),
        }
    }

    /// A node is entered.
    fn enter<C>(
        &mut self,
        around: &Around<'a, S, C>,
        node: &Node<'a, 't, S>,
    ) -> Result<(), AllocError>
        ensures { OnOk result (gathered self.new
            ≡ fold noted (gathered self.old)
            (parts_of_event (around_of around.now) (Enter (node_of node.now)))) }
    {
        match node {
            Node::Value(value) => self.note_value(around, value),
            Node::FragmentSpread(spread) => self.note_spread(around, spread),
            Node::Field(_, _) => Ok(()),
            Node::Directive(_, _, _) => Ok(()),
            Node::Document(_) => Ok(()),
            Node::Operation(_) => Ok(()),
            Node::Fragment(_) => Ok(()),
            Node::VariableDefinition(_) => Ok(()),
            Node::Argument(_, _, _) => Ok(()),
            Node::SelectionSet(_) => Ok(()),
            Node::InlineFragment(_) => Ok(()),
            Node::ObjectField(_) => Ok(()),
        }
    }

    /// A node is left.
    fn leave(&mut self, alloc: Global, node: &Node<'a, 't, S>) -> Result<(), AllocError>
        ensures { OnOk result
            (gathered self.new ≡ closed (gathered self.old) (Leave (node_of node.now))) }
    {
        match node {
            Node::Operation(operation) => self.close_operation(alloc, operation),
            Node::Fragment(fragment) => self.close_fragment(alloc, fragment),
            Node::Field(_, _) => Ok(()),
            Node::Directive(_, _, _) => Ok(()),
            Node::Document(_) => Ok(()),
            Node::VariableDefinition(_) => Ok(()),
            Node::Argument(_, _, _) => Ok(()),
            Node::SelectionSet(_) => Ok(()),
            Node::FragmentSpread(_) => Ok(()),
            Node::InlineFragment(_) => Ok(()),
            Node::Value(_) => Ok(()),
            Node::ObjectField(_) => Ok(()),
        }
    }

    /// With what an event tells. An error is want of memory.
    pub fn take_in<C>(
        &mut self,
        alloc: Global,
        around: &Around<'a, S, C>,
        event: &Event<'a, 't, S>,
    ) -> Result<(), AllocError>
        ensures { OnOk result (gathered self.new
            ≡ with_event (gathered self.old)
            (seen_event (around_of around.now) (event_of event.now))) }
    {
        match event {
            Event::Enter(node) => self.enter(around, node),
            Event::Leave(node) => self.leave(alloc, node),
        }
    }

    /// The operations and the fragments that are over.
    pub fn into_scopes(self) -> Scopes<'a, 't, S>
        ensures { scopes_told result ≡ scopes_gathered (gathered self.entry) }
    {
        let Gathering {
            operations,
            fragments,
            uses: _,
            spreads: _,
        } = self;
        Scopes {
            operations,
            fragments,
        }
    }

    /// With what is ahead of a walk.
    fn take_all<C>(
        &mut self,
        alloc: Global,
        walk: &mut Walk<'a, 't, S, C>,
    ) -> Result<(), AllocError>
        ensures { OnOk result
            (gathered self.new ≡ fold with_event (gathered self.old) (ahead walk.old)) }
    {
        'events: while let Some(next) = walk.next()? {
            self.take_in(alloc, &next.around, &next.event)?;
        }
        Ok(())
    }
}

/// What the walk is to tell of operations and fragments. An error is want of memory.
pub(crate) fn gather<'a, 't, S, C>(
    alloc: Global,
    mut walk: Walk<'a, 't, S, C>,
) -> Result<Scopes<'a, 't, S>, AllocError>
    ensures { GivesBy scopes_told result
        (scopes_gathered (fold with_event nothing (ahead walk.entry))) }
{
    let mut gathering = Gathering::new(alloc);
    gathering.take_all(alloc, &mut walk)?;
    Ok(gathering.into_scopes())
}
