//! Lists of visitors, which step over a document together.

ghost use Rattle.std.specs.Prelude.{◌≡◌};

use crate::context::ValidatorContext;
use crate::visitor::Visitor;
use graphql_occurrences::Event;
use graphql_schema::SchemaScalar;

/// No visitor.
#[derive(Drop)]
pub struct MultiVisitorNil;

/// A visitor, and after it others: at each event the first one's errors come before the others'.
#[derive(Drop)]
pub struct MultiVisitorCons<A, B> {
    first: A,
    second: B,
}

impl MultiVisitorNil {
    /// This visitor alone.
    pub fn with<V>(self, visitor: V) -> MultiVisitorCons<V, MultiVisitorNil>
        ensures first { result.first ≡ visitor }
        ensures second { result.second ≡ self }
    {
        MultiVisitorCons {
            first: visitor,
            second: self,
        }
    }
}

impl<A, B> MultiVisitorCons<A, B> {
    /// This visitor, and after it those of the list.
    pub fn with<V>(self, visitor: V) -> MultiVisitorCons<V, MultiVisitorCons<A, B>>
        ensures first { result.first ≡ visitor }
        ensures second { result.second ≡ self }
    {
        MultiVisitorCons {
            first: visitor,
            second: self,
        }
    }

    /// The first visitor, which stays in the list.
    pub fn first(&self) -> &A
        ensures { result.now ≡ self.now.first }
    {
        &self.first
    }
}

impl<A, B: Drop> MultiVisitorCons<A, B> {
    /// The first visitor, without the others.
    pub fn into_first(self) -> A
        ensures { result ≡ self.first }
    {
        self.first
    }
}

impl<S: SchemaScalar> Visitor<S> for MultiVisitorNil {
    ghost use Rattle.graphql_visitors.specs.Rules.{silent};
    ghost use Rattle.graphql_visitors.specs.Runs.{Did};

    ghost step = { silent };

    fn on<'a, 't>(&mut self, context: &mut ValidatorContext<'a, 't, S>, event: &Event<'a, 't, S>)
        ensures { Did silent event.now self.old self.new context.old context.new }
    {}
}

impl<S: SchemaScalar, A: Visitor<S>, B: Visitor<S>> Visitor<S> for MultiVisitorCons<A, B> {
    ghost use Rattle.graphql_visitors.specs.Rules.{both_steps};
    ghost use Rattle.graphql_visitors.specs.Runs.{Did};

    ghost step = { both_steps A.step B.step };

    fn on<'a, 't>(&mut self, context: &mut ValidatorContext<'a, 't, S>, event: &Event<'a, 't, S>)
        ensures { Did
            (both_steps A.step B.step) event.now self.old self.new context.old context.new }
    {
        self.first.on(context, event);
        self.second.on(context, event);
    }
}
