//! Visitors.

use crate::context::ValidatorContext;
use graphql_occurrences::Event;
use graphql_schema::SchemaScalar;

/// What steps over the events of a document, one after the other, and reports errors.
///
/// A visitor has one method for all events: `Event` tells which of `juniper`'s methods is which of
/// its cases. The types around an event's node stand in the context. A visitor owns what it keeps.
pub trait Visitor<S: SchemaScalar> {
    ghost use Rattle.graphql_occurrences.specs.Nodes.{Seen};
    ghost use Rattle.graphql_rule_errors.specs.Places.{Places};
    ghost use Rattle.graphql_visitors.specs.Runs.{Did};
    ghost use Rattle.graphql_visitors.specs.Subjects.{Subject};

    /// At an event of what is validated, the visitor may become this one and report errors at these
    /// places.
    ghost step: { Subject S S.Check → Self → Seen S S.Check → Self → Places → Type 0 };

    /// Steps over an event. Where memory runs out, it tells the context so.
    fn on<'a, 't>(&mut self, context: &mut ValidatorContext<'a, 't, S>, event: &Event<'a, 't, S>)
        ensures { Did step event.now self.old self.new context.old context.new };
}
