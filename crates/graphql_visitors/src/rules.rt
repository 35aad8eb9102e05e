//! Rules that look at one part of a document at a time, as visitors.

use crate::context::ValidatorContext;
use crate::visitor::Visitor;
use graphql_occurrences::Event;
use graphql_schema::SchemaScalar;

/// A rule that looks at one part of a document at a time.
pub trait LocalRule<S: SchemaScalar> {
    ghost use Rattle.graphql_visitors.specs.Reports.{Reports};
    ghost use Rattle.graphql_visitors.specs.Rules.{Rule, told_at};
    ghost use Rattle.graphql_visitors.specs.Subjects.{seen_in, subject_of};

    /// The places of the errors at a part.
    ghost says: { Rule S S.Check };

    /// Reports the errors at the parts that an event tells.
    fn tell<'a, 't>(&self, context: &mut ValidatorContext<'a, 't, S>, event: &Event<'a, 't, S>)
        ensures { Reports (told_at says (subject_of context.old) (seen_in context.old event.now))
            context.old context.new };
}

/// The visitor of a rule that looks at one part at a time.
#[derive(Drop)]
pub struct Local<R>(pub R);

impl<S: SchemaScalar, R: LocalRule<S>> Visitor<S> for Local<R> {
    ghost use Rattle.graphql_visitors.specs.Rules.{local};
    ghost use Rattle.graphql_visitors.specs.Runs.{Did};

    ghost step = { local R.says };

    fn on<'a, 't>(&mut self, context: &mut ValidatorContext<'a, 't, S>, event: &Event<'a, 't, S>)
        ensures { Did (local R.says) event.now self.old self.new context.old context.new }
    {
        self.0.tell(context, event);
    }
}

/// A rule that looks at one part of a document at a time and asks what may answer so or so, as the
/// check of a scalar may: which errors it may report is a relation.
pub trait RelationalRule<S: SchemaScalar> {
    ghost use Rattle.graphql_occurrences.specs.Parts.{Part};
    ghost use Rattle.graphql_rule_errors.specs.Places.{Places};
    ghost use Rattle.graphql_visitors.specs.Reports.{ReportsBy};
    ghost use Rattle.graphql_visitors.specs.Rules.{TellAt};
    ghost use Rattle.graphql_visitors.specs.Subjects.{Subject, seen_in, subject_of};

    /// The places that errors at a part may have.
    ghost says: { Subject S S.Check → Part S S.Check → Places → Type 0 };

    /// Reports the errors at the parts that an event tells.
    fn tell<'a, 't>(&self, context: &mut ValidatorContext<'a, 't, S>, event: &Event<'a, 't, S>)
        ensures { ReportsBy (TellAt says (subject_of context.old) (seen_in context.old event.now))
            context.old context.new };
}

/// The visitor of a rule that looks at one part at a time and asks what may answer so or so.
#[derive(Drop)]
pub struct Relational<R>(pub R);

impl<S: SchemaScalar, R: RelationalRule<S>> Visitor<S> for Relational<R> {
    ghost use Rattle.graphql_visitors.specs.Rules.{locally};
    ghost use Rattle.graphql_visitors.specs.Runs.{Did};

    ghost step = { locally R.says };

    fn on<'a, 't>(&mut self, context: &mut ValidatorContext<'a, 't, S>, event: &Event<'a, 't, S>)
        ensures { Did (locally R.says) event.now self.old self.new context.old context.new }
    {
        self.0.tell(context, event);
    }
}
