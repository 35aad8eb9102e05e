//! A visitor steps over a document.

ghost use Rattle.std.specs.Prelude.{◌≡◌};
ghost use Rattle.graphql_occurrences.specs.Events.{events};
ghost use Rattle.graphql_document_walk.specs.Pending.{ahead};
ghost use Rattle.graphql_visitors.specs.Runs.{Visited};
ghost use Rattle.graphql_visitors.specs.Subjects.{subject_of};

use crate::walk::Walk;
use graphql_schema::SchemaScalar;
use graphql_visitors::{ValidatorContext, Visitor};

/// The visitor steps over every event of the context's document, in order, and what it reports
/// comes behind the errors that are there. Where memory runs out the context has failed. Takes no
/// stack for the depth of the document, and one pass over it.
pub fn visit<'a, 't, S: SchemaScalar, V: Visitor<S>>(
    visitor: &mut V,
    context: &mut ValidatorContext<'a, 't, S>,
)
    ensures visited { Visited V.step
        (events (subject_of context.old).schema (subject_of context.old).document) visitor.old
        visitor.new context.old context.new }
    ensures around { context.new.around ≡ context.old.around }
{
    let around = context.around();
    match Walk::new(context.alloc(), context.schema(), context.document()) {
        Ok(walk) => follow(visitor, context, walk),
        Err(_) => context.fail(),
    }
    context.stand_at(around);
}

/// The visitor steps over what is ahead of a walk.
fn follow<'a, 't, S: SchemaScalar, V: Visitor<S>>(
    visitor: &mut V,
    context: &mut ValidatorContext<'a, 't, S>,
    mut walk: Walk<'a, 't, S>,
)
    ensures { Visited V.step (ahead walk.entry) visitor.old visitor.new context.old context.new }
{
    'events: loop {
        match walk.next() {
            Ok(Some(seen)) => {
                context.stand_at(seen.around);
                visitor.on(context, &seen.event);
            }
            Ok(None) => return,
            Err(_) => {
                context.fail();
                return;
            }
        }
    }
}
