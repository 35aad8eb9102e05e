//! One walk over a document for a visitor and for what operations and fragments hold.

ghost use Rattle.std.specs.Prelude.{◌≡◌, false, fold};
ghost use Rattle.graphql_occurrences.specs.Events.{events};
ghost use Rattle.graphql_document_walk.specs.Pending.{ahead};
ghost use Rattle.graphql_rules_document.specs.Gathered.{gathered, with_event};
ghost use Rattle.graphql_rules_document.specs.Lent.{scopes_told};
ghost use Rattle.graphql_rules_document.specs.Scopes.{scopes_in};
ghost use Rattle.graphql_visitors.specs.Runs.{Visited};
ghost use Rattle.graphql_visitors.specs.Subjects.{subject_of};

use graphql_document_walk::Walk;
use graphql_rules_document::{Gathering, Scopes};
use graphql_schema::SchemaScalar;
use graphql_visitors::{ValidatorContext, Visitor};

/// The visitor steps over every event of the context's document, as `visit` says, and what
/// operations and fragments hold is gathered on the way. Where memory runs out the context has
/// failed, and nothing is promised of either.
pub(crate) fn visit_and_gather<'a, 't, S: SchemaScalar, V: Visitor<S>>(
    visitor: &mut V,
    context: &mut ValidatorContext<'a, 't, S>,
) -> Scopes<'a, 't, S>
    ensures visited { Visited V.step
        (events (subject_of context.old).schema (subject_of context.old).document) visitor.old
        visitor.new context.old context.new }
    ensures around { context.new.around ≡ context.old.around }
    ensures gathered { context.new.failed ≡ false
        → scopes_told result
        ≡ scopes_in (subject_of context.old).schema (subject_of context.old).document }
{
    let around = context.around();
    let mut gathering = Gathering::new(context.alloc());
    match Walk::new(context.alloc(), context.schema(), context.document()) {
        Ok(walk) => follow(visitor, &mut gathering, context, walk),
        Err(_) => context.fail(),
    }
    context.stand_at(around);
    gathering.into_scopes()
}

/// The same of what is ahead of a walk.
fn follow<'a, 't, S: SchemaScalar, V: Visitor<S>>(
    visitor: &mut V,
    gathering: &mut Gathering<'a, 't, S>,
    context: &mut ValidatorContext<'a, 't, S>,
    mut walk: Walk<'a, 't, S>,
)
    ensures visited { Visited V.step (ahead walk.entry) visitor.old visitor.new context.old
        context.new }
    ensures gathered { context.new.failed ≡ false
        → gathered gathering.new ≡ fold with_event (gathered gathering.old) (ahead walk.entry) }
{
    let alloc = context.alloc();
    'events: loop {
        match walk.next() {
            Ok(Some(seen)) => {
                context.stand_at(seen.around);
                visitor.on(context, &seen.event);
                if gathering.take_in(alloc, &seen.around, &seen.event).is_err() {
                    context.fail();
                    return;
                }
            }
            Ok(None) => return,
            Err(_) => {
                context.fail();
                return;
            }
        }
    }
}
