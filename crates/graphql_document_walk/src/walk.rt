//! A walk over a document, event by event.

ghost use Rattle.std.specs.Prelude.{◌≡◌, ◌∷◌, [], IfOk, MatchOption, OnOk};
ghost use Rattle.graphql_schema.specs.Declarations.{declarations_of};
ghost use Rattle.graphql_occurrences.specs.Events.{events};
ghost use Rattle.graphql_occurrences.specs.Lent.{around_of, seen_of};
ghost use Rattle.graphql_document_walk.specs.Pending.{OpensAny, ahead, part_events};

mod definitions;
mod selections;
mod tasks;
mod values;

use definitions::{open_definitions, open_document, open_variables};
use graphql_occurrences::{Around, Seen};
use graphql_schema::{SchemaScalar, SchemaType};
use graphql_text::Items;
use graphql_tree::Definition;
use selections::{open_directives, open_selections, open_set};
use std::alloc::{AllocError, Global};
use tasks::{Part, Task, Work, add, event};
use values::{open_arguments, open_items, open_pairs, open_value};

/// A walk over a document, which tells its events in order, with the types around each: what is
/// entered and left, from the document itself to each value, and nothing below an unknown type.
///
/// It lends parts of the document and of the schema, and copies none. What it has yet to do stands
/// on the heap, so it takes no more stack however deep the document is.
#[derive(Drop)]
pub struct Walk<'a, 't, S, C = <S as SchemaScalar>::Check> {
    schema: &'a SchemaType<S, C>,
    tasks: Items<Task<'a, 't, S, C>>,
}

/// Room for so many tasks is asked for at once.
const AHEAD: usize = 16;

impl<'a, 't, S, C> Walk<'a, 't, S, C> {
    /// A walk from the start of `document`, with the types of `schema`. An error is want of memory.
    pub fn new(
        alloc: Global,
        schema: &'a SchemaType<S, C>,
        document: &'a [Definition<'t, S>],
    ) -> Result<Walk<'a, 't, S, C>, AllocError>
        ensures schema { IfOk result (λ walk. walk.schema ≡ schema.entry) }
        ensures events { IfOk result
            (λ walk. ahead walk ≡ events (declarations_of schema.now) document.now) }
    {
        let mut tasks = Items::with_capacity(alloc, AHEAD)?;
        add(
            schema,
            &mut tasks,
            Around::nowhere(),
            Part::Document(document),
        )?;
        Ok(Walk { schema, tasks })
    }

    /// The next event, or `None` at the end of the document. An error is want of memory.
    pub fn next(&mut self) -> Result<Option<Seen<'a, 't, S, C>>, AllocError>
        ensures schema { IfOk result (λ _. self.new.schema ≡ self.old.schema) }
        ensures events { IfOk result (λ next. MatchOption next (ahead self.old ≡ [])
            (λ first. ahead self.old ≡ seen_of first ∷ ahead self.new)) }
    {
        'tasks: while let Some(task) = self.tasks.pop() {
            let around = task.around;
            match task.work {
                Work::Tell(side, node) => {
                    return Ok(Some(Seen {
                        around,
                        event: event(side, node),
                    }));
                }
                Work::Through(part) => open(self.schema, &mut self.tasks, around, part)?,
            }
        }
        Ok(None)
    }
}

/// Opens a part: puts its first event on top, if there is one, and below it what comes after. An
/// error is want of memory.
fn open<'a, 't, S, C>(
    schema: &'a SchemaType<S, C>,
    tasks: &mut Items<Task<'a, 't, S, C>>,
    around: Around<'a, S, C>,
    part: Part<'a, 't, S>,
) -> Result<(), AllocError>
    ensures { OnOk result (OpensAny (declarations_of schema.now) (part_events
        (declarations_of schema.now) part.entry (around_of around.entry)) tasks.old tasks.new) }
{
    match part {
        Part::Document(document) => open_document(schema, tasks, document),
        Part::Definitions(definitions) => open_definitions(schema, tasks, definitions),
        Part::Variables(variables) => open_variables(schema, tasks, around, variables),
        Part::Directives(place, directives) => open_directives(
            schema, tasks, around, place, directives,
        ),
        Part::Arguments(owner, declared, arguments) => open_arguments(
            schema, tasks, around, owner, declared, arguments,
        ),
        Part::Set(selections) => open_set(schema, tasks, around, selections),
        Part::Selections(selections) => open_selections(schema, tasks, around, selections),
        Part::Value(value) => open_value(schema, tasks, around, value),
        Part::Items(items) => open_items(schema, tasks, around, items),
        Part::Pairs(pairs) => open_pairs(schema, tasks, around, pairs),
    }
}
