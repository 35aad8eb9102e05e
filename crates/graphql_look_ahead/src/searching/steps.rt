//! The turns of a search.

ghost use Rattle.std.specs.Prelude.{◌≡◌, ◌∷◌, None, IfOk, IfSome, reverse};
ghost use Rattle.graphql_collected.specs.Requests.{drops_in, fragments_in};
ghost use Rattle.graphql_written_out.specs.Written.{Settled};
ghost use Rattle.graphql_look_ahead.specs.FirstChild.{AllLack, IsFirst, IsSearch, Turns};
ghost use Rattle.graphql_look_ahead.specs.Selections.{selections_of};
ghost use Rattle.graphql_look_ahead.specs.Told.{IsOfRequest};
ghost use Rattle.graphql_look_ahead.specs.declared.searching.Task.TheVariants as a_task;

use super::Task;
use crate::applies::Applies;
use crate::open::{Met, Open};
use crate::selected::Selected;
use crate::selection::{LookAheadSelection, Source, set_of};
use graphql_collected::{Request, drops};
use graphql_schema::SchemaScalar;
use graphql_text::{Items, TextRef};
use graphql_tree::Selection;
use graphql_written_out::response_key;
use indexmap::IndexSet;
use std::alloc::{AllocError, Global};

/// Goes on with a list: with its first selection, if there is one. An error is want of memory.
fn search<'d, 'a, S: SchemaScalar + Drop>(
    request: &'d Request<'d, 'a, S>,
    key: &str,
    mut top: Open<'d, 'a, S>,
    tasks: &mut Items<Task<'d, 'a, S>>,
    searched: &IndexSet<TextRef<'a>>,
) -> Result<Option<LookAheadSelection<'d, 'a, S>>, AllocError>
    requires settled { Settled (fragments_in request.now) }
    requires search { IsSearch (drops_in S.answer request.now) (fragments_in request.now) key.now
        (a_task.Search top ∷ reverse tasks.old) searched.now.keys }
    ensures { IfOk result
        (Turns S.answer request.now key.now (a_task.Search top.entry ∷ reverse tasks.old)
        (reverse tasks.new) searched.now.keys) }
{
    let applies = top.applies;
    let Some(met) = top.next(request) else {
        return Ok(None);
    };
    tasks.push(Task::Search(top))?;
    match met {
        Met::Field(field) => {
            if response_key(&field.item) != key || drops(request, &field.item.directives) {
                return Ok(None);
            }
            Ok(Some(LookAheadSelection {
                source: Source::Field(field),
                applies,
                request,
            }))
        }
        Met::Inline(inline) => {
            if !drops(request, &inline.item.directives) {
                tasks.push(Task::Search(Open {
                    among: inline.item.selection_set.as_slice(),
                    next: 0,
                    applies: applies.within(&inline.item.type_condition),
                }))?;
            }
            Ok(None)
        }
        Met::Spread(spread, fragment) => {
            let name = spread.item.name.item.copied();
            if !searched.contains(&name) && !drops(request, &spread.item.directives) {
                tasks.push(Task::Searched(name))?;
                tasks.push(Task::Search(Open {
                    among: fragment.selection_set.as_slice(),
                    next: 0,
                    applies,
                }))?;
            }
            Ok(None)
        }
    }
}

/// A turn of a search. An error is want of memory.
fn turn<'d, 'a, S: SchemaScalar + Drop>(
    request: &'d Request<'d, 'a, S>,
    key: &str,
    task: Task<'d, 'a, S>,
    tasks: &mut Items<Task<'d, 'a, S>>,
    searched: &mut IndexSet<TextRef<'a>>,
) -> Result<Option<LookAheadSelection<'d, 'a, S>>, AllocError>
    requires settled { Settled (fragments_in request.now) }
    requires search { IsSearch (drops_in S.answer request.now) (fragments_in request.now) key.now
        (task ∷ reverse tasks.old) searched.old.keys }
    ensures { IfOk result (Turns S.answer request.now key.now (task.entry ∷ reverse tasks.old)
        (reverse tasks.new) searched.new.keys) }
{
    match task {
        Task::Search(top) => search(request, key, top, tasks, searched),
        Task::Searched(name) => {
            searched.insert(name)?;
            Ok(None)
        }
    }
}

/// The first child of this response key of a list that is bound to nothing, where these fragments
/// were searched. An error is want of memory.
fn find_in_list<'d, 'a, S: SchemaScalar + Drop>(
    alloc: Global,
    request: &'d Request<'d, 'a, S>,
    key: &str,
    list: &'d [Selection<'a, S>],
    searched: &mut IndexSet<TextRef<'a>>,
) -> Result<Option<LookAheadSelection<'d, 'a, S>>, AllocError>
    requires settled { Settled (fragments_in request.now) }
    requires lack { AllLack (drops_in S.answer request.now) (fragments_in request.now) key.now
        searched.old.keys }
    ensures first { IfOk result (IsFirst S.answer request.now key.now list.now) }
    ensures request { IfOk result (λ found. IfSome found (IsOfRequest request.now)) }
    ensures lack { IfOk result (λ found. found ≡ None
        → AllLack (drops_in S.answer request.now)
        (fragments_in request.now) key.now searched.new.keys) }
{
    let mut tasks = Items::new(alloc);
    tasks.push(Task::Search(Open {
        among: list,
        next: 0,
        applies: Applies::All,
    }))?;
    'tasks: while let Some(task) = tasks.pop() {
        if let Some(found) = turn(request, key, task, &mut tasks, searched)? {
            return Ok(Some(found));
        }
    }
    Ok(None)
}

/// The first child of this response key of what is selected. Each fragment is searched once. An
/// error is want of memory.
pub(crate) fn find_first<'d, 'a, S: SchemaScalar + Drop>(
    alloc: Global,
    request: &'d Request<'d, 'a, S>,
    key: &str,
    selected: Selected<'d, 'd, 'a, S>,
) -> Result<Option<LookAheadSelection<'d, 'a, S>>, AllocError>
    requires { Settled (fragments_in request.now) }
    ensures first { IfOk result
        (IsFirst S.answer request.now key.now (selections_of selected.entry)) }
    ensures request { IfOk result (λ found. IfSome found (IsOfRequest request.now)) }
{
    let mut searched: IndexSet<TextRef<'a>> = IndexSet::new(alloc);
    let fields = match selected {
        Selected::Set(list) => return find_in_list(alloc, request, key, list, &mut searched),
        Selected::Below(fields) => fields,
    };
    'fields: for field in fields {
        let list = set_of(&field.field.item);
        if let Some(found) = find_in_list(alloc, request, key, list, &mut searched)? {
            return Ok(Some(found));
        }
    }
    Ok(None)
}
