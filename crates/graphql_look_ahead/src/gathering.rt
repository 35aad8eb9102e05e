//! How the children of a list of selections are gathered.

ghost use Rattle.std.specs.Prelude.{◌≡◌, ◌++◌, ◌∷◌, [], map, OnOk};
ghost use Rattle.graphql_collected.specs.Requests.{drops_in, fragments_in};
ghost use Rattle.graphql_written_out.specs.Written.{Settled};
ghost use Rattle.graphql_look_ahead.specs.Applies.{only_of};
ghost use Rattle.graphql_look_ahead.specs.Children.{a_field};
ghost use Rattle.graphql_look_ahead.specs.Open.{AddsChildren, IsTurn, open_set, opened};
ghost use Rattle.graphql_look_ahead.specs.Selections.{selections_of};
ghost use Rattle.graphql_look_ahead.specs.Told.{looked_at, with_request};

use crate::applies::Applies;
use crate::open::{Met, Open};
use crate::selected::Selected;
use crate::selection::{LookAheadSelection, Source, set_of};
use graphql_collected::{Request, drops};
use graphql_schema::SchemaScalar;
use graphql_text::{Items, Spanning};
use graphql_tree::{Field, Selection};
use std::alloc::{AllocError, Global};

/// Opens a list. An error is want of memory.
fn open_list<'d, 'a, S>(
    among: &'d [Selection<'a, S>],
    applies: Applies<'d>,
    open: &mut Items<Open<'d, 'a, S>>,
) -> Result<(), AllocError>
    ensures { OnOk result (opened open.new ≡ (only_of applies.entry, among.now) ∷ opened open.old) }
{
    open.push(Open {
        among,
        next: 0,
        applies,
    })?;
    Ok(())
}

/// Finds a field. An error is want of memory.
fn find<'d, 'a, S: SchemaScalar>(
    request: &'d Request<'d, 'a, S>,
    field: &'d Spanning<Field<'a, S>>,
    applies: Applies<'d>,
    found: &mut Items<LookAheadSelection<'d, 'a, S>>,
) -> Result<(), AllocError>
    ensures { OnOk result (map looked_at found.new
        ≡ map looked_at found.old
        ++ with_request request.now (a_field field.now (only_of applies.entry)) ∷ []) }
{
    found.push(LookAheadSelection {
        source: Source::Field(field),
        applies,
        request,
    })?;
    Ok(())
}

/// Goes on with a list: with its first selection, if there is one. An error is want of memory.
fn advance<'d, 'a, S: SchemaScalar + Drop>(
    request: &'d Request<'d, 'a, S>,
    mut top: Open<'d, 'a, S>,
    open: &mut Items<Open<'d, 'a, S>>,
    found: &mut Items<LookAheadSelection<'d, 'a, S>>,
) -> Result<(), AllocError>
    requires { Settled (fragments_in request.now) }
    ensures { OnOk result
        (IsTurn (drops_in S.answer request.now) (fragments_in request.now)
        (with_request request.now)
        (open_set top.entry ∷ opened open.old) (map looked_at found.old) (opened open.new)
        (map looked_at found.new)) }
{
    let applies = top.applies;
    let Some(met) = top.next(request) else {
        return Ok(());
    };
    open.push(top)?;
    match met {
        Met::Field(field) => {
            if drops(request, &field.item.directives) {
                return Ok(());
            }
            find(request, field, applies, found)
        }
        Met::Spread(spread, fragment) => {
            if drops(request, &spread.item.directives) {
                return Ok(());
            }
            open_list(fragment.selection_set.as_slice(), applies, open)
        }
        Met::Inline(inline) => {
            if drops(request, &inline.item.directives) {
                return Ok(());
            }
            let within = applies.within(&inline.item.type_condition);
            open_list(inline.item.selection_set.as_slice(), within, open)
        }
    }
}

/// Adds the children of a list of selections which is bound to nothing, in order. What is left of
/// lists around stands on the heap, so it takes no more stack however deep they are. An error is
/// want of memory.
fn gather<'d, 'a, S: SchemaScalar + Drop>(
    alloc: Global,
    request: &'d Request<'d, 'a, S>,
    set: &'d [Selection<'a, S>],
    found: &mut Items<LookAheadSelection<'d, 'a, S>>,
) -> Result<(), AllocError>
    requires { Settled (fragments_in request.now) }
    ensures { OnOk result (AddsChildren (drops_in S.answer request.now) (fragments_in request.now)
        (with_request request.now) set.now
        (map looked_at found.old) (map looked_at found.new)) }
{
    let mut open = Items::new(alloc);
    open_list(set, Applies::All, &mut open)?;
    'open: while let Some(top) = open.pop() {
        advance(request, top, &mut open, found)?;
    }
    Ok(())
}

/// Adds the children of what is selected, in order. An error is want of memory.
pub(crate) fn gather_selected<'d, 'a, S: SchemaScalar + Drop>(
    alloc: Global,
    request: &'d Request<'d, 'a, S>,
    selected: Selected<'d, 'd, 'a, S>,
    found: &mut Items<LookAheadSelection<'d, 'a, S>>,
) -> Result<(), AllocError>
    requires { Settled (fragments_in request.now) }
    ensures { OnOk result (AddsChildren (drops_in S.answer request.now) (fragments_in request.now)
        (with_request request.now) (selections_of selected.entry)
        (map looked_at found.old) (map looked_at found.new)) }
{
    let fields = match selected {
        Selected::Set(set) => return gather(alloc, request, set, found),
        Selected::Below(fields) => fields,
    };
    'fields: for field in fields {
        gather(alloc, request, set_of(&field.field.item), found)?;
    }
    Ok(())
}
