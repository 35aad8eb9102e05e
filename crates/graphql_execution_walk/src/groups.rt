//! The groups of selection sets.

ghost use Rattle.std.specs.Prelude.{IfOk};
ghost use Rattle.graphql_collect.specs.Grouped.{all_found};
ghost use Rattle.graphql_collected.specs.Requests.{fragments_in};
ghost use Rattle.graphql_written_out.specs.Repeats.{Repeats};
ghost use Rattle.graphql_written_out.specs.Written.{Settled};
ghost use Rattle.graphql_execution_walk.specs.Sets.{AreGroups, selected_in, sets_in};

use graphql_collect::{Group, fields_below, fields_of_set, grouped};
use graphql_collected::{CollectedField, Request};
use graphql_look_ahead::Selected;
use graphql_schema::SchemaScalar;
use graphql_text::Items;
use std::alloc::{AllocError, Global};

/// The fields that are selected from an object type, each fragment entered once. An error is want
/// of memory.
fn fields_selected<'d, 'a, S: SchemaScalar>(
    alloc: Global,
    request: &Request<'d, 'a, S>,
    object: &str,
    selected: Selected<'_, 'd, 'a, S>,
) -> Result<Items<CollectedField<'d, 'a, S>>, AllocError>
    requires { Settled (fragments_in request.now) }
    ensures { IfOk result (λ found. Repeats (all_found (fragments_in request.now) found)
        (selected_in S.answer request.now (sets_in request.now selected.entry) object.now)) }
{
    match selected {
        Selected::Set(set) => fields_of_set(alloc, request, object, set),
        Selected::Below(fields) => fields_below(alloc, request, object, fields),
    }
}

/// The groups of what is selected from an object type, collected. An error is want of memory.
pub(crate) fn groups_collected<'d, 'a, S: SchemaScalar>(
    alloc: Global,
    request: &Request<'d, 'a, S>,
    object: &str,
    selected: Selected<'_, 'd, 'a, S>,
) -> Result<Items<Group<'d, 'a, S>>, AllocError>
    requires { Settled (fragments_in request.now) }
    ensures { IfOk result (AreGroups (fragments_in request.now)
        (selected_in S.answer request.now (sets_in request.now selected.entry) object.now)) }
{
    let found = fields_selected(alloc, request, object, selected)?;
    let groups = grouped(alloc, found.as_slice())?;
    Ok(groups)
}
