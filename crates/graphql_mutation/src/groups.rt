//! The groups of a mutation's root.

ghost use Rattle.std.specs.Prelude.{◌≡◌, ◌⊎◌, IfOk, OnErr};
ghost use Rattle.graphql_collect.specs.Grouped.{all_found};
ghost use Rattle.graphql_collected.specs.Requests.{fragments_in};
ghost use Rattle.graphql_execution_walk.specs.Sets.{AreGroups, selected_in, sets_in};
ghost use Rattle.graphql_written_out.specs.Repeats.{Repeats};
ghost use Rattle.graphql_written_out.specs.Written.{Settled};
ghost use Rattle.graphql_mutation.specs.Mutations.{mutation_of};
ghost use Rattle.graphql_mutation.specs.Runs.{HasRun};
ghost use Rattle.graphql_mutation.specs.Serial.{root_group};

use crate::mutation_value::GraphQLMutationValue;
use crate::root_fields::show_field;
use graphql_collect::{Group, fields_below, fields_of_set, grouped};
use graphql_collected::CollectedField;
use graphql_execution_walk::{Executor, Selected, declared_type};
use graphql_field_results::ExecutionError;
use graphql_output_values::Value;
use graphql_schema::SchemaScalar;
use graphql_text::Items;
use std::alloc::AllocError;

/// The fields that are selected from the root at which an executor stands, each fragment entered
/// once. An error is want of memory.
fn fields_of_root<'d, 'a, S: SchemaScalar>(
    root: &Executor<'_, 'd, 'a, (), S>,
) -> Result<Items<CollectedField<'d, 'a, S>>, AllocError>
    requires { Settled (fragments_in root.now.request.now) }
    ensures { let sets = sets_in root.now.request.now root.now.selected in
        let selected =
        selected_in S.answer root.now.request.now sets root.now.current_type.name.now in
        IfOk result
        (λ found. Repeats (all_found (fragments_in root.now.request.now) found) selected) }
{
    let object = root.current_type.name;
    match root.selected {
        Selected::Set(set) => fields_of_set(root.alloc, root.request, object, set),
        Selected::Below(fields) => fields_below(root.alloc, root.request, object, fields),
    }
}

/// The groups of these fields. An error is want of memory.
pub(crate) fn groups_of_root<'d, 'a, S: SchemaScalar>(
    root: &Executor<'_, 'd, 'a, (), S>,
) -> Result<Items<Group<'d, 'a, S>>, AllocError>
    requires { Settled (fragments_in root.now.request.now) }
    ensures { let sets = sets_in root.now.request.now root.now.selected in
        let selected =
        selected_in S.answer root.now.request.now sets root.now.current_type.name.now in
        IfOk result (AreGroups (fragments_in root.now.request.now) selected) }
{
    let found = fields_of_root(root)?;
    let groups = grouped(root.alloc, found.as_slice())?;
    Ok(groups)
}

/// What a group of the root shows: its first field is asked, once, and the answer is completed on
/// the context after, with the selections of all its fields. What fails is told. An error is want
/// of memory.
pub(crate) fn answer_group<'d, 'a, S: SchemaScalar + Drop, R: GraphQLMutationValue<S>>(
    resolver: &R,
    root: &Executor<'_, 'd, 'a, (), S>,
    context: &mut R::Context,
    these: &Group<'d, 'a, S>,
    errors: &mut Items<ExecutionError<S>>,
) -> Result<Option<Value<S>>, AllocError>
    requires { Settled (fragments_in root.now.request.now) }
    ensures run { let m = mutation_of S.of_text S.of_bool S.answer root.now.request.now
        (R.type_of resolver.now) (R.answer resolver.now) (R.changes resolver.now) in
        let run = root_group m root.now.current_type.name.now context.old these.now.0
        (all_found (fragments_in root.now.request.now) these.now.1) in
        IfOk result (λ v. HasRun run v errors.old errors.new context.new) }
    ensures begun { let m = mutation_of S.of_text S.of_bool S.answer root.now.request.now
        (R.type_of resolver.now) (R.answer resolver.now) (R.changes resolver.now) in
        let run = root_group m root.now.current_type.name.now context.old these.now.0
        (all_found (fragments_in root.now.request.now) these.now.1) in
        OnErr result ((context.new ≡ context.old) ⊎ (context.new ≡ run.after)) }
{
    let object = root.current_type.name;
    let Some(first) = these.1.first() else {
        return Ok(None);
    };
    let among = first.among;
    let first = first.field;
    let name = first.item.name.item.as_str();
    let Some(declared) = declared_type(root.request.schema, object, name) else {
        return Ok(Some(Value::Null));
    };
    let keys = [these.0.copied()];
    let selected = Selected::Below(these.1.as_slice());
    let here = root.at_field(&keys, first.span.start, declared, among, selected);
    show_field(resolver, &here, object, context, first, errors)
}
