//! What an operation's selection set gives.

ghost use Rattle.std.specs.Prelude.{IfOk};
ghost use Rattle.graphql_semantics.specs.Completion.{object_members};
ghost use Rattle.graphql_semantics.specs.Evaluation.{evaluate};
ghost use Rattle.graphql_semantics.specs.Outcomes.{outcome_map};
ghost use Rattle.graphql_execution_walk.specs.GivesOutcome.{GivesOutcome};
ghost use Rattle.graphql_execution_walk.specs.Sets.{sets_of};
ghost use Rattle.graphql_execution_walk.specs.Standing.{IsSettled, IsTyped};

use crate::asked::Asked;
use crate::evaluating::Evaluating;
use crate::executor::Executor;
use crate::frame_parts::object_of;
use crate::graphql_value::GraphQLValue;
use crate::groups::groups_collected;
use crate::parts::with_member;
use crate::report::Report;
use crate::stack::answer_group;
use graphql_output_values::Value;
use graphql_schema::SchemaScalar;
use graphql_text::Items;
use std::alloc::AllocError;

/// What an executor's selections give on a node of an object type, which is the node's own, or for
/// the root the type from which queries start: an object with a member for each response key, in
/// order of first appearance, or nothing where a `null` that may not stand reached it (GraphQL
/// October 2021, 6.3 Executing Selection Sets). The report gets the failures, in the order in which
/// they come. How deep selection sets, lists and fragments nest costs heap, and no stack. An error
/// is want of memory.
pub fn answer_selections<'d, 'a, S: SchemaScalar + Drop, R: GraphQLValue<S>>(
    resolver: &R,
    executor: &Executor<'_, 'd, 'a, R::Context, S>,
    object: &str,
    node: &Asked<'d, S, R::Node>,
    report: &mut Report<'d, S>,
) -> Result<Option<Value<S>>, AllocError>
    requires settled { IsSettled executor.now }
    requires typed { let here = ⟦<R as Evaluating<S>>⟧.here resolver.now executor.now in
        IsTyped here node.now object.now }
    ensures { let here = ⟦<R as Evaluating<S>>⟧.here resolver.now executor.now in
        IfOk result (λ value. GivesOutcome (outcome_map object_members
        (evaluate here.engine report.old.path object.now node.now
        (sets_of here.fragments executor.now.selected))) report.old value report.new) }
{
    let groups = groups_collected(executor.alloc, executor.request, object, executor.selected)?;
    let mut members = Some(Items::new(executor.alloc));
    'groups: for group in groups.as_slice() {
        let value = answer_group(resolver, executor, object, node, group, report)?;
        members = with_member(members, &group.0, value)?;
    }
    Ok(object_of(members))
}
