//! What a mutation gives and changes.

ghost use Rattle.std.specs.Prelude.{◌≡◌, ◌++◌, [], ◌∷◌, IfOk, OnErr, OnOk};
ghost use Rattle.graphql_collected.specs.Requests.{fragments_in};
ghost use Rattle.graphql_semantics.specs.Completion.{object_members};
ghost use Rattle.graphql_execution_walk.specs.Sets.{sets_in};
ghost use Rattle.graphql_written_out.specs.Written.{Settled};
ghost use Rattle.graphql_mutation.specs.Mutations.{mutation_of};
ghost use Rattle.graphql_mutation.specs.Runs.{HasRun, run_map};
ghost use Rattle.graphql_mutation.specs.Serial.{AfterBeginning, mutate, root_groups};

use crate::groups::{answer_group, groups_of_root};
use crate::mutation_value::GraphQLMutationValue;
use graphql_execution_walk::Executor;
use graphql_field_results::ExecutionError;
use graphql_output_values::{Key, Object, Value};
use graphql_schema::SchemaScalar;
use graphql_text::{Items, TextRef};
use std::alloc::AllocError;

/// Adds a member. An error is want of memory.
fn push_member<S: Drop>(
    members: &mut Items<(Key, Value<S>)>,
    key: &TextRef<'_>,
    value: Value<S>,
) -> Result<(), AllocError>
    ensures { OnOk result (members.new ≡ members.old ++ (key.now, value) ∷ []) }
{
    let key = Key::from_str(*members.allocator(), key.as_str())?;
    members.push((key, value))?;
    Ok(())
}

/// What a mutation's selections give on its root, and what they change (GraphQL October 2021, 6.2.2
/// Mutation, 6.3.1 Normal and Serial Execution): an object with a member for each response key, in
/// order of first appearance, or nothing where a `null` that may not stand reached the root. Key
/// after key, the first field is asked, once, and its answer is completed on the context that it
/// leaves, with the selections of all fields of the key. Where a `null` reaches the root, no later
/// key is asked. What fails is told behind what was told. How deep selection sets, lists and
/// fragments nest costs heap, and no stack.
///
/// The executor stands at the root, an object of its current type, and has `()` for a context,
/// since the resolver's is written between the fields: `Executor::at_root` gives it.
///
/// An error is want of memory: the context is then the one after a beginning of the keys, of which
/// none is asked in part.
pub fn answer_serially<'d, 'a, S: SchemaScalar + Drop, R: GraphQLMutationValue<S>>(
    resolver: &R,
    root: &Executor<'_, 'd, 'a, (), S>,
    context: &mut R::Context,
    errors: &mut Items<ExecutionError<S>>,
) -> Result<Option<Value<S>>, AllocError>
    requires { Settled (fragments_in root.now.request.now) }
    ensures run { let m = mutation_of S.of_text S.of_bool S.answer root.now.request.now
        (R.type_of resolver.now) (R.answer resolver.now) (R.changes resolver.now) in
        let sets = sets_in root.now.request.now root.now.selected in
        let run =
        run_map object_members (mutate m root.now.current_type.name.now context.old sets) in
        IfOk result (λ v. HasRun run v errors.old errors.new context.new) }
    ensures begun { let m = mutation_of S.of_text S.of_bool S.answer root.now.request.now
        (R.type_of resolver.now) (R.answer resolver.now) (R.changes resolver.now) in
        let sets = sets_in root.now.request.now root.now.selected in
        let groups = root_groups m root.now.current_type.name.now context.old sets in
        OnErr result
        (AfterBeginning m root.now.current_type.name.now context.old groups context.new) }
{
    let groups = groups_of_root(root)?;
    let mut members = Items::new(root.alloc);
    'groups: for group in groups.as_slice() {
        let shown = answer_group(resolver, root, context, group, errors)?;
        match shown {
            Some(value) => push_member(&mut members, &group.0, value)?,
            None => return Ok(None),
        }
    }
    Ok(Some(Value::Object(Object::from_distinct(members))))
}
