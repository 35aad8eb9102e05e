//! What is answered for a field of a mutation's root.

ghost use Rattle.graphql_field_results.specs.Answered.{Answered};
ghost use Rattle.graphql_written_out.specs.Written.{head_of};
ghost use Rattle.graphql_mutation.specs.Mutations.{mutation_of};
ghost use Rattle.graphql_mutation.specs.Runs.{LeavesOrKeeps};
ghost use Rattle.graphql_mutation.specs.Serial.{step_of};

use crate::mutation_value::GraphQLMutationValue;
use graphql_execution_walk::{
    Asked, Executor, arguments_of, of_resolver, of_schema, told_of_itself,
};
use graphql_field_results::{FieldResult, Resolved};
use graphql_schema::SchemaScalar;
use graphql_text::Spanning;
use graphql_tree::Field;

/// What is answered for a field of a mutation's root, an object of the type of this name; the
/// context becomes the one after. Of what each object tells of itself the resolver is not asked,
/// and it leaves the context as it was (GraphQL October 2021, 4 Introspection).
/// `FieldFault::Memory` is want of memory: the context is then as it was, or the one after.
#[tactic(auto, unfolding(graphql_execution_walk::specs::Engines::engine_over))]
pub(crate) fn ask_root<'d, 'a, S: SchemaScalar + Drop, R: GraphQLMutationValue<S>>(
    resolver: &R,
    executor: &Executor<'_, 'd, 'a, (), S>,
    object: &str,
    context: &mut R::Context,
    field: &'d Spanning<Field<'a, S>>,
) -> FieldResult<Resolved<S, Asked<'d, S, R::Node>>, S>
    ensures answer { let m = mutation_of S.of_text S.of_bool S.answer executor.now.request.now
        (R.type_of resolver.now) (R.answer resolver.now) (R.changes resolver.now) in
        Answered (step_of m object.now context.old (head_of field.now)).answer result }
    ensures after { let m = mutation_of S.of_text S.of_bool S.answer executor.now.request.now
        (R.type_of resolver.now) (R.answer resolver.now) (R.changes resolver.now) in
        LeavesOrKeeps context.old (step_of m object.now context.old (head_of field.now)).after
        result context.new }
{
    let name = field.item.name.item.as_str();
    let schema = executor.request.schema;
    let arguments = arguments_of(executor.alloc, executor.request, object, field)?;
    if let Some(told) = told_of_itself(executor.alloc, schema, object, name, &arguments)? {
        return Ok(of_schema(executor.alloc, told)?);
    }
    let answer = resolver.resolve_root(executor.alloc, context, name, &arguments)?;
    Ok(of_resolver(executor.alloc, answer)?)
}
