//! What a field of a mutation's root comes to, on the context that its answer leaves.

ghost use Rattle.std.specs.Prelude.{◌≡◌, ◌⊎◌, IfOk, OnErr};
ghost use Rattle.graphql_written_out.specs.Written.{head_of};
ghost use Rattle.graphql_execution_walk.specs.Begins.{Completes};
ghost use Rattle.graphql_execution_walk.specs.Standing.{IsSettled};
ghost use Rattle.graphql_mutation.specs.Completing.{IsValueOrTold, outcome_of_result};
ghost use Rattle.graphql_mutation.specs.Completing.{own_error_of_result, step_shown};
ghost use Rattle.graphql_mutation.specs.Mutations.{mutation_of};
ghost use Rattle.graphql_mutation.specs.Runs.{HasRun, LeavesOrKeeps};
ghost use Rattle.graphql_mutation.specs.Serial.{step_of};

use crate::asking::ask_root;
use crate::mutation_value::GraphQLMutationValue;
use graphql_execution_walk::{Executor, is_required, shown};
use graphql_field_results::{ExecutionError, FieldFault, FieldResult};
use graphql_output_values::Value;
use graphql_schema::SchemaScalar;
use graphql_text::{Items, Spanning};
use graphql_tree::Field;
use std::alloc::AllocError;

/// The value of a field of the root at which an executor stands: it is asked, and the answer is
/// completed on the context after. What fails below the field is told. An error is that of the
/// field itself, which is not told yet, or want of memory.
fn complete_field<'d, 'a, S: SchemaScalar + Drop, R: GraphQLMutationValue<S>>(
    resolver: &R,
    executor: &Executor<'_, 'd, 'a, (), S>,
    object: &str,
    context: &mut R::Context,
    field: &'d Spanning<Field<'a, S>>,
    errors: &mut Items<ExecutionError<S>>,
) -> FieldResult<Option<Value<S>>, S>
    requires { IsSettled executor.now }
    ensures completes { let m = mutation_of S.of_text S.of_bool S.answer executor.now.request.now
        (R.type_of resolver.now) (R.answer resolver.now) (R.changes resolver.now) in
        let step = step_of m object.now context.old (head_of field.now) in
        Completes (own_error_of_result (m.engine step.after) executor.now step.answer)
        (outcome_of_result (m.engine step.after) executor.now step.answer) errors.old result
        errors.new }
    ensures after { let m = mutation_of S.of_text S.of_bool S.answer executor.now.request.now
        (R.type_of resolver.now) (R.answer resolver.now) (R.changes resolver.now) in
        LeavesOrKeeps context.old (step_of m object.now context.old (head_of field.now)).after
        result context.new }
{
    let answer = ask_root(resolver, executor, object, context, field)?;
    let over = executor.replaced_context(&*context);
    over.resolve_asked(resolver, answer, errors)
}

/// The value of the place at which an executor stands, or none where the place itself fails, which
/// is told. An error is want of memory.
fn value_or_told<'d, 'a, Context, S: SchemaScalar + Drop>(
    executor: &Executor<'_, 'd, 'a, Context, S>,
    completed: FieldResult<Option<Value<S>>, S>,
    errors: &mut Items<ExecutionError<S>>,
) -> Result<Option<Value<S>>, AllocError>
    ensures { IfOk result
        (λ value. IsValueOrTold executor.now completed errors.old value errors.new) }
{
    match completed {
        Ok(value) => Ok(value),
        Err(FieldFault::Error(error)) => {
            executor.push_error(error, errors)?;
            Ok(None)
        }
        Err(FieldFault::Memory) => Err(AllocError),
    }
}

/// What the place of a field of the root shows, at which an executor stands. All that fails is
/// told, the field itself among it. An error is want of memory.
pub(crate) fn show_field<'d, 'a, S: SchemaScalar + Drop, R: GraphQLMutationValue<S>>(
    resolver: &R,
    executor: &Executor<'_, 'd, 'a, (), S>,
    object: &str,
    context: &mut R::Context,
    field: &'d Spanning<Field<'a, S>>,
    errors: &mut Items<ExecutionError<S>>,
) -> Result<Option<Value<S>>, AllocError>
    requires { IsSettled executor.now }
    ensures run { let m = mutation_of S.of_text S.of_bool S.answer executor.now.request.now
        (R.type_of resolver.now) (R.answer resolver.now) (R.changes resolver.now) in
        let step = step_of m object.now context.old (head_of field.now) in
        IfOk result
        (λ v. HasRun (step_shown m executor.now step) v errors.old errors.new context.new) }
    ensures begun { let m = mutation_of S.of_text S.of_bool S.answer executor.now.request.now
        (R.type_of resolver.now) (R.answer resolver.now) (R.changes resolver.now) in
        let step = step_of m object.now context.old (head_of field.now) in
        OnErr result ((context.new ≡ context.old) ⊎ (context.new ≡ step.after)) }
{
    let completed = complete_field(resolver, executor, object, context, field, errors);
    let value = value_or_told(executor, completed, errors)?;
    Ok(shown(is_required(executor.current_type.modifiers), value))
}
