//! Operations of documents that are known to be valid.

ghost use Rattle.std.specs.Prelude.{◌≡◌, [], ◌∷◌, IfOk, OnErr, option_map};
ghost use Rattle.std.specs.HashMap.{get_by_text};
ghost use Rattle.graphql_written_out.specs.FinalVariables.{value_in};
ghost use Rattle.graphql_tree.specs.Definitions.{fragments_listed};
ghost use Rattle.graphql_collected.specs.Requests.{fragments_in, written_in};
ghost use Rattle.graphql_semantics.specs.Evaluation.{evaluate};
ghost use Rattle.graphql_written_out.specs.Written.{Settled, written};
ghost use Rattle.graphql_execution_walk.specs.Engines.{engine_of};
ghost use Rattle.graphql_execution_walk.specs.declared.asked.Asked.TheVariants as asked;
ghost use Rattle.graphql_mutation.specs.Mutations.{mutation_of, mutation_over};
ghost use Rattle.graphql_mutation.specs.Serial.{AfterBeginning, mutate, root_groups};
ghost use Rattle.graphql_executor.specs.Executed.{IsBegun, IsBegunAt, IsResponse, Responds, run_at};
ghost use Rattle.graphql_executor.specs.Executed.{runs};

use crate::resolving::Resolving;
use graphql_collected::Request;
use graphql_execution_walk::{
    Asked, Executor, GraphQLValue, Report, answer_selections, or_null, query_root_name,
};
use graphql_field_results::{ExecutionError, in_order};
use graphql_mutation::{GraphQLMutationValue, answer_serially};
use graphql_output_values::Value;
use graphql_schema::{Meaning, SchemaScalar, SchemaType};
use graphql_text::{Items, SourcePosition, Spanning};
use graphql_tree::{Definition, Operation, Selection};
use graphql_values::Variables;
use graphql_written_out::{FinalVariables, Fragments};
use std::alloc::{AllocError, Global};

/// Data, and the errors of fields without a value, in order (GraphQL October 2021, 7.1 Response
/// Format).
pub type Response<S> = (Value<S>, Items<ExecutionError<S>>);

/// What the selection set of a query that starts at this place gives on a resolver's root, an
/// object of the type of this name, from which queries start. An error is want of memory.
fn answer_query<'d, 'a, S: SchemaScalar + Drop, R: GraphQLValue<S>>(
    alloc: Global,
    request: &'d Request<'d, 'a, S>,
    resolver: &R,
    context: &R::Context,
    object: &'d str,
    start: SourcePosition,
    set: &'d [Selection<'a, S>],
) -> Result<Response<S>, AllocError>
    requires settled { Settled (fragments_in request.now) }
    requires query { object.now ≡ request.now.schema.now.query }
    ensures { let e = engine_of S.of_text S.of_bool S.answer request.now
        (R.type_of resolver.now context.now) (R.answer resolver.now context.now) in
        let sets = written_in request.now set.now ∷ [] in
        let outcome = evaluate e [] object.now (asked.Own (R.root_node resolver.now)) sets in
        IfOk result (λ r. IsResponse ⟦<ExecutionError<S> as Ord>⟧.cmp outcome r.0 r.1) }
{
    let executor = Executor::at_root(alloc, request, context, object, start, set);
    let root = Asked::Own(resolver.root());
    let mut report = Report::new(alloc);
    let value = answer_selections(resolver, &executor, object, &root, &mut report)?;
    Ok((or_null(value), in_order(report.errors)))
}

/// What the selection set of a mutation that starts at this place gives and changes, on an object
/// of the type of this name, from which mutations start. An error is want of memory.
fn answer_mutation<'d, 'a, S: SchemaScalar + Drop, R: GraphQLMutationValue<S>>(
    alloc: Global,
    request: &'d Request<'d, 'a, S>,
    resolver: &R,
    context: &mut R::Context,
    object: &'d str,
    start: SourcePosition,
    set: &'d [Selection<'a, S>],
) -> Result<Response<S>, AllocError>
    requires { Settled (fragments_in request.now) }
    ensures run { let m = mutation_of S.of_text S.of_bool S.answer request.now
        (R.type_of resolver.now) (R.answer resolver.now) (R.changes resolver.now) in
        let run = mutate m object.now context.old (written_in request.now set.now ∷ []) in
        IfOk result (λ r. Responds ⟦<ExecutionError<S> as Ord>⟧.cmp run r.0 r.1 context.new) }
    ensures begun { let m = mutation_of S.of_text S.of_bool S.answer request.now
        (R.type_of resolver.now) (R.answer resolver.now) (R.changes resolver.now) in
        let groups = root_groups m object.now context.old (written_in request.now set.now ∷ []) in
        OnErr result (AfterBeginning m object.now context.old groups context.new) }
{
    let nothing = ();
    let root = Executor::at_root(alloc, request, &nothing, object, start, set);
    let mut errors = Items::new(alloc);
    let value = answer_serially(resolver, &root, context, &mut errors)?;
    Ok((or_null(value), in_order(errors)))
}

/// What a selection set that starts at this place gives and changes: at the root of mutations where
/// there is one, else at the root of queries. An error is want of memory.
fn answer_operation<'d, 'a, S: SchemaScalar + Drop, R: GraphQLMutationValue<S>>(
    alloc: Global,
    request: &'d Request<'d, 'a, S>,
    resolver: &R,
    context: &mut R::Context,
    mutation_root: Option<&'d str>,
    start: SourcePosition,
    set: &'d [Selection<'a, S>],
) -> Result<Response<S>, AllocError>
    requires { Settled (fragments_in request.now) }
    ensures responds { let m = mutation_of S.of_text S.of_bool S.answer request.now
        (R.type_of resolver.now) (R.answer resolver.now) (R.changes resolver.now) in
        let sets = written_in request.now set.now ∷ [] in
        let root = option_map (λ name. name.now) mutation_root.entry in
        let run = run_at m request.now.schema.now.query (asked.Own (R.root_node resolver.now)) sets
        root context.old in
        IfOk result (λ r. Responds ⟦<ExecutionError<S> as Ord>⟧.cmp run r.0 r.1 context.new) }
    ensures begun { let m = mutation_of S.of_text S.of_bool S.answer request.now
        (R.type_of resolver.now) (R.answer resolver.now) (R.changes resolver.now) in
        let sets = written_in request.now set.now ∷ [] in
        let root = option_map (λ name. name.now) mutation_root.entry in
        let query = request.now.schema.now.query in
        OnErr result (IsBegunAt m query (asked.Own (R.root_node resolver.now)) sets root context.old
        context.new) }
{
    match mutation_root {
        None => {
            let object = query_root_name(request.schema);
            answer_query(alloc, request, resolver, &*context, object, start, set)
        }
        Some(object) => answer_mutation(alloc, request, resolver, context, object, start, set),
    }
}

/// What an operation of a document gives and changes over the final values of its variables: on the
/// root of mutations where there is one, else on a resolver's root for queries. An error is want of
/// memory.
fn answer_over<'d, 'a, S: SchemaScalar + Drop, R: GraphQLMutationValue<S>>(
    alloc: Global,
    schema: &'d SchemaType<S>,
    document: &'d [Definition<'a, S>],
    operation: &'d Spanning<Operation<'a, S>>,
    mutation_root: Option<&'d str>,
    resolver: &R,
    variables: FinalVariables<'d, S>,
    context: &mut R::Context,
) -> Result<Response<S>, AllocError>
    requires { Settled (fragments_listed document.now) }
    ensures responds { let m =
        mutation_over S.of_text S.of_bool S.answer schema.now (value_in variables.entry)
        (R.type_of resolver.now) (R.answer resolver.now) (R.changes resolver.now) in
        let sets = written (fragments_listed document.now) operation.now.item.selection_set ∷ [] in
        let root = option_map (λ name. name.now) mutation_root.entry in
        let run =
        run_at m schema.now.query (asked.Own (R.root_node resolver.now)) sets root context.old in
        IfOk result (λ r. Responds ⟦<ExecutionError<S> as Ord>⟧.cmp run r.0 r.1 context.new) }
    ensures begun { let m =
        mutation_over S.of_text S.of_bool S.answer schema.now (value_in variables.entry)
        (R.type_of resolver.now) (R.answer resolver.now) (R.changes resolver.now) in
        let sets = written (fragments_listed document.now) operation.now.item.selection_set ∷ [] in
        let root = option_map (λ name. name.now) mutation_root.entry in
        OnErr result (IsBegunAt m schema.now.query (asked.Own (R.root_node resolver.now)) sets root
        context.old context.new) }
{
    let fragments = Fragments::new(alloc, document)?;
    let request = Request {
        schema,
        fragments,
        variables,
    };
    let start = operation.span.start;
    let set = operation.item.selection_set.as_slice();
    let response = answer_operation(
        alloc,
        &request,
        resolver,
        context,
        mutation_root,
        start,
        set,
    )?;
    Ok(response)
}

/// What an operation of a document gives and changes, over the values that a request gives for its
/// variables (GraphQL October 2021, 6.2 Executing Operations): on the root of mutations where there
/// is one, else on a resolver's root for queries. An error is want of memory.
pub(crate) fn execute_operation<'d, 'a, S: SchemaScalar + Drop, R: GraphQLMutationValue<S>>(
    alloc: Global,
    schema: &'d SchemaType<S>,
    document: &'d [Definition<'a, S>],
    operation: &'d Spanning<Operation<'a, S>>,
    mutation_root: Option<&'d str>,
    resolver: &R,
    variables: &'d Variables<S>,
    context: &mut R::Context,
) -> Result<Response<S>, AllocError>
    requires { Settled (fragments_listed document.now) }
    ensures responds { let root = option_map (λ name. name.now) mutation_root.entry in
        let run =
        runs ⟦<S as Meaning>⟧.meaning schema.now (⟦<R as Resolving<S>>⟧.resolving resolver.now)
        document.now (get_by_text variables.now) operation.now.item root context.old in
        IfOk result (λ r. Responds ⟦<ExecutionError<S> as Ord>⟧.cmp run r.0 r.1 context.new) }
    ensures begun { let root = option_map (λ name. name.now) mutation_root.entry in
        OnErr result
        (IsBegun ⟦<S as Meaning>⟧.meaning schema.now (⟦<R as Resolving<S>>⟧.resolving resolver.now)
        document.now (get_by_text variables.now) operation.now.item root context.old context.new) }
{
    let values = FinalVariables::new(alloc, variables, &operation.item)?;
    let response = answer_over(
        alloc,
        schema,
        document,
        operation,
        mutation_root,
        resolver,
        values,
        context,
    )?;
    Ok(response)
}
