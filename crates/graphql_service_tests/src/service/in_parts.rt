//! Queries in two parts: what is answered of their first selection alone, of the others, and of all
//! in one set.

ghost use Rattle.std.specs.Prelude.{◌≡◌, IfOk, IfSome, OnOk, drop, take};
ghost use Rattle.std.specs.HashMap.{get_by_text};
ghost use Rattle.graphql_text.specs.Memory.{Gives};
ghost use Rattle.graphql_tree.specs.Definitions.{fragments_listed};
ghost use Rattle.graphql_tree.specs.declared.document.OperationType.TheVariants as kind;
ghost use Rattle.graphql_written_out.specs.Written.{Settled};
ghost use Rattle.graphql_executor.specs.Executed.{data_of, runs};
ghost use Rattle.graphql_joins.specs.Joins.{IsJoin};
ghost use Rattle.graphql_joins.specs.RequestLaws.{EqualsAnswerAlike};

use graphql_executor::{
    GraphQLError, Meaning, Resolving, documents_without_a_fault_are_settled,
    execute_validated_query, get_operation, read_request,
};
use graphql_file_service::service::Service;
use graphql_file_service::service::laws::{default_scalars_answer_alike, parts_of_queries_join};
use graphql_mutation::GraphQLMutationValue;
use graphql_output_values::Value;
use graphql_sample::{SampleRecords, SampleResolver};
use graphql_schema::SchemaScalar;
use graphql_text::Spanning;
use graphql_tree::{Definition, Operation, OperationType};
use graphql_values::{DefaultScalarValue, Variables};
use std::alloc::{AllocError, Global};

pub type Query<'a, S> = Spanning<Operation<'a, S>>;

/// The data of a query's first selection, of the others, and of all of them.
pub type Parts<S> = (Value<S>, Value<S>, Value<S>);

/// The query of its first selection alone. An error is want of memory.
fn of_first<'a, S: SchemaScalar + Drop>(query: &Query<'a, S>) -> Result<Query<'a, S>, AllocError>
    ensures { let set = take 1 query.now.item.selection_set in
        Gives result (record query.now { item = record query.now.item { selection_set = set } }) }
{
    let mut item = query.item.clone()?;
    item.selection_set.truncate(1);
    let span = query.span;
    Ok(Spanning { item, span })
}

/// The query of the other selections. An error is want of memory.
fn of_others<'a, S: SchemaScalar + Drop>(query: &Query<'a, S>) -> Result<Query<'a, S>, AllocError>
    ensures { let set = drop 1 query.now.item.selection_set in
        Gives result (record query.now { item = record query.now.item { selection_set = set } }) }
{
    let mut item = query.item.clone()?;
    if !item.selection_set.is_empty() {
        item.selection_set.remove(0);
    }
    let span = query.span;
    Ok(Spanning { item, span })
}

/// The data of a query over the fragments of a document. The context stays as it was. Errors are
/// those of `execute_validated_query`.
fn data_of_query<'a, S: SchemaScalar + Drop, R: GraphQLMutationValue<S>>(
    alloc: Global,
    document: &[Definition<'a, S>],
    query: &Query<'a, S>,
    service: &Service<S, R, R::Context>,
    variables: &Variables<S>,
    context: &mut R::Context,
) -> Result<Value<S>, GraphQLError>
    requires settled { Settled (fragments_listed document.now) }
    requires query { query.now.item.operation_type ≡ kind.Query }
    ensures answered { let root = service.now.root_node in
        let resolver = ⟦<R as Resolving<S>>⟧.resolving service.now.resolver in
        let run = runs ⟦<S as Meaning>⟧.meaning root.schema resolver document.now
        (get_by_text variables.now) query.now.item None context.old in
        IfOk result (λ answered. answered ≡ data_of run.outcome) }
    ensures kept { OnOk result (context.new ≡ context.old) }
{
    let root = service.root_node();
    let resolver = service.resolver();
    let (data, _) = execute_validated_query(
        alloc, document, query, root, resolver, variables, context,
    )?;
    Ok(data)
}

/// The data of the first selection of a text's query alone, of its other selections, and of all of
/// them: where scalars that are the same answer the same, these are the join of the parts' data.
/// `None` where the text's operation is no query. Errors are those of `read_request`,
/// `get_operation` and `execute_validated_query`.
pub fn parts_of_query<S: SchemaScalar + Drop, R: GraphQLMutationValue<S>>(
    alloc: Global,
    text: &str,
    service: &Service<S, R, R::Context>,
    variables: &Variables<S>,
    context: &mut R::Context,
) -> Result<Option<Parts<S>>, GraphQLError>
    ensures { EqualsAnswerAlike S.eq S.answer
        → IfOk result (λ parts. IfSome parts (λ p. IsJoin p.0 p.1 p.2)) }
{
    parts_of_queries_join(service);
    let root = service.root_node();
    documents_without_a_fault_are_settled(root.schema());
    let document = read_request(alloc, text, root)?;
    let definitions = document.as_slice();
    let query = get_operation(definitions, None)?;
    let OperationType::Query = query.item.operation_type else {
        return Ok(None);
    };
    let first = of_first(query)?;
    let others = of_others(query)?;
    let first = data_of_query(alloc, definitions, &first, service, variables, context)?;
    let others = data_of_query(alloc, definitions, &others, service, variables, context)?;
    let all = data_of_query(alloc, definitions, query, service, variables, context)?;
    Ok(Some((first, others, all)))
}

/// The same over the sample, whose scalars are the default ones: the data of all selections are the
/// join of the data of the first and of the data of the others.
pub fn parts_over_the_sample(
    alloc: Global,
    text: &str,
    service: &Service<DefaultScalarValue, SampleResolver, SampleRecords>,
    variables: &Variables<DefaultScalarValue>,
    context: &mut SampleRecords,
) -> Result<Option<Parts<DefaultScalarValue>>, GraphQLError>
    ensures { IfOk result (λ parts. IfSome parts (λ p. IsJoin p.0 p.1 p.2)) }
{
    default_scalars_answer_alike();
    parts_of_query(alloc, text, service, variables, context)
}
