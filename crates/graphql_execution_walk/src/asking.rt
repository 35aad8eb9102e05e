//! What is answered for a field of a node.

ghost use Rattle.std.specs.Prelude.{◌≡◌, IfSome};
ghost use Rattle.graphql_text.specs.Memory.{Gives, GivesBy};
ghost use Rattle.graphql_arguments.specs.GivenValues.{arguments_told};
ghost use Rattle.graphql_written_out.specs.Written.{head_of};
ghost use Rattle.graphql_execution_walk.specs.Answered.{Answered};
ghost use Rattle.graphql_execution_walk.specs.Asked.{told_of_itself};
ghost use Rattle.graphql_execution_walk.specs.Engines.{arguments_given as values_in};
ghost use Rattle.graphql_execution_walk.specs.Evaluations.{answer_for};
ghost use Rattle.graphql_execution_walk.specs.Prepared.{Prepares, asked_in};
ghost use Rattle.graphql_execution_walk.specs.Standing.{IsSettled, IsTyped, StandsAt};

use crate::asked::{Asked, of_resolver, of_schema};
use crate::evaluating::Evaluating;
use crate::executor::Executor;
use crate::fields::{declared_arguments, query_root_name};
use crate::graphql_value::GraphQLValue;
use crate::prepared::{Prepared, arguments_at};
use graphql_arguments::Arguments;
use graphql_collected::Request;
use graphql_field_results::{FieldResult, Resolved};
use graphql_introspection::{SchemaAnswer, SchemaPart, answer_of, type_asked};
use graphql_schema::{SchemaScalar, SchemaType};
use graphql_text::{Spanning, Text};
use graphql_tree::{Field, arguments_in};
use std::alloc::{AllocError, Global};

/// The argument values of a field of the object type of this name. An error is want of memory.
pub fn arguments_of<'d, 'a, S: SchemaScalar + Drop>(
    alloc: Global,
    request: &'d Request<'d, 'a, S>,
    object: &str,
    field: &'d Spanning<Field<'a, S>>,
) -> Result<Arguments<'d, S>, AllocError>
    ensures { GivesBy arguments_told result (values_in request.now object.now (head_of field.now)) }
{
    let name = field.item.name.item.as_str();
    let declared = declared_arguments(request.schema, object, name);
    let written = arguments_in(&field.item.arguments);
    Arguments::new(alloc, declared, written, &request.variables)
}

/// The scalar of a text. An error is want of memory.
fn text_scalar<S: SchemaScalar>(alloc: Global, text: &str) -> Result<S, AllocError>
    ensures { Gives result (S.of_text text.now) }
{
    Ok(S::from_string(Text::from_str(alloc, text)?.into_string()))
}

/// What an object of the type of this name tells of itself, without being asked: to each field
/// `__typename` the name of its type; an object of the type from which queries start the schema,
/// too, to `__schema` and `__type` (GraphQL October 2021, 4.1 Type Name Introspection, 4.2 Schema
/// Introspection). An error is want of memory.
pub fn told_of_itself<'d, S: SchemaScalar>(
    alloc: Global,
    schema: &'d SchemaType<S>,
    object: &str,
    name: &str,
    arguments: &Arguments<'_, S>,
) -> Result<Option<SchemaAnswer<'d, S>>, AllocError>
    ensures { Gives result (told_of_itself S.of_text S.answer schema.now object.now name.now
        (arguments_told arguments.now)) }
{
    if name == "__typename" {
        return Ok(Some(Resolved::Scalar(text_scalar(alloc, object)?)));
    }
    if name == "__schema" && object == query_root_name(schema) {
        return Ok(Some(Resolved::Node(SchemaPart::Schema)));
    }
    if name == "__type" && object == query_root_name(schema) {
        return Ok(Some(type_asked(schema, arguments)));
    }
    Ok(None)
}

/// What is answered for the field of an object type at which an executor stands, of which something
/// may be known: what each object tells of itself the resolver is not asked, nor what the schema
/// answers (GraphQL October 2021, 4 Introspection). `FieldFault::Memory` is want of memory.
#[tactic(auto, unfolding(crate::specs::Engines::engine_over))]
pub(crate) fn ask<'p, 'd, 'a, S: SchemaScalar + Drop, R: GraphQLValue<S>>(
    resolver: &R,
    executor: &Executor<'_, 'p, 'a, R::Context, S>,
    schema: &'d SchemaType<S>,
    object: &str,
    node: &Asked<'d, S, R::Node>,
    field: &'p Spanning<Field<'a, S>>,
    prepared: Option<&Prepared<'_>>,
) -> FieldResult<Resolved<S, Asked<'d, S, R::Node>>, S>
    requires settled { IsSettled executor.now }
    requires schema { schema.now ≡ executor.now.request.now.schema.now }
    requires typed { let here = ⟦<R as Evaluating<S>>⟧.here resolver.now executor.now in
        IsTyped here node.now object.now }
    requires stands { StandsAt executor.now object.now field.now }
    requires prepared { IfSome prepared
        (λ known.
        Prepares (asked_in executor.now.request.now) object.now (head_of field.now) known.now) }
    ensures { let here = ⟦<R as Evaluating<S>>⟧.here resolver.now executor.now in
        Answered (answer_for here node.now object.now (head_of field.now)) result }
{
    let name = field.item.name.item.as_str();
    let arguments = arguments_at(executor.alloc, executor.request, object, field, prepared)?;
    if let Some(told) = told_of_itself(executor.alloc, schema, object, name, &arguments)? {
        return Ok(of_schema(executor.alloc, told)?);
    }
    match node {
        Asked::Own(node) => {
            let answer = resolver.resolve_field(node, name, &arguments, executor)?;
            Ok(of_resolver(executor.alloc, answer)?)
        }
        Asked::Part(part) => {
            let answer = answer_of(executor.alloc, schema, part, name, &arguments)?;
            Ok(of_schema(executor.alloc, answer)?)
        }
    }
}
