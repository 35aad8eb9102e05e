//! What fields are asked of: nodes of resolvers, and parts of the schema.

ghost use Rattle.std.specs.Prelude.{◌≡◌, map};
ghost use Rattle.graphql_text.specs.Memory.{Gives};
ghost use Rattle.graphql_execution_walk.specs.Asked.{asked_type, map_nodes};
ghost use Rattle.graphql_execution_walk.specs.declared.asked.Asked.TheVariants as asked;

use crate::graphql_value::GraphQLValue;
use graphql_field_results::Resolved;
use graphql_introspection::{SchemaAnswer, SchemaPart, part_type_name};
use graphql_schema::SchemaScalar;
use graphql_text::Items;
use std::alloc::{AllocError, Global};

/// What fields are asked of.
#[derive(Drop)]
pub enum Asked<'d, S, N, C = <S as SchemaScalar>::Check> {
    /// A node of a resolver.
    Own(N),

    /// A part of the schema (GraphQL October 2021, 4.2 Schema Introspection).
    Part(SchemaPart<'d, S, C>),
}

/// The name of the object type of what is asked.
pub(crate) fn asked_type_name<'c, S: SchemaScalar, R: GraphQLValue<S>>(
    resolver: &'c R,
    context: &'c R::Context,
    node: &'c Asked<'_, S, R::Node>,
) -> &'c str
    ensures { result.now ≡ asked_type (R.type_of resolver.now context.now) node.now }
{
    match node {
        Asked::Own(node) => resolver.concrete_type_name(context, node),
        Asked::Part(part) => part_type_name(part),
    }
}

/// What a resolver answers, as an answer of what is asked. Takes stack for each level that lists
/// nest in it. An error is want of memory.
#[cycle(of_resolver)]
pub fn of_resolver<'d, S: SchemaScalar + Drop, N: Drop>(
    alloc: Global,
    answer: Resolved<S, N>,
) -> Result<Resolved<S, Asked<'d, S, N>>, AllocError>
    ensures { Gives result (map_nodes asked.Own answer) }
{
    match answer {
        Resolved::Null => Ok(Resolved::Null),
        Resolved::Scalar(scalar) => Ok(Resolved::Scalar(scalar)),
        Resolved::List(items) => Ok(Resolved::List(items_of_resolver(alloc, items)?)),
        Resolved::Node(node) => Ok(Resolved::Node(Asked::Own(node))),
    }
}

/// The same of the items of a list, in order.
#[cycle(of_resolver)]
fn items_of_resolver<'d, S: SchemaScalar + Drop, N: Drop>(
    alloc: Global,
    items: Items<Resolved<S, N>>,
) -> Result<Items<Resolved<S, Asked<'d, S, N>>>, AllocError>
    ensures { Gives result (map (map_nodes asked.Own) items) }
{
    let mut all = Items::with_capacity(alloc, items.len())?;
    for item in items {
        all.push(of_resolver(alloc, item)?)?;
    }
    Ok(all)
}

/// What the schema answers, as an answer of what is asked. Takes stack for each level that lists
/// nest in it, which is one at most. An error is want of memory.
#[cycle(of_schema)]
pub fn of_schema<'d, S: SchemaScalar + Drop, N: Drop>(
    alloc: Global,
    answer: SchemaAnswer<'d, S>,
) -> Result<Resolved<S, Asked<'d, S, N>>, AllocError>
    ensures { Gives result (map_nodes asked.Part answer.entry) }
{
    match answer {
        Resolved::Null => Ok(Resolved::Null),
        Resolved::Scalar(scalar) => Ok(Resolved::Scalar(scalar)),
        Resolved::List(items) => Ok(Resolved::List(items_of_schema(alloc, items)?)),
        Resolved::Node(part) => Ok(Resolved::Node(Asked::Part(part))),
    }
}

/// The same of the items of a list, in order.
#[cycle(of_schema)]
fn items_of_schema<'d, S: SchemaScalar + Drop, N: Drop>(
    alloc: Global,
    items: Items<SchemaAnswer<'d, S>>,
) -> Result<Items<Resolved<S, Asked<'d, S, N>>>, AllocError>
    ensures { Gives result (map (map_nodes asked.Part) items.entry) }
{
    let mut all = Items::with_capacity(alloc, items.len())?;
    for item in items {
        all.push(of_schema(alloc, item)?)?;
    }
    Ok(all)
}
