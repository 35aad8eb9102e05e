//! A cache of answers around a mutation.

ghost use Rattle.std.specs.Prelude.{IfOk, IfSome};
ghost use Rattle.graphql_stores.specs.Caching.{KeepsAnswers};
ghost use Rattle.graphql_stores_tests.specs.Cached.{AnswersAround, IsAnsweredAround};

use crate::stored::{LINE_LIMIT, SELECTION_LIMIT};
use graphql_executor::GraphQLMutationValue;
use graphql_schema::{RootNode, SchemaScalar};
use graphql_service::{Answering, Service};
use graphql_stores::AnswerCache;
use std::alloc::{AllocError, Global};

/// The answer lines of three request lines.
pub type Three = (Vec<u8>, Vec<u8>, Vec<u8>);

/// Answers a line by a cache, then another one, and then the first again. Where the cache keeps
/// answers, each is the service's on the context that the line before has left, whatever the other
/// line has changed, and the cache keeps answers then. The only error is want of memory.
pub fn answered_around<S: SchemaScalar + Drop, R: GraphQLMutationValue<S>>(
    alloc: Global,
    cache: &mut AnswerCache<S, R, R::Context>,
    line: &[u8],
    other: &[u8],
) -> Result<Three, AllocError>
    ensures { KeepsAnswers ⟦<R as Answering<S>>⟧.answering cache.old
        → IfOk result (λ three. AnswersAround ⟦<R as Answering<S>>⟧.answering cache.old.service
        line.now other.now three.0.items three.1.items three.2.items cache.new.service
        × KeepsAnswers ⟦<R as Answering<S>>⟧.answering cache.new) }
{
    let mut first = Vec::new(alloc);
    let mut second = Vec::new(alloc);
    let mut third = Vec::new(alloc);
    cache.answer(alloc, line, &mut first)?;
    cache.answer(alloc, other, &mut second)?;
    cache.answer(alloc, line, &mut third)?;
    Ok((first, second, third))
}

/// Answers a line by a new cache of at most `byte_limit` bytes over a service, then another one, as
/// that of a mutation, and then the first again: as the service answers them, the last on the
/// context that the mutation has left. `None` where there is no service over the root node, or
/// where memory ran out.
pub fn answered_around_by_service<S: SchemaScalar + Drop, R: GraphQLMutationValue<S>>(
    alloc: Global,
    root_node: RootNode<S>,
    resolver: R,
    context: R::Context,
    byte_limit: usize,
    line: &[u8],
    other: &[u8],
) -> Option<Three>
where
    R: Drop,
    R::Context: Drop,
    ensures { IfSome result (λ three. IsAnsweredAround ⟦<R as Answering<S>>⟧.answering
        root_node resolver context LINE_LIMIT SELECTION_LIMIT line.now other.now
        three.0.items three.1.items three.2.items) }
{
    let Ok(service) = Service::new(root_node, resolver, context, LINE_LIMIT, SELECTION_LIMIT) else {
        return None;
    };
    let mut cache = AnswerCache::new(alloc, service, byte_limit);
    let Ok(three) = answered_around(alloc, &mut cache, line, other) else {
        return None;
    };
    Some(three)
}
