//! Lists that are answered: of those that meet a condition, and parts of them.

ghost use Rattle.std.specs.Prelude.{◌≡◌, ℕ, Option, Result, drop, take};
ghost use Rattle.graphql_resolvers.specs.Refusals.{Refusal, TellsBy};
ghost use Rattle.graphql_resolvers.specs.Answers as spec;
ghost use Rattle.graphql_resolvers.specs.Answers.{Answers};

use crate::answer::{Answer, Reply};
use crate::asks::Asked;
use graphql_field_results::Resolved;
use graphql_text::Items;
use std::alloc::Global;

/// The list of the nodes that a function gives for these, each by its place and itself, in order;
/// those for which it gives none are left out. Its only error is want of memory.
#[tactic(auto, unfolding(crate::specs::Answers::nodes_where))]
pub fn nodes_where<T, N: Drop, F: Fn(usize, &T) -> Option<N> + Drop>(
    alloc: Global,
    items: &[T],
    choose: F,
) -> Answer<N>
    requires { F.IsAlwaysCallable choose }
    ensures { (wanted : ℕ → T → Option N) → spec.NodesBy wanted (F.post choose)
        → Answers (spec.nodes_where wanted items.now) result }
{
    let mut found = Items::new(alloc);
    'places: for place in 0..items.len() {
        match choose(place, &items[place]) {
            Some(node) => found.push(Resolved::Node(node))?,
            None => {}
        }
    }
    Ok(Reply {
        resolved: Resolved::List(found),
    })
}

/// Of a list that is answered as many of the first as this, as `given.count_or_null("first")` tells
/// it; all where no count is given. What is no list stays. An error of the count is the field's.
#[tactic(auto, unfolding(crate::specs::Answers::first))]
pub fn first<N: Drop>(answer: Answer<N>, count: Asked<Option<usize>>) -> Answer<N>
    ensures { (asked : Result (Option ℕ) Refusal) (wanted : spec.Answer N)
        → TellsBy (λ c. c) count asked
        → Answers wanted answer → Answers (spec.first asked wanted) result }
{
    match count {
        Ok(count) => first_if(answer, count),
        Err(failure) => Err(failure),
    }
}

/// Of a list that is answered all but as many of the first as this, as
/// `given.count_or_null("skip")` tells it; all where no count is given. What is no list stays. An
/// error of the count is the field's.
#[tactic(auto, unfolding(crate::specs::Answers::skip))]
pub fn skip<N: Drop>(answer: Answer<N>, count: Asked<Option<usize>>) -> Answer<N>
    ensures { (asked : Result (Option ℕ) Refusal) (wanted : spec.Answer N)
        → TellsBy (λ c. c) count asked
        → Answers wanted answer → Answers (spec.skip asked wanted) result }
{
    match count {
        Ok(count) => skip_if(answer, count),
        Err(failure) => Err(failure),
    }
}

/// As many of the first as this, if a count is given.
fn first_if<N: Drop>(answer: Answer<N>, count: Option<usize>) -> Answer<N>
    ensures { (wanted : spec.Answer N) → Answers wanted answer
        → Answers (spec.cut_by take count wanted) result }
{
    match count {
        Some(count) => match answer {
            Ok(reply) => Ok(first_of(reply, count)),
            Err(failure) => Err(failure),
        },
        None => answer,
    }
}

/// All but as many of the first as this, if a count is given.
fn skip_if<N: Drop>(answer: Answer<N>, count: Option<usize>) -> Answer<N>
    ensures { (wanted : spec.Answer N) → Answers wanted answer
        → Answers (spec.cut_by drop count wanted) result }
{
    match count {
        Some(count) => match answer {
            Ok(reply) => Ok(behind(reply, count)),
            Err(failure) => Err(failure),
        },
        None => answer,
    }
}

/// As many of the first of a list as this.
fn first_of<N: Drop>(reply: Reply<N>, count: usize) -> Reply<N>
    ensures { result ≡ spec.reply (spec.cut_of (take count) reply.resolved) }
{
    match reply.resolved {
        Resolved::List(items) => {
            let mut items = items;
            items.truncate(count);
            Reply {
                resolved: Resolved::List(items),
            }
        }
        Resolved::Null => Reply {
            resolved: Resolved::Null,
        },
        Resolved::Scalar(scalar) => Reply {
            resolved: Resolved::Scalar(scalar),
        },
        Resolved::Node(node) => Reply {
            resolved: Resolved::Node(node),
        },
    }
}

/// All of a list but as many of the first as this.
fn behind<N: Drop>(reply: Reply<N>, count: usize) -> Reply<N>
    ensures { result ≡ spec.reply (spec.cut_of (drop count) reply.resolved) }
{
    match reply.resolved {
        Resolved::List(items) => Reply {
            resolved: Resolved::List(rest_of(items, count)),
        },
        Resolved::Null => Reply {
            resolved: Resolved::Null,
        },
        Resolved::Scalar(scalar) => Reply {
            resolved: Resolved::Scalar(scalar),
        },
        Resolved::Node(node) => Reply {
            resolved: Resolved::Node(node),
        },
    }
}

/// All of these but as many of the first as this. It takes no memory.
#[tactic(auto, using(crate::proofs::Rests::all_are_left_out, crate::proofs::Rests::rest_is))]
fn rest_of<T: Drop>(items: Items<T>, count: usize) -> Items<T>
    ensures { result ≡ drop count items }
{
    let mut held = items.into_vec();
    if held.len() <= count {
        held.clear();
    } else {
        let rest = held.len() - count;
        held.rotate_left(count);
        held.truncate(rest);
    }
    Items::from_vec(held)
}
