//! Answers on a stack of objects and lists in progress, which is kept on the heap.

ghost use Rattle.std.specs.Prelude.{◌≡◌, ◌<◌, ◌+◌, ◌++◌, [], ◌∷◌, OnOk, IfOk, List};
ghost use Rattle.graphql_execution_walk.specs.declared.frames.Frame.TheVariants as frame;
ghost use Rattle.graphql_execution_walk.specs.FrameTurns.{all_waiting, begun_turns, rest_turns};
ghost use Rattle.graphql_execution_walk.specs.FrameTurns.{turned_turns};
ghost use Rattle.graphql_execution_walk.specs.Frames.{Advances, comes_to, group_outcome};
ghost use Rattle.graphql_execution_walk.specs.Frames.{known_of, learns, turned_to, rest, Fine};
ghost use Rattle.graphql_execution_walk.specs.Frames.{AllFine, FineBegun, FineTurned};
ghost use Rattle.graphql_execution_walk.specs.GivesOutcome.{GivesOutcome};
ghost use Rattle.graphql_execution_walk.specs.KnownTypes.{IsTaught, KnownIn};
ghost use Rattle.graphql_execution_walk.specs.Sets.{HasKey};
ghost use Rattle.graphql_execution_walk.specs.Standing.{IsSettled, IsTyped};

use crate::asked::Asked;
use crate::beginning::{Spot, begin};
use crate::evaluating::Evaluating;
use crate::executor::Executor;
use crate::failing::begun_or_told;
use crate::frame_parts::{list_of, news_of, object_of};
use crate::frames::{
    Begun, Frame, FrameIn, KnownGroups, ListFrame, ListFrameIn, ObjectFrame, ObjectFrameIn, Turned,
};
use crate::graphql_value::GraphQLValue;
use crate::parts::shown;
use crate::prepared::prepared_at;
use crate::report::Report;
use crate::steps::{give, start};
use graphql_collect::Group;
use graphql_output_values::Value;
use graphql_schema::SchemaScalar;
use graphql_text::Items;
use std::alloc::AllocError;

/// Leaves a frame to wait. An error is want of memory.
fn wait<'d, 'a, S: SchemaScalar + Drop, N: Drop>(
    waiting: &mut Items<FrameIn<'d, 'a, S, N>>,
    waits: FrameIn<'d, 'a, S, N>,
) -> Result<(), AllocError>
    ensures { OnOk result (waiting.new ≡ waiting.old ++ waits.entry ∷ []) }
{
    waiting.push(waits)?;
    Ok(())
}

/// What a list knows once an item has begun: if that is an object, what is selected from its type
/// too. An error is want of memory.
fn taught<'d, 'a, S: SchemaScalar + Drop, N: Drop>(
    known: KnownGroups<'d, 'a, S>,
    begun: &Begun<'d, 'a, S, N>,
) -> Result<KnownGroups<'d, 'a, S>, AllocError>
    ensures { IfOk result (IsTaught known.entry (known_of begun.now)) }
{
    let Some(news) = news_of(&known, begun)? else {
        return Ok(known);
    };
    let mut known = known;
    known.put(news)?;
    Ok(known)
}

/// Leaves a list to wait for an item that has begun; if that is an object, what is selected from
/// its type is known from now on. An error is want of memory.
fn wait_for_item<'d, 'a, S: SchemaScalar + Drop, N: Drop>(
    waiting: &mut Items<FrameIn<'d, 'a, S, N>>,
    waits: ListFrameIn<'d, 'a, S, N>,
    begun: &Begun<'d, 'a, S, N>,
) -> Result<(), AllocError>
    ensures { OnOk result ((known : List (KnownIn S))
        × IsTaught waits.entry.known (known_of begun.now) known
        × (waiting.new ≡ waiting.old ++ frame.List (learns waits.entry known) ∷ [])) }
{
    let ListFrame {
        name,
        selected,
        location,
        wraps,
        items,
        values,
        known,
    } = waits;
    let known = taught(known, begun)?;
    let waits = Frame::List(ListFrame {
        name,
        selected,
        location,
        wraps,
        items,
        values,
        known,
    });
    wait(waiting, waits)?;
    Ok(())
}

/// Starts an object's next group, or ends the object. An error is want of memory.
fn advance_object<'d, 'a, S: SchemaScalar + Drop, R: GraphQLValue<S>>(
    resolver: &R,
    executor: &Executor<'_, 'd, 'a, R::Context, S>,
    object_frame: ObjectFrameIn<'d, 'a, S, Asked<'d, S, R::Node>>,
    waiting: &mut Items<FrameIn<'d, 'a, S, Asked<'d, S, R::Node>>>,
    report: &mut Report<'d, S>,
) -> Result<Begun<'d, 'a, S, Asked<'d, S, R::Node>>, AllocError>
    requires settled { IsSettled executor.now }
    requires fine { let here = ⟦<R as Evaluating<S>>⟧.here resolver.now executor.now in
        Fine here (frame.Object object_frame) × AllFine here waiting.now }
    ensures steps { let here = ⟦<R as Evaluating<S>>⟧.here resolver.now executor.now in
        IfOk result (λ begun. Advances here waiting.old
        (λ path. rest here path (frame.Object object_frame.entry)) report.old
        waiting.new (comes_to here begun) report.new) }
    ensures turns { let here = ⟦<R as Evaluating<S>>⟧.here resolver.now executor.now in
        IfOk result (λ begun. all_waiting here waiting.new + begun_turns here begun
        < all_waiting here waiting.old + rest_turns here (frame.Object object_frame.entry)) }
    ensures fine { let here = ⟦<R as Evaluating<S>>⟧.here resolver.now executor.now in
        IfOk result (λ begun. AllFine here waiting.new × FineBegun here begun) }
{
    let ObjectFrame {
        node,
        object,
        groups,
        prepared,
        next,
        is_needed: _,
        members,
    } = object_frame;
    let started = match groups.get().get(next) {
        None => return Ok(Begun::Value(object_of(members))),
        Some(group) => {
            let prepared_field = prepared_at(&prepared, next);
            start(
                resolver,
                executor,
                object.as_str(),
                &node,
                group,
                prepared_field,
                report,
            )?
        }
    };
    let waits = Frame::Object(ObjectFrame {
        node,
        object,
        groups,
        prepared,
        next,
        is_needed: started.is_needed,
        members,
    });
    wait(waiting, waits)?;
    Ok(started.begun)
}

/// Begins a list's next item, or ends the list. An error is want of memory.
fn advance_list<'d, 'a, S: SchemaScalar + Drop, R: GraphQLValue<S>>(
    resolver: &R,
    executor: &Executor<'_, 'd, 'a, R::Context, S>,
    list_frame: ListFrameIn<'d, 'a, S, Asked<'d, S, R::Node>>,
    waiting: &mut Items<FrameIn<'d, 'a, S, Asked<'d, S, R::Node>>>,
    report: &mut Report<'d, S>,
) -> Result<Begun<'d, 'a, S, Asked<'d, S, R::Node>>, AllocError>
    requires settled { IsSettled executor.now }
    requires fine { let here = ⟦<R as Evaluating<S>>⟧.here resolver.now executor.now in
        Fine here (frame.List list_frame) × AllFine here waiting.now }
    ensures steps { let here = ⟦<R as Evaluating<S>>⟧.here resolver.now executor.now in
        IfOk result (λ begun. Advances here waiting.old
        (λ path. rest here path (frame.List list_frame.entry)) report.old
        waiting.new (comes_to here begun) report.new) }
    ensures turns { let here = ⟦<R as Evaluating<S>>⟧.here resolver.now executor.now in
        IfOk result (λ begun. all_waiting here waiting.new + begun_turns here begun
        < all_waiting here waiting.old + rest_turns here (frame.List list_frame.entry)) }
    ensures fine { let here = ⟦<R as Evaluating<S>>⟧.here resolver.now executor.now in
        IfOk result (λ begun. AllFine here waiting.new × FineBegun here begun) }
{
    let ListFrame {
        name,
        selected,
        location,
        wraps,
        items,
        values,
        known,
    } = list_frame;
    let mut items = items;
    let Some(item) = items.pop() else {
        return Ok(Begun::Value(list_of(values)));
    };
    let spot = Spot {
        name: &name,
        is_leaf: None,
        selected: selected.lent(),
        location,
        known: Some(&known),
    };
    let begins = begin(resolver, executor, &spot, wraps, item);
    let begun = begun_or_told(executor.alloc, location, begins, report)?;
    let waits = ListFrame {
        name,
        selected,
        location,
        wraps,
        items,
        values,
        known,
    };
    wait_for_item(waiting, waits, &begun)?;
    Ok(begun)
}

/// One turn of the loop. An error is want of memory.
fn turn<'d, 'a, S: SchemaScalar + Drop, R: GraphQLValue<S>>(
    resolver: &R,
    executor: &Executor<'_, 'd, 'a, R::Context, S>,
    now: Begun<'d, 'a, S, Asked<'d, S, R::Node>>,
    waiting: &mut Items<FrameIn<'d, 'a, S, Asked<'d, S, R::Node>>>,
    report: &mut Report<'d, S>,
) -> Result<Turned<'d, 'a, S, Asked<'d, S, R::Node>>, AllocError>
    requires settled { IsSettled executor.now }
    requires fine { let here = ⟦<R as Evaluating<S>>⟧.here resolver.now executor.now in
        AllFine here waiting.now × FineBegun here now }
    ensures steps { let here = ⟦<R as Evaluating<S>>⟧.here resolver.now executor.now in
        IfOk result (λ turned. Advances here waiting.old (comes_to here now.entry) report.old
        waiting.new (turned_to here turned) report.new) }
    ensures turns { let here = ⟦<R as Evaluating<S>>⟧.here resolver.now executor.now in
        IfOk result (λ turned. all_waiting here waiting.new + turned_turns here turned
        < all_waiting here waiting.old + begun_turns here now.entry) }
    ensures fine { let here = ⟦<R as Evaluating<S>>⟧.here resolver.now executor.now in
        IfOk result (λ turned. FineTurned here turned waiting.new) }
{
    match now {
        Begun::Value(value) => match waiting.pop() {
            None => Ok(Turned::Done(value)),
            Some(waits) => {
                let given = give(waits, value, report)?;
                Ok(Turned::Open(Begun::Frame(given)))
            }
        },
        Begun::Frame(Frame::Object(object_frame)) => {
            let begun = advance_object(resolver, executor, object_frame, waiting, report)?;
            Ok(Turned::Open(begun))
        }
        Begun::Frame(Frame::List(list_frame)) => {
            let begun = advance_list(resolver, executor, list_frame, waiting, report)?;
            Ok(Turned::Open(begun))
        }
    }
}

/// The value of what has begun. An error is want of memory.
pub(crate) fn drive<'d, 'a, S: SchemaScalar + Drop, R: GraphQLValue<S>>(
    resolver: &R,
    executor: &Executor<'_, 'd, 'a, R::Context, S>,
    first: Begun<'d, 'a, S, Asked<'d, S, R::Node>>,
    report: &mut Report<'d, S>,
) -> Result<Option<Value<S>>, AllocError>
    requires settled { IsSettled executor.now }
    requires fine { let here = ⟦<R as Evaluating<S>>⟧.here resolver.now executor.now in
        FineBegun here first }
    ensures { let here = ⟦<R as Evaluating<S>>⟧.here resolver.now executor.now in
        IfOk result (λ value. GivesOutcome (comes_to here first.entry report.old.path) report.old
        value report.new) }
{
    let mut waiting = Items::new(executor.alloc);
    let mut now = first;
    'turns: loop {
        match turn(resolver, executor, now, &mut waiting, report)? {
            Turned::Done(value) => return Ok(value),
            Turned::Open(begun) => now = begun,
        }
    }
}

/// What a group shows. An error is want of memory.
pub(crate) fn answer_group<'d, 'a, S: SchemaScalar + Drop, R: GraphQLValue<S>>(
    resolver: &R,
    executor: &Executor<'_, 'd, 'a, R::Context, S>,
    object: &str,
    node: &Asked<'d, S, R::Node>,
    these: &Group<'d, 'a, S>,
    report: &mut Report<'d, S>,
) -> Result<Option<Value<S>>, AllocError>
    requires settled { IsSettled executor.now }
    requires typed { let here = ⟦<R as Evaluating<S>>⟧.here resolver.now executor.now in
        IsTyped here node.now object.now }
    requires keyed { HasKey these.now }
    ensures { let here = ⟦<R as Evaluating<S>>⟧.here resolver.now executor.now in
        IfOk result (λ value. GivesOutcome
        (group_outcome here report.old.path object.now node.now these.now) report.old value
        report.new) }
{
    let started = start(resolver, executor, object, node, these, None, report)?;
    let value = drive(resolver, executor, started.begun, report)?;
    report.leave();
    Ok(shown(started.is_needed, value))
}
