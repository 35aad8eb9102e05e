//! What groups come to, and what frames get that wait for places.

ghost use Rattle.std.specs.Prelude.{◌≡◌, ◌++◌, [], ◌∷◌, reverse, IfOk, IfSome, OnOk, List};
ghost use Rattle.graphql_collect.specs.Grouped.{all_found};
ghost use Rattle.graphql_occurrences.specs.DeclaredLent.{literal_of};
ghost use Rattle.graphql_names.specs.Names.{Bytes};
ghost use Rattle.graphql_written_out.specs.Written.{head_of};
ghost use Rattle.graphql_semantics.specs.Evaluation.{sets_below};
ghost use Rattle.graphql_semantics.specs.Outcomes.{show_place};
ghost use Rattle.graphql_semantics.specs.Turns.{all_turns, turns_of_group};
ghost use Rattle.graphql_execution_walk.specs.declared.frames.Frame.TheVariants as frame;
ghost use Rattle.graphql_execution_walk.specs.Begins.{BeginsOrErrs};
ghost use Rattle.graphql_execution_walk.specs.Evaluations.{Evaluation, answer_for};
ghost use Rattle.graphql_execution_walk.specs.FrameTurns.{begun_turns, rest_turns, waiting_turns};
ghost use Rattle.graphql_execution_walk.specs.Frames.{Fine, FineBegun, TellsFirst, close, comes_to};
ghost use Rattle.graphql_execution_walk.specs.Frames.{down, group_outcome, rest, shows};
ghost use Rattle.graphql_execution_walk.specs.Prepared.{IsPrepared, Prepares, asked_in};
ghost use Rattle.graphql_execution_walk.specs.Sets.{HasKey};
ghost use Rattle.graphql_execution_walk.specs.Standing.{IsFieldPlace, IsSettled, IsTyped};

use crate::asked::Asked;
use crate::asking::ask;
use crate::beginning::{Spot, begin};
use crate::evaluating::Evaluating;
use crate::executor::Executor;
use crate::failing::begun_or_told;
use crate::frame_parts::behind;
use crate::frames::{
    Begun, Frame, FrameIn, KnownGroups, ListFrame, ListFrameIn, ObjectFrame, ObjectFrameIn, Started,
};
use crate::graphql_value::GraphQLValue;
use crate::parts::{is_required, shown, with_item, with_member};
use crate::prepared::{Prepared, declared_at, leaf_told};
use crate::report::Report;
use graphql_collect::Group;
use graphql_collected::CollectedField;
use graphql_field_results::FieldResult;
use graphql_look_ahead::Selected;
use graphql_occurrences::TypeLiteral;
use graphql_output_values::Value;
use graphql_schema::SchemaScalar;
use graphql_text::{Spanning, TextRef};
use graphql_tree::Field;
use std::alloc::AllocError;

/// What a group's first field, of which the schema declares this type and to which these response
/// keys lead, comes to on a node of an object type.
fn begin_field<'p, 'd, 'a, S: SchemaScalar + Drop, R: GraphQLValue<S>>(
    resolver: &R,
    executor: &Executor<'_, 'd, 'a, R::Context, S>,
    object: &str,
    node: &Asked<'d, S, R::Node>,
    fields: &'p [CollectedField<'d, 'a, S>],
    first: &CollectedField<'d, 'a, S>,
    declared: TypeLiteral<'d>,
    prepared: Option<&Prepared<'d>>,
    keys: &'p [TextRef<'d>],
) -> FieldResult<Begun<'d, 'a, S, Asked<'d, S, R::Node>>, S>
    requires settled { IsSettled executor.now }
    requires typed { let here = ⟦<R as Evaluating<S>>⟧.here resolver.now executor.now in
        IsTyped here node.now object.now }
    requires place { let here = ⟦<R as Evaluating<S>>⟧.here resolver.now executor.now in
        IsFieldPlace executor.now.request.now object.now first.now.field.now
        first.now.among.now (literal_of declared) first.now.field.now.span.start keys.now
        (sets_below (all_found here.fragments fields.now)) }
    requires prepared { IfSome prepared (λ known.
        Prepares (asked_in executor.now.request.now) object.now
        (head_of first.now.field.now) known.now) }
    ensures { let here = ⟦<R as Evaluating<S>>⟧.here resolver.now executor.now in
        BeginsOrErrs here (sets_below (all_found here.fragments fields.now)) declared.entry.name.now
        first.now.field.now.span.start (reverse declared.entry.modifiers.now)
        (answer_for here node.now object.now (head_of first.now.field.now)) result }
{
    let name = TextRef::new(declared.name);
    let wraps = declared.modifiers;
    let field: &'p Spanning<Field<'a, S>> = first.field;
    let location = field.span.start;
    let below = Selected::Below(fields);
    let here = executor.at_field(keys, location, declared, first.among, below);
    let answer = ask(
        resolver,
        &here,
        executor.request.schema,
        object,
        node,
        field,
        prepared,
    )?;
    let known: Option<&KnownGroups<'d, 'a, S>> = None;
    let spot = Spot {
        name: &name,
        is_leaf: leaf_told(prepared),
        selected: Selected::Below(fields),
        location,
        known,
    };
    begin(resolver, executor, &spot, wraps, answer)
}

/// What a group comes to; the report goes down to it. An error is want of memory.
pub(crate) fn start<'d, 'a, S: SchemaScalar + Drop, R: GraphQLValue<S>>(
    resolver: &R,
    executor: &Executor<'_, 'd, 'a, R::Context, S>,
    object: &str,
    node: &Asked<'d, S, R::Node>,
    these: &Group<'d, 'a, S>,
    prepared: Option<&Prepared<'d>>,
    report: &mut Report<'d, S>,
) -> Result<Started<'d, 'a, S, Asked<'d, S, R::Node>>, AllocError>
    requires settled { IsSettled executor.now }
    requires typed { let here = ⟦<R as Evaluating<S>>⟧.here resolver.now executor.now in
        IsTyped here node.now object.now }
    requires keyed { HasKey these.now }
    requires prepared { IfSome prepared
        (λ known.
        IsPrepared (asked_in executor.now.request.now) object.now these.now known.now) }
    ensures leads { let here = ⟦<R as Evaluating<S>>⟧.here resolver.now executor.now in
        IfOk result (λ s. TellsFirst
        (group_outcome here report.old.path object.now node.now these.now) report.old
        (show_place s.is_needed (comes_to here s.begun (report.old.path ++ these.now.0 ∷ [])))
        report.new) }
    ensures path { OnOk result (report.new.path ≡ report.old.path ++ these.now.0 ∷ []) }
    ensures turns { let here = ⟦<R as Evaluating<S>>⟧.here resolver.now executor.now in
        IfOk result (λ s. begun_turns here s.begun
        ≡ turns_of_group here.engine (all_turns here.engine) object.now node.now
        (all_found here.fragments these.now.1)) }
    ensures fine { let here = ⟦<R as Evaluating<S>>⟧.here resolver.now executor.now in
        IfOk result (λ s. FineBegun here s.begun) }
{
    report.enter(&these.0)?;
    let Some(first) = these.1.first() else {
        return Ok(Started {
            is_needed: true,
            begun: Begun::Value(None),
        });
    };
    let Some(declared) = declared_at(
        executor.request.schema,
        object,
        first.field.item.name.item.as_str(),
        prepared,
    ) else {
        return Ok(Started {
            is_needed: false,
            begun: Begun::Value(Some(Value::Null)),
        });
    };
    let is_needed = is_required(declared.modifiers);
    let fields = these.1.as_slice();
    let keys = report.path.as_slice();
    let begins = begin_field(
        resolver, executor, object, node, fields, first, declared, prepared, keys,
    );
    let begun = begun_or_told(executor.alloc, first.field.span.start, begins, report)?;
    Ok(Started { is_needed, begun })
}

/// An object in progress that gets the value of the place it waits for. An error is want of memory.
fn give_object<'d, 'a, S: Drop, N: Drop>(
    waits: ObjectFrameIn<'d, 'a, S, N>,
    value: Option<Value<S>>,
    report: &mut Report<'d, S>,
) -> Result<FrameIn<'d, 'a, S, N>, AllocError>
    ensures gives { IfOk result (λ f. (here : Evaluation S N) (path : List Bytes)
        → close here path (frame.Object waits.entry) (shows value) ≡ rest here path f) }
    ensures path { OnOk result ((path : List Bytes)
        → report.old.path ≡ down path (frame.Object waits.entry) → report.new.path ≡ path) }
    ensures errors { OnOk result (report.new.errors ≡ report.old.errors) }
    ensures turns { IfOk result (λ f. (here : Evaluation S N)
        → rest_turns here f ≡ waiting_turns here (frame.Object waits.entry)) }
    ensures fine { (here : Evaluation S N) → Fine here (frame.Object waits.entry)
        → IfOk result (Fine here) }
{
    let ObjectFrame {
        node,
        object,
        groups,
        prepared,
        next,
        is_needed,
        members,
    } = waits;
    let these = groups.get();
    let members = match these.get(next) {
        None => return Ok(Frame::Object(ObjectFrame {
            node,
            object,
            groups,
            prepared,
            next,
            is_needed,
            members,
        })),
        Some(group) => {
            report.leave();
            with_member(members, &group.0, shown(is_needed, value))?
        }
    };
    let next = behind(these, next);
    Ok(Frame::Object(ObjectFrame {
        node,
        object,
        groups,
        prepared,
        next,
        is_needed: false,
        members,
    }))
}

/// A list in progress that gets the value of the item it waits for. An error is want of memory.
fn give_list<'d, 'a, S: Drop, N: Drop>(
    waits: ListFrameIn<'d, 'a, S, N>,
    value: Option<Value<S>>,
) -> Result<FrameIn<'d, 'a, S, N>, AllocError>
    ensures gives { IfOk result (λ f. (here : Evaluation S N) (path : List Bytes)
        → close here path (frame.List waits.entry) (shows value) ≡ rest here path f) }
    ensures turns { IfOk result (λ f. (here : Evaluation S N)
        → rest_turns here f ≡ waiting_turns here (frame.List waits.entry)) }
    ensures fine { (here : Evaluation S N) → Fine here (frame.List waits.entry)
        → IfOk result (Fine here) }
{
    let ListFrame {
        name,
        selected,
        location,
        wraps,
        items,
        values,
        known,
    } = waits;
    let values = with_item(values, shown(is_required(wraps), value))?;
    Ok(Frame::List(ListFrame {
        name,
        selected,
        location,
        wraps,
        items,
        values,
        known,
    }))
}

/// A frame that gets the value of the place it waits for. An error is want of memory.
pub(crate) fn give<'d, 'a, S: Drop, N: Drop>(
    waits: FrameIn<'d, 'a, S, N>,
    value: Option<Value<S>>,
    report: &mut Report<'d, S>,
) -> Result<FrameIn<'d, 'a, S, N>, AllocError>
    ensures gives { IfOk result (λ f. (here : Evaluation S N) (path : List Bytes)
        → close here path waits.entry (shows value) ≡ rest here path f) }
    ensures path { OnOk result
        ((path : List Bytes) → report.old.path ≡ down path waits.entry → report.new.path ≡ path) }
    ensures errors { OnOk result (report.new.errors ≡ report.old.errors) }
    ensures turns { IfOk result (λ f. (here : Evaluation S N)
        → rest_turns here f ≡ waiting_turns here waits.entry) }
    ensures fine { (here : Evaluation S N) → Fine here waits.entry → IfOk result (Fine here) }
{
    match waits {
        Frame::Object(frame) => give_object(frame, value, report),
        Frame::List(frame) => give_list(frame, value),
    }
}
