//! What answers come to where they are completed (GraphQL October 2021, 6.4.3 Value Completion).

ghost use Rattle.std.specs.Prelude.{◌≡◌, IfOk, IfSome, [], List, Ok, reverse};
ghost use Rattle.std.specs.Option.{option_copied};
ghost use Rattle.graphql_field_results.specs.declared.resolved.Resolved.TheVariants as resolved;
ghost use Rattle.graphql_execution_walk.specs.FieldDeclarations.{is_leaf_named};
ghost use Rattle.graphql_execution_walk.specs.Parts.{IsListAround};
ghost use Rattle.graphql_execution_walk.specs.Prepared.{ArePrepared, asked_in};
ghost use Rattle.graphql_execution_walk.specs.Spots.{BeginsAt, IsCollected, IsSpot, MayStand};
ghost use Rattle.graphql_execution_walk.specs.Spots.{known_in_list};
ghost use Rattle.graphql_execution_walk.specs.Standing.{IsSettled};

use crate::asked::{Asked, asked_type_name};
use crate::evaluating::Evaluating;
use crate::executor::Executor;
use crate::failing::{misfit, own_null};
use crate::fields::{is_leaf, possible_name};
use crate::frame_parts::{known_again, reversed};
use crate::frames::{Begun, Frame, Known, KnownGroups, KnownIn, ListFrame, ObjectFrame};
use crate::graphql_value::GraphQLValue;
use crate::groups::groups_collected;
use crate::parts::{Outer, is_null, take_apart};
use crate::prepared::{SharedPrepared, prepared_fields};
use crate::selected::KeptSelected;
use crate::shared::Shared;
use graphql_collect::Group;
use graphql_field_results::{FieldFault, FieldResult, Resolved};
use graphql_look_ahead::Selected;
use graphql_names::{NameMap, TypeModifier};
use graphql_output_values::Value;
use graphql_schema::{SchemaScalar, SchemaType};
use graphql_text::{Items, SourcePosition, TextRef};
use std::alloc::AllocError;

/// Where an answer is completed: at a type, but for its wraps.
#[derive(Drop)]
pub(crate) struct Spot<'p, 'd, 'a, S> {
    /// The type's name.
    pub name: &'p TextRef<'d>,

    /// Whether that is a scalar or an enum, where it is known.
    pub is_leaf: Option<bool>,

    /// What is selected from its objects.
    pub selected: Selected<'p, 'd, 'a, S>,

    /// Where the field starts that is answered.
    pub location: SourcePosition,

    /// What the list knows of what is selected, in which this is the place of an item; else
    /// nothing.
    pub known: Option<&'p KnownGroups<'d, 'a, S>>,
}

/// What the list knows of an object type, in which the place of an answer is that of an item.
fn known_by<'p, 'd, 'a, S>(
    spot: &Spot<'p, 'd, 'a, S>,
    object: &str,
) -> Option<&'p KnownIn<'d, 'a, S>>
    ensures { option_copied result ≡ known_in_list spot.now.known object.now }
{
    match spot.known {
        Some(known) => known.get(object),
        None => None,
    }
}

/// What is known of the first fields of an object type's groups where an answer is completed: of a
/// list's items, since others of the type may come; else nothing. An error is want of memory.
fn prepared_there<'d, 'a, S: SchemaScalar + Drop, Context>(
    executor: &Executor<'_, 'd, 'a, Context, S>,
    spot: &Spot<'_, 'd, 'a, S>,
    object: &str,
    groups: &[Group<'d, 'a, S>],
) -> Result<Option<SharedPrepared<'d>>, AllocError>
    ensures { IfOk result (λ prepared.
        IfSome prepared (ArePrepared (asked_in executor.now.request.now) object.now groups.now)) }
{
    if spot.known.is_none() {
        return Ok(None);
    }
    let all = prepared_fields(executor.alloc, executor.request, object, groups)?;
    Ok(Some(Shared::new(executor.alloc, all)?))
}

/// What is selected from an object type where an answer is completed, collected. An error is want
/// of memory.
fn collected_there<'d, 'a, S: SchemaScalar + Drop, Context>(
    executor: &Executor<'_, 'd, 'a, Context, S>,
    spot: &Spot<'_, 'd, 'a, S>,
    object: &'d str,
) -> Result<KnownIn<'d, 'a, S>, AllocError>
    requires settled { IsSettled executor.now }
    ensures { IfOk result
        (IsCollected S.answer executor.now.request.now spot.now object.now) }
{
    let groups = groups_collected(executor.alloc, executor.request, object, spot.selected)?;
    let prepared = prepared_there(executor, spot, object, groups.as_slice())?;
    Ok(Known {
        object: TextRef::new(object),
        groups: Shared::new(executor.alloc, groups)?,
        prepared,
    })
}

/// What is selected from a node: what the list knows of its type, else it is collected. Nothing
/// where the node cannot stand. An error is want of memory.
fn selected_there<'d, 'a, S: SchemaScalar + Drop, R: GraphQLValue<S>>(
    resolver: &R,
    executor: &Executor<'_, 'd, 'a, R::Context, S>,
    spot: &Spot<'_, 'd, 'a, S>,
    node: &Asked<'d, S, R::Node>,
) -> Result<Option<KnownIn<'d, 'a, S>>, AllocError>
    requires settled { IsSettled executor.now }
    requires spot { let here = ⟦<R as Evaluating<S>>⟧.here resolver.now executor.now in
        IsSpot here executor.now.request.now spot.now }
    ensures { let here = ⟦<R as Evaluating<S>>⟧.here resolver.now executor.now in
        IfOk result (MayStand here spot.now (here.engine.concrete node.now)) }
{
    let object = asked_type_name(resolver, executor.context, node);
    if let Some(known) = known_by(spot, object) {
        return Ok(Some(known_again(known)?));
    }
    match possible_name(executor.request.schema, spot.name.as_str(), object) {
        Some(object) => Ok(Some(collected_there(executor, spot, object)?)),
        None => Ok(None),
    }
}

/// What a node comes to at a type without wraps.
fn begin_node<'d, 'a, S: SchemaScalar + Drop, R: GraphQLValue<S>>(
    resolver: &R,
    executor: &Executor<'_, 'd, 'a, R::Context, S>,
    spot: &Spot<'_, 'd, 'a, S>,
    node: Asked<'d, S, R::Node>,
) -> FieldResult<Begun<'d, 'a, S, Asked<'d, S, R::Node>>, S>
    requires settled { IsSettled executor.now }
    requires spot { let here = ⟦<R as Evaluating<S>>⟧.here resolver.now executor.now in
        IsSpot here executor.now.request.now spot.now }
    ensures { let here = ⟦<R as Evaluating<S>>⟧.here resolver.now executor.now in
        BeginsAt here spot.now [] (Ok (resolved.Node node.entry)) result }
{
    let Some(known) = selected_there(resolver, executor, spot, &node)? else {
        drop(node);
        return Err(FieldFault::Error(misfit(executor.alloc, spot.name.as_str(), &[])?));
    };
    let members = Some(Items::new(executor.alloc));
    Ok(Begun::Frame(Frame::Object(ObjectFrame {
        node,
        object: known.object,
        groups: known.groups,
        prepared: known.prepared,
        next: 0,
        is_needed: false,
        members,
    })))
}

/// Whether the type at which an answer is completed is a scalar or an enum.
fn is_leaf_there<S, C>(schema: &SchemaType<S, C>, spot: &Spot<'_, '_, '_, S>) -> bool
    requires { IfSome spot.now.is_leaf
        (λ told. told ≡ is_leaf_named schema.now.types spot.now.name.now) }
    ensures { result ≡ is_leaf_named schema.now.types spot.now.name.now }
{
    match spot.is_leaf {
        Some(told) => told,
        None => is_leaf(schema, spot.name.as_str()),
    }
}

/// What an answer comes to at a type without wraps.
fn begin_named<'d, 'a, S: SchemaScalar + Drop, R: GraphQLValue<S>>(
    resolver: &R,
    executor: &Executor<'_, 'd, 'a, R::Context, S>,
    spot: &Spot<'_, 'd, 'a, S>,
    answer: Resolved<S, Asked<'d, S, R::Node>>,
) -> FieldResult<Begun<'d, 'a, S, Asked<'d, S, R::Node>>, S>
    requires settled { IsSettled executor.now }
    requires spot { let here = ⟦<R as Evaluating<S>>⟧.here resolver.now executor.now in
        IsSpot here executor.now.request.now spot.now }
    ensures { let here = ⟦<R as Evaluating<S>>⟧.here resolver.now executor.now in
        BeginsAt here spot.now [] (Ok answer.entry) result }
{
    let name = spot.name.as_str();
    match answer {
        Resolved::Null => Ok(Begun::Value(None)),
        Resolved::Scalar(scalar) => {
            if is_leaf_there(executor.request.schema, spot) {
                return Ok(Begun::Value(Some(Value::Scalar(scalar))));
            }
            Err(FieldFault::Error(misfit(executor.alloc, name, &[])?))
        }
        Resolved::List(_items) => Err(FieldFault::Error(misfit(executor.alloc, name, &[])?)),
        Resolved::Node(node) => begin_node(resolver, executor, spot, node),
    }
}

/// What an answer comes to at a list type, by all its wraps and by those within the list, which
/// have the innermost first.
fn begin_list<'d, 'a, S: SchemaScalar + Drop, R: GraphQLValue<S>>(
    resolver: &R,
    executor: &Executor<'_, 'd, 'a, R::Context, S>,
    spot: &Spot<'_, 'd, 'a, S>,
    whole: &[TypeModifier],
    wraps: &'d [TypeModifier],
    answer: Resolved<S, Asked<'d, S, R::Node>>,
) -> FieldResult<Begun<'d, 'a, S, Asked<'d, S, R::Node>>, S>
    requires { IsListAround whole.now wraps.now }
    ensures { let here = ⟦<R as Evaluating<S>>⟧.here resolver.now executor.now in
        BeginsAt here spot.now (reverse whole.now) (Ok answer.entry) result }
{
    let name = spot.name.as_str();
    match answer {
        Resolved::Null => Ok(Begun::Value(None)),
        Resolved::Scalar(_scalar) => Err(FieldFault::Error(misfit(executor.alloc, name, whole)?)),
        Resolved::Node(_node) => Err(FieldFault::Error(misfit(executor.alloc, name, whole)?)),
        Resolved::List(items) => {
            let items = reversed(executor.alloc, items)?;
            let selected = KeptSelected::new(executor.alloc, spot.selected)?;
            let values = Some(Items::new(executor.alloc));
            Ok(Begun::Frame(Frame::List(ListFrame {
                name: spot.name.copied(),
                selected,
                location: spot.location,
                wraps,
                items,
                values,
                known: NameMap::new(executor.alloc),
            })))
        }
    }
}

/// What an answer comes to at a type, by its wraps, which have the innermost first: its value, or
/// what is in progress there. An error is that of the place itself, whatever would fail below it,
/// or want of memory.
pub(crate) fn begin<'d, 'a, S: SchemaScalar + Drop, R: GraphQLValue<S>>(
    resolver: &R,
    executor: &Executor<'_, 'd, 'a, R::Context, S>,
    spot: &Spot<'_, 'd, 'a, S>,
    wraps: &'d [TypeModifier],
    answer: Resolved<S, Asked<'d, S, R::Node>>,
) -> FieldResult<Begun<'d, 'a, S, Asked<'d, S, R::Node>>, S>
    requires settled { IsSettled executor.now }
    requires spot { let here = ⟦<R as Evaluating<S>>⟧.here resolver.now executor.now in
        IsSpot here executor.now.request.now spot.now }
    ensures { let here = ⟦<R as Evaluating<S>>⟧.here resolver.now executor.now in
        BeginsAt here spot.now (reverse wraps.now) (Ok answer.entry) result }
{
    match take_apart(wraps) {
        Outer::Named => begin_named(resolver, executor, spot, answer),
        Outer::NonNull(rest) => {
            if is_null(&answer) {
                drop(answer);
                return Err(FieldFault::Error(own_null(executor.alloc)?));
            }
            begin(resolver, executor, spot, rest, answer)
        }
        Outer::List(rest) => begin_list(resolver, executor, spot, wraps, rest, answer),
    }
}
