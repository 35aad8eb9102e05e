//! What a walk tells of values and arguments.

ghost use Rattle.std.specs.Prelude.{◌≡◌, OnOk};
ghost use Rattle.std.specs.Option.{option_map};
ghost use Rattle.graphql_schema.specs.Declarations.{declarations_of};
ghost use Rattle.graphql_occurrences.specs.Events.{
  argument_events,
  arguments_events,
  content_events,
  through_each,
  item_events,
  pair_events,
  value_events,
};
ghost use Rattle.graphql_occurrences.specs.Lent.{arguments_lent, around_of, owner_of};
ghost use Rattle.graphql_document_walk.specs.Pending.{PutsFirst, OpensEvents, OpensAny};

use super::tasks::{Part, Side, Task, add, tell};
use graphql_occurrences::{
    Around, DeclaredArguments, Node, Owner, place_of_argument, place_of_field, place_of_items,
};
use graphql_schema::SchemaType;
use graphql_text::{Items, Spanning, Text, TextRef};
use graphql_values::InputValue;
use std::alloc::AllocError;

/// What is within a value is ahead.
#[tactic(auto, using(graphql_occurrences::proofs::ValueEvents::content_laws))]
fn add_content<'a, 't, S, C>(
    schema: &'a SchemaType<S, C>,
    tasks: &mut Items<Task<'a, 't, S, C>>,
    around: Around<'a, S, C>,
    value: &'a InputValue<S>,
) -> Result<(), AllocError>
    ensures { OnOk result (PutsFirst (declarations_of schema.now) (content_events
        (declarations_of schema.now) value.now (around_of around.entry)) tasks.old tasks.new) }
{
    match value {
        InputValue::List(items) => add(schema, tasks, around, Part::Items(items.as_slice())),
        InputValue::Object(pairs) => add(schema, tasks, around, Part::Pairs(pairs.as_slice())),
        InputValue::Null => Ok(()),
        InputValue::Scalar(_) => Ok(()),
        InputValue::Enum(_) => Ok(()),
        InputValue::Variable(_) => Ok(()),
    }
}

/// A value is entered.
pub(crate) fn open_value<'a, 't, S, C>(
    schema: &'a SchemaType<S, C>,
    tasks: &mut Items<Task<'a, 't, S, C>>,
    around: Around<'a, S, C>,
    value: &'a Spanning<InputValue<S>>,
) -> Result<(), AllocError>
    ensures { OnOk result (OpensEvents (declarations_of schema.now) (value_events
        (declarations_of schema.now) value.now (around_of around.entry)) tasks.old tasks.new) }
{
    tell(schema, tasks, around, Side::Leave, Node::Value(value))?;
    add_content(schema, tasks, around, &value.item)?;
    tell(schema, tasks, around, Side::Enter, Node::Value(value))
}

/// The next item of a list is entered, if there is one.
pub(crate) fn open_items<'a, 't, S, C>(
    schema: &'a SchemaType<S, C>,
    tasks: &mut Items<Task<'a, 't, S, C>>,
    around: Around<'a, S, C>,
    items: &'a [Spanning<InputValue<S>>],
) -> Result<(), AllocError>
    ensures { OnOk result (OpensAny (declarations_of schema.now) (through_each (item_events
        (declarations_of schema.now)) items.now (around_of around.entry)) tasks.old tasks.new) }
{
    match items.split_first() {
        None => Ok(()),
        Some((first, rest)) => {
            add(schema, tasks, around, Part::Items(rest))?;
            open_value(
                schema,
                tasks,
                around.asking(place_of_items(around.input)),
                first,
            )
        }
    }
}

/// A field of an object is entered.
fn open_pair<'a, 't, S, C>(
    schema: &'a SchemaType<S, C>,
    tasks: &mut Items<Task<'a, 't, S, C>>,
    around: Around<'a, S, C>,
    pair: &'a (Spanning<Text>, Spanning<InputValue<S>>),
) -> Result<(), AllocError>
    ensures { OnOk result (OpensEvents (declarations_of schema.now) (pair_events
        (declarations_of schema.now) pair.now (around_of around.entry)) tasks.old tasks.new) }
{
    let inside = around.asking(place_of_field(schema, around.input, pair.0.item.as_str()));
    tell(
        schema,
        tasks,
        inside,
        Side::Leave,
        Node::ObjectField(&pair.0),
    )?;
    add(schema, tasks, inside, Part::Value(&pair.1))?;
    tell(
        schema,
        tasks,
        inside,
        Side::Enter,
        Node::ObjectField(&pair.0),
    )
}

/// The next field of an object is entered, if there is one.
pub(crate) fn open_pairs<'a, 't, S, C>(
    schema: &'a SchemaType<S, C>,
    tasks: &mut Items<Task<'a, 't, S, C>>,
    around: Around<'a, S, C>,
    pairs: &'a [(Spanning<Text>, Spanning<InputValue<S>>)],
) -> Result<(), AllocError>
    ensures { OnOk result (OpensAny (declarations_of schema.now) (through_each (pair_events
        (declarations_of schema.now)) pairs.now (around_of around.entry)) tasks.old tasks.new) }
{
    match pairs.split_first() {
        None => Ok(()),
        Some((first, rest)) => {
            add(schema, tasks, around, Part::Pairs(rest))?;
            open_pair(schema, tasks, around, first)
        }
    }
}

/// An argument is entered.
fn open_argument<'a, 't, S, C>(
    schema: &'a SchemaType<S, C>,
    tasks: &mut Items<Task<'a, 't, S, C>>,
    around: Around<'a, S, C>,
    owner: Owner<'a>,
    declared: Option<DeclaredArguments<'a, S>>,
    argument: &'a (Spanning<TextRef<'t>>, Spanning<InputValue<S>>),
) -> Result<(), AllocError>
    ensures { OnOk result (OpensEvents (declarations_of schema.now)
        (argument_events (declarations_of schema.now) (owner_of owner.entry) (option_map
        arguments_lent declared.entry) argument.now (around_of around.entry)) tasks.old tasks.new) }
{
    let inside = around.asking(place_of_argument(declared, argument.0.item.as_str()));
    tell(
        schema,
        tasks,
        inside,
        Side::Leave,
        Node::Argument(owner, declared, argument),
    )?;
    add(schema, tasks, inside, Part::Value(&argument.1))?;
    tell(
        schema,
        tasks,
        inside,
        Side::Enter,
        Node::Argument(owner, declared, argument),
    )
}

/// The next argument is entered, if there is one.
pub(crate) fn open_arguments<'a, 't, S, C>(
    schema: &'a SchemaType<S, C>,
    tasks: &mut Items<Task<'a, 't, S, C>>,
    around: Around<'a, S, C>,
    owner: Owner<'a>,
    declared: Option<DeclaredArguments<'a, S>>,
    arguments: &'a [(Spanning<TextRef<'t>>, Spanning<InputValue<S>>)],
) -> Result<(), AllocError>
    ensures { OnOk result (OpensAny (declarations_of schema.now) (arguments_events (declarations_of
        schema.now) (owner_of owner.entry) (option_map arguments_lent declared.entry) arguments.now
        (around_of around.entry)) tasks.old tasks.new) }
{
    match arguments.split_first() {
        None => Ok(()),
        Some((first, rest)) => {
            add(
                schema,
                tasks,
                around,
                Part::Arguments(owner, declared, rest),
            )?;
            open_argument(schema, tasks, around, owner, declared, first)
        }
    }
}
