//! What a walk tells of selections and directives.

ghost use Rattle.std.specs.Prelude.{◌≡◌, [], OnOk};
ghost use Rattle.std.specs.Option.{unwrap_or};
ghost use Rattle.graphql_schema.specs.Declarations.{declarations_of};
ghost use Rattle.graphql_occurrences.specs.Events.{directive_events, directives_events};
ghost use Rattle.graphql_occurrences.specs.Events.{through_each};
ghost use Rattle.graphql_occurrences.specs.Events.{field_events, inline_events, optional_set};
ghost use Rattle.graphql_occurrences.specs.Events.{selection_events, set_events, spread_events};
ghost use Rattle.graphql_occurrences.specs.Lent.{around_of};
ghost use Rattle.graphql_document_walk.specs.Pending.{PutsFirst, OpensEvents, OpensAny};

use super::tasks::{Part, Side, Task, add, tell};
use graphql_occurrences::{
    Around, Node, Owner, arguments_of_field, declared_by_directive, field_of, type_of_field,
};
use graphql_schema::{DirectiveLocation, SchemaType};
use graphql_text::{Items, Spanning};
use graphql_tree::{Directive, Field, FragmentSpread, InlineFragment, Selection, arguments_in};
use std::alloc::AllocError;

/// The directives, if there are any.
pub(crate) fn directives_in<'b, 't, S>(
    directives: &'b Option<Items<Spanning<Directive<'t, S>>>>,
) -> &'b [Spanning<Directive<'t, S>>]
    ensures { result.now ≡ unwrap_or directives.now [] }
{
    match directives {
        Some(directives) => directives.as_slice(),
        None => &[],
    }
}

/// A directive is entered.
fn open_directive<'a, 't, S, C>(
    schema: &'a SchemaType<S, C>,
    tasks: &mut Items<Task<'a, 't, S, C>>,
    around: Around<'a, S, C>,
    place: DirectiveLocation,
    directive: &'a Spanning<Directive<'t, S>>,
) -> Result<(), AllocError>
    ensures { OnOk result
        (OpensEvents (declarations_of schema.now) (directive_events (declarations_of
        schema.now) place directive.now (around_of around.entry)) tasks.old tasks.new) }
{
    let name = directive.item.name.item.as_str();
    let declared = schema.directive_by_name(name);
    tell(
        schema,
        tasks,
        around,
        Side::Leave,
        Node::Directive(place, declared, directive),
    )?;
    add(
        schema,
        tasks,
        around,
        Part::Arguments(
            Owner::Directive(name),
            declared_by_directive(declared),
            arguments_in(&directive.item.arguments),
        ),
    )?;
    tell(
        schema,
        tasks,
        around,
        Side::Enter,
        Node::Directive(place, declared, directive),
    )
}

/// The next directive is entered, if there is one.
pub(crate) fn open_directives<'a, 't, S, C>(
    schema: &'a SchemaType<S, C>,
    tasks: &mut Items<Task<'a, 't, S, C>>,
    around: Around<'a, S, C>,
    place: DirectiveLocation,
    directives: &'a [Spanning<Directive<'t, S>>],
) -> Result<(), AllocError>
    ensures { OnOk result (OpensAny (declarations_of schema.now) (directives_events (declarations_of
        schema.now) place directives.now (around_of around.entry)) tasks.old tasks.new) }
{
    match directives.split_first() {
        None => Ok(()),
        Some((first, rest)) => {
            add(schema, tasks, around, Part::Directives(place, rest))?;
            open_directive(schema, tasks, around, place, first)
        }
    }
}

/// A selection set is entered, if its type is known.
pub(crate) fn open_set<'a, 't, S, C>(
    schema: &'a SchemaType<S, C>,
    tasks: &mut Items<Task<'a, 't, S, C>>,
    around: Around<'a, S, C>,
    selections: &'a [Selection<'t, S>],
) -> Result<(), AllocError>
    ensures { OnOk result (OpensAny (declarations_of schema.now) (set_events
        (declarations_of schema.now) selections.now (around_of around.entry)) tasks.old tasks.new) }
{
    let inside = around.inside_set(schema);
    match inside.parent {
        None => Ok(()),
        Some(_) => {
            tell(
                schema,
                tasks,
                inside,
                Side::Leave,
                Node::SelectionSet(selections),
            )?;
            add(schema, tasks, inside, Part::Selections(selections))?;
            tell(
                schema,
                tasks,
                inside,
                Side::Enter,
                Node::SelectionSet(selections),
            )
        }
    }
}

/// The set of a field, if there is one, is ahead.
fn add_optional_set<'a, 't, S, C>(
    schema: &'a SchemaType<S, C>,
    tasks: &mut Items<Task<'a, 't, S, C>>,
    around: Around<'a, S, C>,
    set: &'a Option<Items<Selection<'t, S>>>,
) -> Result<(), AllocError>
    ensures { OnOk result (PutsFirst (declarations_of schema.now) (optional_set
        (declarations_of schema.now) set.now (around_of around.entry)) tasks.old tasks.new) }
{
    match set {
        Some(selections) => add(schema, tasks, around, Part::Set(selections.as_slice())),
        None => Ok(()),
    }
}

/// A field is entered.
fn open_field<'a, 't, S, C>(
    schema: &'a SchemaType<S, C>,
    tasks: &mut Items<Task<'a, 't, S, C>>,
    outer: Around<'a, S, C>,
    field: &'a Spanning<Field<'t, S>>,
) -> Result<(), AllocError>
    ensures { OnOk result (OpensEvents (declarations_of schema.now) (field_events
        (declarations_of schema.now) field.now (around_of outer.entry)) tasks.old tasks.new) }
{
    let name = field.item.name.item.as_str();
    let definition = field_of(outer.parent, name);
    let inside = outer.selecting(type_of_field(definition));
    tell(
        schema,
        tasks,
        inside,
        Side::Leave,
        Node::Field(definition, field),
    )?;
    add_optional_set(schema, tasks, inside, &field.item.selection_set)?;
    add(
        schema,
        tasks,
        inside,
        Part::Directives(
            DirectiveLocation::Field,
            directives_in(&field.item.directives),
        ),
    )?;
    add(
        schema,
        tasks,
        inside,
        Part::Arguments(
            Owner::Field(name),
            arguments_of_field(definition),
            arguments_in(&field.item.arguments),
        ),
    )?;
    tell(
        schema,
        tasks,
        inside,
        Side::Enter,
        Node::Field(definition, field),
    )
}

/// A spread of a fragment is entered.
fn open_spread<'a, 't, S, C>(
    schema: &'a SchemaType<S, C>,
    tasks: &mut Items<Task<'a, 't, S, C>>,
    around: Around<'a, S, C>,
    spread: &'a Spanning<FragmentSpread<'t, S>>,
) -> Result<(), AllocError>
    ensures { OnOk result (OpensEvents (declarations_of schema.now) (spread_events
        (declarations_of schema.now) spread.now (around_of around.entry)) tasks.old tasks.new) }
{
    tell(
        schema,
        tasks,
        around,
        Side::Leave,
        Node::FragmentSpread(spread),
    )?;
    add(
        schema,
        tasks,
        around,
        Part::Directives(
            DirectiveLocation::FragmentSpread,
            directives_in(&spread.item.directives),
        ),
    )?;
    tell(
        schema,
        tasks,
        around,
        Side::Enter,
        Node::FragmentSpread(spread),
    )
}

/// An inline fragment is entered.
fn open_inline<'a, 't, S, C>(
    schema: &'a SchemaType<S, C>,
    tasks: &mut Items<Task<'a, 't, S, C>>,
    outer: Around<'a, S, C>,
    inline: &'a Spanning<InlineFragment<'t, S>>,
) -> Result<(), AllocError>
    ensures { OnOk result (OpensEvents (declarations_of schema.now) (inline_events
        (declarations_of schema.now) inline.now (around_of outer.entry)) tasks.old tasks.new) }
{
    let inside = outer.inside_condition(&inline.item.type_condition);
    tell(
        schema,
        tasks,
        inside,
        Side::Leave,
        Node::InlineFragment(inline),
    )?;
    add(
        schema,
        tasks,
        inside,
        Part::Set(inline.item.selection_set.as_slice()),
    )?;
    add(
        schema,
        tasks,
        inside,
        Part::Directives(
            DirectiveLocation::InlineFragment,
            directives_in(&inline.item.directives),
        ),
    )?;
    tell(
        schema,
        tasks,
        inside,
        Side::Enter,
        Node::InlineFragment(inline),
    )
}

/// A selection is entered.
fn open_selection<'a, 't, S, C>(
    schema: &'a SchemaType<S, C>,
    tasks: &mut Items<Task<'a, 't, S, C>>,
    around: Around<'a, S, C>,
    selection: &'a Selection<'t, S>,
) -> Result<(), AllocError>
    ensures { OnOk result (OpensEvents (declarations_of schema.now) (selection_events
        (declarations_of schema.now) selection.now (around_of around.entry)) tasks.old tasks.new) }
{
    match selection {
        Selection::Field(field) => open_field(schema, tasks, around, field),
        Selection::FragmentSpread(spread) => open_spread(schema, tasks, around, spread),
        Selection::InlineFragment(inline) => open_inline(schema, tasks, around, inline),
    }
}

/// The next selection is entered, if there is one.
pub(crate) fn open_selections<'a, 't, S, C>(
    schema: &'a SchemaType<S, C>,
    tasks: &mut Items<Task<'a, 't, S, C>>,
    around: Around<'a, S, C>,
    selections: &'a [Selection<'t, S>],
) -> Result<(), AllocError>
    ensures { OnOk result
        (OpensAny (declarations_of schema.now)
        (through_each (selection_events (declarations_of schema.now))
        selections.now (around_of around.entry)) tasks.old tasks.new) }
{
    match selections.split_first() {
        None => Ok(()),
        Some((first, rest)) => {
            add(schema, tasks, around, Part::Selections(rest))?;
            open_selection(schema, tasks, around, first)
        }
    }
}
