//! What a walk tells of a document and its definitions.

ghost use Rattle.std.specs.Prelude.{◌≡◌, OnOk};
ghost use Rattle.std.specs.List.{flat_map};
ghost use Rattle.std.specs.Option.{option_copied, option_map};
ghost use Rattle.graphql_schema.specs.Declarations.{declarations_of};
ghost use Rattle.graphql_schema.specs.Lookups.{own_name};
ghost use Rattle.graphql_occurrences.specs.Lookups.{location_of};
ghost use Rattle.graphql_tree.specs.Documents.{variables_in as variables_given};
ghost use Rattle.graphql_occurrences.specs.Events.{
  default_events,
  definition_events,
  through_each,
  events,
  fragment_events,
  operation_events,
  variable_events,
};
ghost use Rattle.graphql_occurrences.specs.Lent.{around_of};
ghost use Rattle.graphql_document_walk.specs.Pending.{PutsFirst, OpensEvents, OpensAny};

use super::selections::directives_in;
use super::tasks::{Part, Side, Task, add, tell};
use graphql_occurrences::{Around, InputPlace, Node, TypeLiteral, root_of};
use graphql_schema::{DirectiveLocation, MetaType, SchemaType};
use graphql_text::{Items, Spanning, TextRef};
use graphql_tree::{
    Definition, Fragment, Operation, OperationType, VariableDefinition, VariableDefinitions,
};
use graphql_values::InputValue;
use std::alloc::AllocError;

/// The name of a type; a type without one has the empty name.
fn name_of_type<'a, S, C>(meta: &'a MetaType<S, C>) -> &'a str
    ensures { result.now ≡ own_name meta.now }
{
    match meta.name() {
        Some(name) => name,
        None => "",
    }
}

/// The name of a root.
fn name_of_root<'a, S, C>(meta: Option<&'a MetaType<S, C>>) -> Option<&'a str>
    ensures { option_map (λ n. n.now) result ≡ option_map own_name (option_copied meta.entry) }
{
    match meta {
        Some(meta) => Some(name_of_type(meta)),
        None => None,
    }
}

/// The directives of an operation stand here.
fn place_of(operation_type: OperationType) -> DirectiveLocation
    ensures { result ≡ location_of operation_type }
{
    match operation_type {
        OperationType::Query => DirectiveLocation::Query,
        OperationType::Mutation => DirectiveLocation::Mutation,
        OperationType::Subscription => DirectiveLocation::Subscription,
    }
}

/// The variables, if there are any.
pub(crate) fn variables_in<'b, 't, S>(
    variables: &'b Option<Spanning<VariableDefinitions<'t, S>>>,
) -> &'b [(Spanning<TextRef<'t>>, VariableDefinition<'t, S>)]
    ensures { result.now ≡ variables_given variables.now }
{
    match variables {
        Some(variables) => variables.item.items.as_slice(),
        None => &[],
    }
}

/// A default, if there is one, is ahead.
fn add_default<'a, 't, S, C>(
    schema: &'a SchemaType<S, C>,
    tasks: &mut Items<Task<'a, 't, S, C>>,
    around: Around<'a, S, C>,
    value: &'a Option<Spanning<InputValue<S>>>,
) -> Result<(), AllocError>
    ensures { OnOk result (PutsFirst (declarations_of schema.now) (default_events
        (declarations_of schema.now) value.now (around_of around.entry)) tasks.old tasks.new) }
{
    match value {
        Some(value) => add(schema, tasks, around, Part::Value(value)),
        None => Ok(()),
    }
}

/// The definition of a variable is entered.
fn open_variable<'a, 't, S, C>(
    schema: &'a SchemaType<S, C>,
    tasks: &mut Items<Task<'a, 't, S, C>>,
    around: Around<'a, S, C>,
    variable: &'a (Spanning<TextRef<'t>>, VariableDefinition<'t, S>),
) -> Result<(), AllocError>
    ensures { OnOk result (OpensEvents (declarations_of schema.now) (variable_events
        (declarations_of schema.now) variable.now (around_of around.entry)) tasks.old tasks.new) }
{
    let place = InputPlace::bare(TypeLiteral::of_document(&variable.1.var_type.item));
    let inside = around.asking(Some(place));
    tell(
        schema,
        tasks,
        inside,
        Side::Leave,
        Node::VariableDefinition(variable),
    )?;
    add(
        schema,
        tasks,
        inside,
        Part::Directives(
            DirectiveLocation::VariableDefinition,
            directives_in(&variable.1.directives),
        ),
    )?;
    add_default(schema, tasks, inside, &variable.1.default_value)?;
    tell(
        schema,
        tasks,
        inside,
        Side::Enter,
        Node::VariableDefinition(variable),
    )
}

/// The next definition of a variable is entered, if there is one.
pub(crate) fn open_variables<'a, 't, S, C>(
    schema: &'a SchemaType<S, C>,
    tasks: &mut Items<Task<'a, 't, S, C>>,
    around: Around<'a, S, C>,
    variables: &'a [(Spanning<TextRef<'t>>, VariableDefinition<'t, S>)],
) -> Result<(), AllocError>
    ensures { OnOk result (OpensAny (declarations_of schema.now) (through_each (variable_events
        (declarations_of schema.now)) variables.now (around_of around.entry)) tasks.old tasks.new) }
{
    match variables.split_first() {
        None => Ok(()),
        Some((first, rest)) => {
            add(schema, tasks, around, Part::Variables(rest))?;
            open_variable(schema, tasks, around, first)
        }
    }
}

/// An operation is entered.
fn open_operation<'a, 't, S, C>(
    schema: &'a SchemaType<S, C>,
    tasks: &mut Items<Task<'a, 't, S, C>>,
    operation: &'a Spanning<Operation<'t, S>>,
) -> Result<(), AllocError>
    ensures { OnOk result (OpensEvents (declarations_of schema.now)
        (operation_events (declarations_of schema.now) operation.now) tasks.old tasks.new) }
{
    let inside = Around::top(name_of_root(root_of(schema, operation.item.operation_type)));
    tell(
        schema,
        tasks,
        inside,
        Side::Leave,
        Node::Operation(operation),
    )?;
    add(
        schema,
        tasks,
        inside,
        Part::Set(operation.item.selection_set.as_slice()),
    )?;
    add(
        schema,
        tasks,
        inside,
        Part::Directives(
            place_of(operation.item.operation_type),
            directives_in(&operation.item.directives),
        ),
    )?;
    add(
        schema,
        tasks,
        inside,
        Part::Variables(variables_in(&operation.item.variable_definitions)),
    )?;
    tell(
        schema,
        tasks,
        inside,
        Side::Enter,
        Node::Operation(operation),
    )
}

/// A fragment is entered.
fn open_fragment<'a, 't, S, C>(
    schema: &'a SchemaType<S, C>,
    tasks: &mut Items<Task<'a, 't, S, C>>,
    fragment: &'a Spanning<Fragment<'t, S>>,
) -> Result<(), AllocError>
    ensures { OnOk result (OpensEvents (declarations_of schema.now)
        (fragment_events (declarations_of schema.now) fragment.now) tasks.old tasks.new) }
{
    let inside = Around::top(Some(fragment.item.type_condition.item.as_str()));
    tell(schema, tasks, inside, Side::Leave, Node::Fragment(fragment))?;
    add(
        schema,
        tasks,
        inside,
        Part::Set(fragment.item.selection_set.as_slice()),
    )?;
    add(
        schema,
        tasks,
        inside,
        Part::Directives(
            DirectiveLocation::FragmentDefinition,
            directives_in(&fragment.item.directives),
        ),
    )?;
    tell(schema, tasks, inside, Side::Enter, Node::Fragment(fragment))
}

/// A definition is entered.
fn open_definition<'a, 't, S, C>(
    schema: &'a SchemaType<S, C>,
    tasks: &mut Items<Task<'a, 't, S, C>>,
    definition: &'a Definition<'t, S>,
) -> Result<(), AllocError>
    ensures { OnOk result (OpensEvents (declarations_of schema.now)
        (definition_events (declarations_of schema.now) definition.now) tasks.old tasks.new) }
{
    match definition {
        Definition::Operation(operation) => open_operation(schema, tasks, operation),
        Definition::Fragment(fragment) => open_fragment(schema, tasks, fragment),
    }
}

/// The next definition is entered, if there is one.
pub(crate) fn open_definitions<'a, 't, S, C>(
    schema: &'a SchemaType<S, C>,
    tasks: &mut Items<Task<'a, 't, S, C>>,
    definitions: &'a [Definition<'t, S>],
) -> Result<(), AllocError>
    ensures { OnOk result (OpensAny (declarations_of schema.now) (flat_map
        (definition_events (declarations_of schema.now)) definitions.now) tasks.old tasks.new) }
{
    match definitions.split_first() {
        None => Ok(()),
        Some((first, rest)) => {
            add(schema, tasks, Around::nowhere(), Part::Definitions(rest))?;
            open_definition(schema, tasks, first)
        }
    }
}

/// A document is entered.
pub(crate) fn open_document<'a, 't, S, C>(
    schema: &'a SchemaType<S, C>,
    tasks: &mut Items<Task<'a, 't, S, C>>,
    document: &'a [Definition<'t, S>],
) -> Result<(), AllocError>
    ensures { OnOk result (OpensEvents (declarations_of schema.now)
        (events (declarations_of schema.now) document.now) tasks.old tasks.new) }
{
    let outside = Around::nowhere();
    tell(
        schema,
        tasks,
        outside,
        Side::Leave,
        Node::Document(document),
    )?;
    add(schema, tasks, outside, Part::Definitions(document))?;
    tell(
        schema,
        tasks,
        outside,
        Side::Enter,
        Node::Document(document),
    )
}
