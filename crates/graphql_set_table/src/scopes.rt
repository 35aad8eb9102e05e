//! What the sets of definitions, fields and fragments select from, and what is in them.

ghost use Rattle.std.specs.Prelude.{◌≡◌, Some};
ghost use Rattle.std.specs.Option.{option_copied};
ghost use Rattle.graphql_schema.specs.Declarations.{declarations_of};
ghost use Rattle.graphql_written_out.specs.Written.{condition_of, listed};
ghost use Rattle.graphql_merging.specs.Members as spec;
ghost use Rattle.graphql_set_table.specs.SetsAt.{definition_set, own_set};
ghost use Rattle.graphql_set_table.specs.Reading.{set_at};

use crate::open_set::OpenSet;
use graphql_occurrences::{field_of, root_of, type_of_field};
use graphql_schema::{MetaType, SchemaType};
use graphql_text::Spanning;
use graphql_tree::{Definition, Field, InlineFragment, Selection};

/// The set of an operation or of a fragment.
pub(crate) fn set_of_definition<'d, 'a, S, C>(
    schema: &'d SchemaType<S, C>,
    definition: &'d Definition<'a, S>,
) -> OpenSet<'d, 'a, S, C>
    ensures { set_at result ≡ definition_set (declarations_of schema.now) definition.now }
{
    match definition {
        Definition::Operation(operation) => OpenSet {
            scope: root_of(schema, operation.item.operation_type),
            selections: operation.item.selection_set.as_slice(),
        },
        Definition::Fragment(fragment) => OpenSet {
            scope: schema.concrete_type_by_name(fragment.item.type_condition.item.as_str()),
            selections: fragment.item.selection_set.as_slice(),
        },
    }
}

/// What the own set of a field of this name selects from.
fn scope_of_field<'d, S, C>(
    schema: &'d SchemaType<S, C>,
    parent: &'d MetaType<S, C>,
    name: &str,
) -> Option<&'d MetaType<S, C>>
    ensures { option_copied result ≡ spec.scope_of schema.now.types parent.now name.now }
{
    match type_of_field(field_of(Some(parent), name)) {
        Some(reference) => schema.concrete_type_by_name(reference.name),
        None => None,
    }
}

/// What is selected of a field's value; nothing where it has no set.
fn selections_of<'d, 'a, S>(field: &'d Field<'a, S>) -> &'d [Selection<'a, S>]
    ensures { result.now ≡ listed field.now.selection_set }
{
    match &field.selection_set {
        Some(set) => set.as_slice(),
        None => &[],
    }
}

/// A field's own set.
pub(crate) fn set_of_field<'d, 'a, S, C>(
    schema: &'d SchemaType<S, C>,
    parent: &'d MetaType<S, C>,
    field: &'d Spanning<Field<'a, S>>,
) -> OpenSet<'d, 'a, S, C>
    ensures { set_at result
        ≡ own_set (declarations_of schema.now) (record { parent = parent.now; field = field.now }) }
{
    OpenSet {
        scope: scope_of_field(schema, parent, field.item.name.item.as_str()),
        selections: selections_of(&field.item),
    }
}

/// What is selected from in an inline fragment.
fn scope_inside<'d, 'a, S, C>(
    schema: &'d SchemaType<S, C>,
    parent: &'d MetaType<S, C>,
    fragment: &InlineFragment<'a, S>,
) -> Option<&'d MetaType<S, C>>
    ensures { option_copied result
        ≡ spec.inside schema.now.types (Some parent.now) (condition_of fragment.now) }
{
    match &fragment.type_condition {
        Some(on) => schema.concrete_type_by_name(on.item.as_str()),
        None => Some(parent),
    }
}

/// The set of an inline fragment.
pub(crate) fn set_of_inline<'d, 'a, S, C>(
    schema: &'d SchemaType<S, C>,
    parent: &'d MetaType<S, C>,
    fragment: &'d InlineFragment<'a, S>,
) -> OpenSet<'d, 'a, S, C>
    ensures { set_at result ≡ record {
      scope = spec.inside schema.now.types (Some parent.now)
          (condition_of fragment.now);
      selections = fragment.now.selection_set;
    } }
{
    OpenSet {
        scope: scope_inside(schema, parent, fragment),
        selections: fragment.selection_set.as_slice(),
    }
}
