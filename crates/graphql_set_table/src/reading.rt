//! Reading of selection sets.

ghost use Rattle.std.specs.Prelude.{◌≡◌, ◌+◌, ◌≤◌, [], ◌∷◌, ◌++◌, Some, IfOk, OnOk, length};
ghost use Rattle.std.specs.List.{flat_map};
ghost use Rattle.std.specs.Option.{option_to_list};
ghost use Rattle.graphql_schema.specs.Declarations.{declarations_of};
ghost use Rattle.graphql_written_out.specs.Written.{condition_of};
ghost use Rattle.graphql_merging.specs.FieldNodes.{selection_nodes, set_nodes};
ghost use Rattle.graphql_merging.specs.Members.{inside};
ghost use Rattle.graphql_tree.specs.Definitions.{fragments_listed};
ghost use Rattle.graphql_written_out.specs.FragmentNumbers.{fragment_number};
ghost use Rattle.graphql_set_table.specs.Numbered.{DefinitionsFirst, IsSetOf};
ghost use Rattle.graphql_set_table.specs.Reading.{Extends, ReadsSet, ReadsOnce, nodes_in, set_at};
ghost use Rattle.graphql_set_table.specs.Reading.{sets_at};
ghost use Rattle.graphql_set_table.specs.SetsAt.{fields_selected, inner_of};

use crate::open_set::OpenSet;
use crate::scopes::{set_of_field, set_of_inline};
use graphql_merging::{SelectedField, WrittenField, WrittenSet};
use graphql_schema::{MetaType, SchemaType};
use graphql_text::{Items, Spanning};
use graphql_tree::{Field, FragmentSpread, InlineFragment, Selection};
use graphql_written_out::Fragments;
use std::alloc::{AllocError, Global};

/// Reads a field: its own set has a number from then on. An error is want of memory.
fn read_field<'d, 'a, S, C>(
    schema: &'d SchemaType<S, C>,
    parent: &'d MetaType<S, C>,
    field: &'d Spanning<Field<'a, S>>,
    ahead: &mut Items<OpenSet<'d, 'a, S, C>>,
    written: &mut WrittenSet<'d, 'a, S, C>,
) -> Result<(), AllocError>
    ensures reads { let all_old = sets_at ahead.old in let all_new = sets_at ahead.new in
        OnOk result (ReadsSet (declarations_of schema.now) all_old all_new written.old written.new
        (record { parent = parent.now; field = field.now } ∷ []) []) }
    ensures once { let all_old = sets_at ahead.old in let all_new = sets_at ahead.new in
        let nodes = selection_nodes (Selection.Field field.now) in
        OnOk result (ReadsOnce all_old all_new written.old written.new nodes) }
{
    let own = ahead.len();
    ahead.push(set_of_field(schema, parent, field))?;
    let selected = SelectedField { parent, field };
    written.fields.push(WrittenField { selected, own })?;
    Ok(())
}

/// Reads an inline fragment: its set has a number from then on. An error is want of memory.
fn read_inline<'d, 'a, S, C>(
    schema: &'d SchemaType<S, C>,
    parent: &'d MetaType<S, C>,
    fragment: &'d Spanning<InlineFragment<'a, S>>,
    ahead: &mut Items<OpenSet<'d, 'a, S, C>>,
    written: &mut WrittenSet<'d, 'a, S, C>,
) -> Result<(), AllocError>
    ensures reads { let all_old = sets_at ahead.old in let all_new = sets_at ahead.new in
        let scope = inside schema.now.types (Some parent.now) (condition_of fragment.now.item) in
        OnOk result (ReadsSet (declarations_of schema.now) all_old all_new written.old written.new
        [] (record { scope = scope; selections = fragment.now.item.selection_set } ∷ [])) }
    ensures once { let all_old = sets_at ahead.old in let all_new = sets_at ahead.new in
        let nodes = selection_nodes (Selection.InlineFragment fragment.now) in
        OnOk result (ReadsOnce all_old all_new written.old written.new nodes) }
{
    let number = ahead.len();
    ahead.push(set_of_inline(schema, parent, &fragment.item))?;
    written.inner.push(number)?;
    Ok(())
}

/// Reads a spread: the fragment that it means has a number, if there is one. An error is want of
/// memory.
fn read_spread<'d, 'a, S, C>(
    fragments: &Fragments<'d, 'a, S>,
    spread: &FragmentSpread<'a, S>,
    written: &mut WrittenSet<'d, 'a, S, C>,
) -> Result<(), AllocError>
    ensures fields { OnOk result (written.new.fields ≡ written.old.fields) }
    ensures inner { let meant = fragment_number fragments.now.document.now spread.now.name.item in
        OnOk result (written.new.inner ≡ written.old.inner ++ option_to_list meant) }
{
    if let Some(number) = fragments.number(spread.name.item.as_str()) {
        written.inner.push(number)?;
    }
    Ok(())
}

/// Reads a selection. An error is want of memory.
fn read_selection<'d, 'a, S, C>(
    schema: &'d SchemaType<S, C>,
    fragments: &Fragments<'d, 'a, S>,
    parent: &'d MetaType<S, C>,
    selection: &'d Selection<'a, S>,
    ahead: &mut Items<OpenSet<'d, 'a, S, C>>,
    written: &mut WrittenSet<'d, 'a, S, C>,
) -> Result<(), AllocError>
    requires { DefinitionsFirst (declarations_of schema.now) fragments.now.document.now
        (sets_at ahead.old) }
    ensures reads { let all_old = sets_at ahead.old in let all_new = sets_at ahead.new in
        let declarations = declarations_of schema.now in
        let meant = fragments_listed fragments.now.document.now in
        OnOk result (ReadsSet declarations all_old all_new written.old written.new
        (fields_selected parent.now selection.now)
        (inner_of declarations meant parent.now selection.now)) }
    ensures once { let all_old = sets_at ahead.old in let all_new = sets_at ahead.new in
        OnOk result
        (ReadsOnce all_old all_new written.old written.new (selection_nodes selection.now)) }
{
    match selection {
        Selection::Field(field) => read_field(schema, parent, field, ahead, written),
        Selection::FragmentSpread(spread) => read_spread(fragments, &spread.item, written),
        Selection::InlineFragment(fragment) => {
            read_inline(schema, parent, fragment, ahead, written)
        }
    }
}

/// Reads the selections of a set, in order. An error is want of memory.
fn read_selections<'d, 'a, S, C>(
    schema: &'d SchemaType<S, C>,
    fragments: &Fragments<'d, 'a, S>,
    parent: &'d MetaType<S, C>,
    selections: &'d [Selection<'a, S>],
    ahead: &mut Items<OpenSet<'d, 'a, S, C>>,
    written: &mut WrittenSet<'d, 'a, S, C>,
) -> Result<(), AllocError>
    requires { DefinitionsFirst (declarations_of schema.now) fragments.now.document.now
        (sets_at ahead.old) }
    ensures reads { let all_old = sets_at ahead.old in let all_new = sets_at ahead.new in
        let declarations = declarations_of schema.now in
        let meant = fragments_listed fragments.now.document.now in
        OnOk result (ReadsSet declarations all_old all_new written.old written.new
        (flat_map (fields_selected parent.now) selections.now)
        (flat_map (inner_of declarations meant parent.now) selections.now)) }
    ensures once { let all_old = sets_at ahead.old in let all_new = sets_at ahead.new in
        OnOk result (ReadsOnce all_old all_new written.old written.new (set_nodes selections.now)) }
{
    'selections: for selection in selections {
        read_selection(schema, fragments, parent, selection, ahead, written)?;
    }
    Ok(())
}

/// Reads a set. The sets that stand directly in it have numbers from then on, and each of its
/// fields is taken up once: there, or in one of these. A set that selects from an unknown type is
/// not read. An error is want of memory.
pub(crate) fn read_set<'d, 'a, S, C>(
    alloc: Global,
    schema: &'d SchemaType<S, C>,
    fragments: &Fragments<'d, 'a, S>,
    set: OpenSet<'d, 'a, S, C>,
    ahead: &mut Items<OpenSet<'d, 'a, S, C>>,
) -> Result<WrittenSet<'d, 'a, S, C>, AllocError>
    requires { DefinitionsFirst (declarations_of schema.now) fragments.now.document.now
        (sets_at ahead.old) }
    ensures numbered { OnOk result (Extends (sets_at ahead.old) (sets_at ahead.new)) }
    ensures written { let document = fragments.now.document.now in
        IfOk result (λ written.
        IsSetOf (sets_at ahead.new) (declarations_of schema.now) document written
        (set_at set.entry)) }
    ensures once { let most = nodes_in (sets_at ahead.old) + set_nodes set.entry.selections.now in
        IfOk result (λ written. length written.fields + nodes_in (sets_at ahead.new) ≤ most) }
{
    let mut written = WrittenSet {
        fields: Items::new(alloc),
        inner: Items::new(alloc),
    };
    if let Some(parent) = set.scope {
        read_selections(
            schema,
            fragments,
            parent,
            set.selections,
            ahead,
            &mut written,
        )?;
    }
    Ok(written)
}
