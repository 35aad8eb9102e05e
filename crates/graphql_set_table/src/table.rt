//! The table of a document's selection sets.

ghost use Rattle.std.specs.Prelude.{◌≡◌, ◌+◌, ◌≤◌, List, [], IfOk, OnOk, map};
ghost use Rattle.graphql_merging.specs.FieldNodes.{document_nodes, fields_written, set_nodes};
ghost use Rattle.graphql_schema.specs.Declarations.{declarations_of};
ghost use Rattle.graphql_set_table.specs.Numbered.{DefinitionsFirst, IsTable};
ghost use Rattle.graphql_set_table.specs.Reading.{AddsSet, Extends, nodes_in, set_at, sets_at};
ghost use Rattle.graphql_set_table.specs.SetsAt.{SetAt, definition_set};

use crate::open_set::OpenSet;
use crate::reading::read_set;
use crate::scopes::set_of_definition;
use graphql_merging::SetTable;
use graphql_schema::SchemaType;
use graphql_text::Items;
use graphql_tree::Definition;
use graphql_written_out::Fragments;
use std::alloc::{AllocError, Global};

/// The sets of the definitions, in order. An error is want of memory.
fn sets_of_definitions<'d, 'a, S, C>(
    alloc: Global,
    schema: &'d SchemaType<S, C>,
    document: &'d [Definition<'a, S>],
) -> Result<Items<OpenSet<'d, 'a, S, C>>, AllocError>
    ensures { IfOk result
        (λ sets. sets_at sets ≡ map (definition_set (declarations_of schema.now)) document.now) }
{
    let mut sets = Items::new(alloc);
    'definitions: for definition in document {
        sets.push(set_of_definition(schema, definition))?;
    }
    Ok(sets)
}

/// Adds a set to the table. The sets that stand directly in it have numbers from then on, and each
/// of its fields is taken up once: there, or in one of these. An error is want of memory.
fn add_set<'d, 'a, S, C>(
    alloc: Global,
    schema: &'d SchemaType<S, C>,
    fragments: &Fragments<'d, 'a, S>,
    set: OpenSet<'d, 'a, S, C>,
    ahead: &mut Items<OpenSet<'d, 'a, S, C>>,
    table: &mut SetTable<'d, 'a, S, C>,
) -> Result<(), AllocError>
    requires { DefinitionsFirst (declarations_of schema.now) fragments.now.document.now
        (sets_at ahead.old) }
    ensures numbered { OnOk result (Extends (sets_at ahead.old) (sets_at ahead.new)) }
    ensures added { let document = fragments.now.document.now in
        let most = nodes_in (sets_at ahead.old) + set_nodes set.entry.selections.now in
        OnOk result (AddsSet (declarations_of schema.now) document (sets_at ahead.new)
        table.old.sets table.new.sets (set_at set.entry) most) }
{
    let written = read_set(alloc, schema, fragments, set, ahead)?;
    match table.sets.push(written) {
        Ok(()) => Ok(()),
        Err(refused) => {
            let _written = refused.value;
            Err(AllocError)
        }
    }
}

/// Adds the sets that are ahead to a table that has none yet, and those that have numbers on the
/// way. An error is want of memory.
fn add_sets<'d, 'a, S, C>(
    alloc: Global,
    schema: &'d SchemaType<S, C>,
    fragments: &Fragments<'d, 'a, S>,
    mut ahead: Items<OpenSet<'d, 'a, S, C>>,
    table: &mut SetTable<'d, 'a, S, C>,
) -> Result<(), AllocError>
    requires first { DefinitionsFirst (declarations_of schema.now) fragments.now.document.now
        (sets_at ahead) }
    requires none { table.old.sets ≡ [] }
    ensures numbered { let document = fragments.now.document.now in
        OnOk result ((all : List (SetAt S C))
        × IsTable (declarations_of schema.now) document all table.new.sets) }
    ensures once { OnOk result (fields_written table.new.sets ≤ nodes_in (sets_at ahead.entry)) }
{
    'sets: while let Some(set) = ahead.get(table.sets.len()).copied() {
        add_set(alloc, schema, fragments, set, &mut ahead, table)?;
    }
    Ok(())
}

/// Lets a table go, set by set. A function for any scalar does so before it ends: that a table
/// which it owns may go by itself is not known there.
pub fn let_go<'d, 'a, S, C>(table: SetTable<'d, 'a, S, C>) {
    let mut sets = table.sets;
    'sets: while let Some(_set) = sets.pop() {}
    sets.into_vec().destroy_empty();
}

/// The selection sets of a document by numbers from zero (GraphQL October 2021, 2.4 Selection
/// Sets):
/// first those of its definitions, in order, then those of its fields and of its inline fragments.
/// A spread has the number of the first fragment of its name (5.5.2.1 Fragment Spread Target
/// Defined), so that the fields of the sets are at most those that the document writes. A set that
/// selects from an unknown type is empty. Takes time and memory in proportion to the document, and
/// no more stack however deep it is. An error is want of memory.
pub fn numbered_sets<'d, 'a, S, C>(
    alloc: Global,
    schema: &'d SchemaType<S, C>,
    document: &'d [Definition<'a, S>],
) -> Result<SetTable<'d, 'a, S, C>, AllocError>
    ensures numbered { let declarations = declarations_of schema.now in
        IfOk result
        (λ table. (all : List (SetAt S C)) × IsTable declarations document.now all table.sets) }
    ensures once { IfOk result (λ table. fields_written table.sets ≤ document_nodes document.now) }
{
    let fragments = Fragments::new(alloc, document)?;
    let ahead = sets_of_definitions(alloc, schema, document)?;
    let sets = Items::new(alloc);
    let mut table = SetTable { sets };
    match add_sets(alloc, schema, &fragments, ahead, &mut table) {
        Ok(()) => Ok(table),
        Err(error) => {
            let_go(table);
            Err(error)
        }
    }
}
