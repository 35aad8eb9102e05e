//! The fields of selection sets for an object type, each fragment entered once.

ghost use Rattle.std.specs.Prelude.{◌≡◌, ◌≤◌, ◌<◌, ◌+◌, ℕ, List, [], ◌∷◌, Some, length, slice_get};
ghost use Rattle.std.specs.Prelude.{OnOk, IfOk, map};
ghost use Rattle.std.specs.Option.{option_map, option_map_or};
ghost use Rattle.std.specs.List.{flat_map, list_any};
ghost use Rattle.std.specs.Str.{bytes_eq};
ghost use Rattle.graphql_tree.specs.declared.selection.Selection.TheVariants as selection;
ghost use Rattle.graphql_written_out.specs.Written.{listed, written_selection, Settled};
ghost use Rattle.graphql_written_out.specs.Trees.{height};
ghost use Rattle.graphql_collected.specs.Requests.{is_below_in, fields_in, written_in};
ghost use Rattle.graphql_collected.specs.Requests.{fragments_in};
ghost use Rattle.graphql_collect.specs.Grouped.{all_found};
ghost use Rattle.graphql_written_out.specs.Fields.{applies};
ghost use Rattle.graphql_written_out.specs.Repeats.{Repeats};
ghost use Rattle.graphql_collect.specs.Sizes.{IsSized, left_in, selection_turns, size, size_below};
ghost use Rattle.graphql_collect.specs.Sizes.{size_open, turns, turns_ahead};
ghost use Rattle.graphql_collect.specs.OpenSets.{rest_of};
ghost use Rattle.graphql_collect.specs.Collecting.{Brings, CompleteIn, IsItself, ReadyIn, Steps};
ghost use Rattle.graphql_collect.specs.Collecting.{WalkedIn, below_in, trees_in};

use crate::open_set::OpenSet;
use graphql_collected::{CollectedField, Request, drops};
use graphql_schema::SchemaScalar;
use graphql_text::{Items, Spanning, TextRef};
use graphql_tree::{Field, FragmentSpread, InlineFragment, Selection};
use indexmap::IndexSet;
use std::alloc::{AllocError, Global};

/// What a selection brings to its set.
pub enum Brought<'d, 'a, S> {
    /// Nothing: it is left out, does not apply, or was entered before.
    Nothing,

    /// A field.
    Field(&'d Spanning<Field<'a, S>>),

    /// The fields of another set.
    Set(&'d [Selection<'a, S>]),

    /// The fields of the fragment that is spread.
    Fragment(&'d Spanning<FragmentSpread<'a, S>>, &'d [Selection<'a, S>]),
}

/// Whether the object type is a subtype of the other type.
fn is_below<S: SchemaScalar>(request: &Request<'_, '_, S>, object: &str, on: &str) -> bool
    ensures { result ≡ is_below_in request.now object.now on.now }
{
    request.schema.is_named_subtype(object, on)
}

/// Whether the name is among the names.
fn has_name(names: &IndexSet<TextRef<'_>>, name: &str) -> bool
    ensures { result ≡ list_any (bytes_eq name.now) names.now.keys }
{
    names.contains(&TextRef::new(name))
}

/// Whether a fragment with this condition, or without one, applies to the object type.
fn applies<S: SchemaScalar>(
    request: &Request<'_, '_, S>,
    object: &str,
    on: &Option<Spanning<TextRef<'_>>>,
) -> bool
    ensures { result
        ≡ applies (is_below_in request.now object.now) (option_map (λ o. o.item) on.now) }
{
    match on {
        None => true,
        Some(on) => is_below(request, object, on.item.as_str()),
    }
}

/// What a field brings: itself, unless it is left out.
fn bring_field<'d, 'a, S: SchemaScalar>(
    request: &Request<'d, 'a, S>,
    field: &'d Spanning<Field<'a, S>>,
) -> Brought<'d, 'a, S>
    ensures brings { (object : List ℕ) (visited : List (List ℕ))
        → Brings S.answer request.now
        object visited
        (written_selection (fragments_in request.now) (selection.Field field.now)) result }
    ensures itself { IsItself (selection.Field field.now) result }
    ensures sized { (visited : List (List ℕ))
        → IsSized (fragments_in request.now) visited (selection.Field field.now) result }
{
    if drops(request, &field.item.directives) {
        return Brought::Nothing;
    }
    Brought::Field(field)
}

/// What an inline fragment brings: its set, where it applies and is not left out.
fn bring_inline<'d, 'a, S: SchemaScalar>(
    request: &Request<'d, 'a, S>,
    object: &str,
    inline: &'d Spanning<InlineFragment<'a, S>>,
) -> Brought<'d, 'a, S>
    ensures brings { (visited : List (List ℕ))
        → Brings S.answer request.now object.now visited
        (written_selection (fragments_in request.now) (selection.InlineFragment inline.now))
        result }
    ensures itself { IsItself (selection.InlineFragment inline.now) result }
    ensures sized { (visited : List (List ℕ))
        → IsSized (fragments_in request.now) visited (selection.InlineFragment inline.now) result }
{
    if drops(request, &inline.item.directives) {
        return Brought::Nothing;
    }
    if !applies(request, object, &inline.item.type_condition) {
        return Brought::Nothing;
    }
    Brought::Set(inline.item.selection_set.as_slice())
}

/// What a spread brings: the set of the fragment that it means, where that applies, is not left
/// out, and was not entered before.
fn bring_fragment<'d, 'a, S: SchemaScalar>(
    request: &Request<'d, 'a, S>,
    object: &str,
    spread: &'d Spanning<FragmentSpread<'a, S>>,
    visited: &IndexSet<TextRef<'_>>,
) -> Brought<'d, 'a, S>
    requires { Settled (fragments_in request.now) }
    ensures brings { Brings S.answer request.now object.now visited.now.keys
        (written_selection (fragments_in request.now) (selection.FragmentSpread spread.now))
        result }
    ensures itself { IsItself (selection.FragmentSpread spread.now) result }
    ensures sized { IsSized (fragments_in request.now) visited.now.keys
        (selection.FragmentSpread spread.now) result }
{
    if drops(request, &spread.item.directives) {
        return Brought::Nothing;
    }
    match request.fragments.get(spread.item.name.item.as_str()) {
        None => Brought::Nothing,
        Some(fragment) => {
            if !is_below(request, object, fragment.type_condition.item.as_str()) {
                return Brought::Nothing;
            }
            if has_name(visited, spread.item.name.item.as_str()) {
                return Brought::Nothing;
            }
            Brought::Fragment(spread, fragment.selection_set.as_slice())
        }
    }
}

/// What a selection brings to a set of an object type, where fragments were entered.
fn bring<'d, 'a, S: SchemaScalar>(
    request: &Request<'d, 'a, S>,
    object: &str,
    selection: &'d Selection<'a, S>,
    visited: &IndexSet<TextRef<'_>>,
) -> Brought<'d, 'a, S>
    requires { Settled (fragments_in request.now) }
    ensures brings { Brings S.answer request.now object.now visited.now.keys
        (written_selection (fragments_in request.now) selection.now) result }
    ensures itself { IsItself selection.now result }
    ensures sized { IsSized (fragments_in request.now) visited.now.keys selection.now result }
{
    match selection {
        Selection::FragmentSpread(spread) => bring_fragment(request, object, spread, visited),
        Selection::Field(field) => bring_field(request, field),
        Selection::InlineFragment(inline) => bring_inline(request, object, inline),
    }
}

/// Adds the field that the next selection of a set brings, or opens the set that it brings. An
/// error is want of memory.
fn enter<'d, 'a, S: SchemaScalar>(
    request: &Request<'d, 'a, S>,
    object: &str,
    set: &OpenSet<'d, 'a, S>,
    selection: &'d Selection<'a, S>,
    sets: &mut Items<OpenSet<'d, 'a, S>>,
    visited: &mut IndexSet<TextRef<'a>>,
    found: &mut Items<CollectedField<'d, 'a, S>>,
) -> Result<(), AllocError>
    requires settled { Settled (fragments_in request.now) }
    requires stands { slice_get set.now.among.now set.now.next ≡ Some selection.now }
    ensures steps { OnOk result (Steps S.answer request.now object.now
        (written_selection (fragments_in request.now) selection.now ∷ trees_in request.now sets.old)
        visited.old.keys found.old
        (trees_in request.now sets.new) visited.new.keys found.new) }
    ensures sized { OnOk result (
        length found.new + left_in visited.new.keys (fragments_in request.now) + size_open sets.new
        ≤ length found.old + left_in visited.old.keys (fragments_in request.now)
        + size (selection.now ∷ []) + size_open sets.old) }
    ensures turns { OnOk result (
        turns_ahead (fragments_in request.now) sets.new visited.new.keys
        < selection_turns selection.now
        + turns_ahead (fragments_in request.now) sets.old visited.old.keys) }
{
    match bring(request, object, selection, visited) {
        Brought::Nothing => Ok(()),
        Brought::Field(field) => {
            found.push(CollectedField {
                field,
                among: set.among,
                place: set.next,
            })?;
            Ok(())
        }
        Brought::Set(among) => {
            sets.push(OpenSet { among, next: 0 })?;
            Ok(())
        }
        Brought::Fragment(spread, among) => {
            visited.insert(spread.item.name.item.copied())?;
            sets.push(OpenSet { among, next: 0 })?;
            Ok(())
        }
    }
}

/// Goes on with a set: with its next selection, if there is one. An error is want of memory.
fn advance<'d, 'a, S: SchemaScalar>(
    request: &Request<'d, 'a, S>,
    object: &str,
    set: &OpenSet<'d, 'a, S>,
    sets: &mut Items<OpenSet<'d, 'a, S>>,
    visited: &mut IndexSet<TextRef<'a>>,
    found: &mut Items<CollectedField<'d, 'a, S>>,
) -> Result<(), AllocError>
    requires { Settled (fragments_in request.now) }
    ensures steps { OnOk result (Steps S.answer request.now object.now
        (written_in request.now (rest_of set.now) ∷ trees_in request.now sets.old) visited.old.keys
        found.old
        (trees_in request.now sets.new) visited.new.keys found.new) }
    ensures sized { OnOk result (
        length found.new + left_in visited.new.keys (fragments_in request.now) + size_open sets.new
        ≤ length found.old + left_in visited.old.keys (fragments_in request.now)
        + size (rest_of set.now) + size_open sets.old) }
    ensures turns { OnOk result (
        turns_ahead (fragments_in request.now) sets.new visited.new.keys
        < turns (rest_of set.now)
        + turns_ahead (fragments_in request.now) sets.old visited.old.keys) }
{
    match set.among.get(set.next) {
        None => Ok(()),
        Some(selection) => {
            sets.push(OpenSet {
                among: set.among,
                next: set.next + 1,
            })?;
            enter(request, object, set, selection, sets, visited, found)?;
            Ok(())
        }
    }
}

/// Adds the fields of a set for an object type, in order, each fragment entered once. What is left
/// of the sets around stands on the heap, so it takes no more stack however deep they are. An error
/// is want of memory.
fn collect<'d, 'a, S: SchemaScalar>(
    alloc: Global,
    request: &Request<'d, 'a, S>,
    object: &str,
    set: &'d [Selection<'a, S>],
    visited: &mut IndexSet<TextRef<'a>>,
    found: &mut Items<CollectedField<'d, 'a, S>>,
) -> Result<(), AllocError>
    requires settled { Settled (fragments_in request.now) }
    requires ready { ReadyIn S.answer request.now object.now
        (height (written_in request.now set.now)) visited.old.keys found.old }
    ensures walked { OnOk result
        (WalkedIn S.answer request.now object.now (fields_in S.answer request.now object.now
        (written_in request.now set.now)) visited.old.keys found.old visited.new.keys found.new) }
    ensures sized { OnOk result
        (length found.new + left_in visited.new.keys (fragments_in request.now) ≤ length found.old
        + size set.now + left_in visited.old.keys (fragments_in request.now)) }
{
    let mut sets = Items::new(alloc);
    sets.push(OpenSet {
        among: set,
        next: 0,
    })?;
    'sets: while let Some(innermost) = sets.pop() {
        advance(request, object, &innermost, &mut sets, visited, found)?;
    }
    Ok(())
}

/// Adds the fields of a field's set, if it has one. An error is want of memory.
fn collect_below<'d, 'a, S: SchemaScalar>(
    alloc: Global,
    request: &Request<'d, 'a, S>,
    object: &str,
    occurrence: &CollectedField<'d, 'a, S>,
    visited: &mut IndexSet<TextRef<'a>>,
    found: &mut Items<CollectedField<'d, 'a, S>>,
) -> Result<(), AllocError>
    requires settled { Settled (fragments_in request.now) }
    requires complete { CompleteIn S.answer request.now object.now visited.old.keys found.old }
    ensures walked { OnOk result (WalkedIn S.answer request.now object.now
        (fields_in S.answer request.now object.now (below_in request.now occurrence.now))
        visited.old.keys found.old visited.new.keys found.new) }
    ensures sized { OnOk result
        (length found.new + left_in visited.new.keys (fragments_in request.now) ≤ length found.old
        + size (listed occurrence.now.field.now.item.selection_set)
        + left_in visited.old.keys (fragments_in request.now)) }
{
    match &occurrence.field.item.selection_set {
        Some(set) => {
            collect(alloc, request, object, set.as_slice(), visited, found)?;
            Ok(())
        }
        None => Ok(()),
    }
}

/// The fields of a set that apply to an object type, in order (GraphQL October 2021, 6.3.2 Field
/// Collection, CollectFields). Each fragment is entered once, so fields that stand there before are
/// left out, and there are at most as many as fields in the set and in all fragments. Takes time
/// and memory by the selections that it goes through, and no more stack however deep they are. An
/// error is want of memory.
pub fn fields_of_set<'d, 'a, S: SchemaScalar>(
    alloc: Global,
    request: &Request<'d, 'a, S>,
    object: &str,
    set: &'d [Selection<'a, S>],
) -> Result<Items<CollectedField<'d, 'a, S>>, AllocError>
    requires { Settled (fragments_in request.now) }
    ensures fields { IfOk result (λ found. Repeats (all_found (fragments_in request.now) found)
        (fields_in S.answer request.now object.now (written_in request.now set.now))) }
    ensures few { IfOk result
        (λ found. length found ≤ size set.now + left_in [] (fragments_in request.now)) }
{
    let mut visited: IndexSet<TextRef<'a>> = IndexSet::new(alloc);
    let mut found = Items::with_capacity(alloc, set.len())?;
    collect(alloc, request, object, set, &mut visited, &mut found)?;
    Ok(found)
}

/// How many selections stand in the set of the group's first field.
fn many_below<S>(group: &[CollectedField<'_, '_, S>]) -> usize
    ensures { result
        ≡ option_map_or (λ first. length (listed first.field.now.item.selection_set))
        (slice_get group.now 0) 0 }
{
    match group.first() {
        Some(first) => match &first.field.item.selection_set {
            Some(set) => set.len(),
            None => 0,
        },
        None => 0,
    }
}

/// The same of the sets of a group's fields together (6.4.3 Value Completion, MergeSelectionSets):
/// each fragment is entered once for all of them.
pub fn fields_below<'d, 'a, S: SchemaScalar>(
    alloc: Global,
    request: &Request<'d, 'a, S>,
    object: &str,
    group: &[CollectedField<'d, 'a, S>],
) -> Result<Items<CollectedField<'d, 'a, S>>, AllocError>
    requires { Settled (fragments_in request.now) }
    ensures fields { IfOk result
        (λ found. Repeats (all_found (fragments_in request.now) found) (flat_map
        (fields_in S.answer request.now object.now) (map (below_in request.now) group.now))) }
    ensures few { IfOk result
        (λ found. length found ≤ size_below group.now + left_in [] (fragments_in request.now)) }
{
    let mut visited: IndexSet<TextRef<'a>> = IndexSet::new(alloc);
    let mut found = Items::with_capacity(alloc, many_below(group))?;
    for occurrence in group {
        collect_below(alloc, request, object, occurrence, &mut visited, &mut found)?;
    }
    Ok(found)
}
