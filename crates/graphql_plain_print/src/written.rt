//! Selections, each spread as the inline fragment that it stands for.

ghost use Rattle.std.specs.Prelude.{◌≡◌, List, ◌∷◌, ◌&&◌, MatchOption};
ghost use Rattle.std.specs.Option.{option_map};
ghost use Rattle.graphql_tree.specs.declared.selection.Selection.{Selection as SelectionOf};
ghost use Rattle.graphql_written_out.specs.Trees.{none};
ghost use Rattle.graphql_written_out.specs.Written.{Settled};
ghost use Rattle.graphql_plain_print.specs.Plans.{all_out_by, fragments_by, written_by};
ghost use Rattle.graphql_plain_print.specs.Leads.{IsField, IsInline, IsSpread, leads, out_by};

use crate::plan::Plan;
use graphql_text::{Items, Spanning, TextRef};
use graphql_tree::{Directive, Field, Fragment, InlineFragment, Selection};
use graphql_values::ScalarValue;
use graphql_written_out::left_out;

/// A selection, its spread written out (GraphQL October 2021, 2.4 Selection Sets, 2.8 Fragments).
#[derive(Drop)]
pub enum Written<'d, 'a, S> {
    /// A field.
    Field(&'d Spanning<Field<'a, S>>),

    /// An inline fragment: its condition, if it has one, its directives and its set.
    Inline(Option<&'d str>, &'d Option<Items<Spanning<Directive<'a, S>>>>, &'d [Selection<'a, S>]),
}

/// The selection, its spread written out; none where it spreads no fragment.
fn as_written<'d, 'a, S>(
    plan: &Plan<'d, '_, 'a, S>,
    selection: &'d Selection<'a, S>,
) -> Option<Written<'d, 'a, S>>
    requires { Settled (fragments_by plan.now) }
    ensures { (behind : List (SelectionOf S)) → MatchOption result
        (written_by plan.now (selection.now ∷ behind) ≡ written_by plan.now behind)
        (λ w. written_by plan.now (selection.now ∷ behind)
        ≡ leads plan.now w (written_by plan.now behind)) }
{
    match selection {
        Selection::Field(field) => Some(field_written(field)),
        Selection::InlineFragment(inline) => Some(inline_written(&inline.item)),
        Selection::FragmentSpread(spread) => {
            match plan.fragments.get(spread.item.name.item.as_str()) {
                None => None,
                Some(found) => Some(spread_written(found, &spread.item.directives)),
            }
        }
    }
}

/// A spread of a fragment: an inline fragment with the fragment's condition and the spread's
/// directives.
fn spread_written<'d, 'a, S>(
    fragment: &'d Fragment<'a, S>,
    directives: &'d Option<Items<Spanning<Directive<'a, S>>>>,
) -> Written<'d, 'a, S>
    ensures { IsSpread fragment.now directives.now result }
{
    Written::Inline(
        Some(fragment.type_condition.item.as_str()),
        directives,
        fragment.selection_set.as_slice(),
    )
}

/// A field.
fn field_written<'d, 'a, S>(field: &'d Spanning<Field<'a, S>>) -> Written<'d, 'a, S>
    ensures { IsField field.now result }
{
    Written::Field(field)
}

/// An inline fragment.
fn inline_written<'d, 'a, S>(inline: &'d InlineFragment<'a, S>) -> Written<'d, 'a, S>
    ensures { IsInline inline.now result }
{
    Written::Inline(
        condition(&inline.type_condition),
        &inline.directives,
        inline.selection_set.as_slice(),
    )
}

/// The name of the type to which an inline fragment applies, if it names one.
fn condition<'d>(on: &'d Option<Spanning<TextRef<'_>>>) -> Option<&'d str>
    ensures { option_map (λ n. n.now) result ≡ option_map (λ n. n.item) on.now }
{
    match on {
        Some(on) => Some(on.item.as_str()),
        None => None,
    }
}

/// The first selection of a set, and those behind it; spreads of no fragment are passed over.
pub(crate) fn first_written<'d, 'a, S>(
    plan: &Plan<'d, '_, 'a, S>,
    set: &'d [Selection<'a, S>],
) -> Option<(Written<'d, 'a, S>, &'d [Selection<'a, S>])>
    requires { Settled (fragments_by plan.now) }
    ensures { MatchOption result (written_by plan.now set.now ≡ none)
        (λ r. written_by plan.now set.now ≡ leads plan.now r.0 (written_by plan.now r.1.now)) }
{
    for (place, selection) in set.iter().enumerate() {
        if let Some(written) = as_written(plan, selection) {
            return Some((written, &set[place + 1..]));
        }
    }
    None
}

/// Whether a selection is left out.
pub(crate) fn is_out<S: ScalarValue>(
    plan: &Plan<'_, '_, '_, S>,
    written: &Written<'_, '_, S>,
) -> bool
    ensures { result ≡ out_by S.answer plan.now written.now }
{
    match written {
        Written::Field(field) => left_out(&field.item.directives, plan.variables),
        Written::Inline(_, directives, _) => left_out(directives, plan.variables),
    }
}

/// Whether a selection is left out, or spreads no fragment.
fn is_nothing<'d, 'a, S: ScalarValue>(
    plan: &Plan<'d, '_, 'a, S>,
    selection: &'d Selection<'a, S>,
) -> bool
    requires { Settled (fragments_by plan.now) }
    ensures { (behind : List (SelectionOf S)) → all_out_by S.answer plan.now
        (written_by plan.now (selection.now ∷ behind))
        ≡ (result && all_out_by S.answer plan.now (written_by plan.now behind)) }
{
    match as_written(plan, selection) {
        None => true,
        Some(written) => is_out(plan, &written),
    }
}

/// Whether every selection of a set is left out.
pub(crate) fn all_out<'d, 'a, S: ScalarValue>(
    plan: &Plan<'d, '_, 'a, S>,
    set: &'d [Selection<'a, S>],
) -> bool
    requires { Settled (fragments_by plan.now) }
    ensures { result ≡ all_out_by S.answer plan.now (written_by plan.now set.now) }
{
    for selection in set {
        if !is_nothing(plan, selection) {
            return false;
        }
    }
    true
}
