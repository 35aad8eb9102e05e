//! What is found is put in order, and each two fields are told once.

ghost use Rattle.std.specs.Prelude.{◌≡◌, ◌↔◌, List, IfOk, map};
ghost use Rattle.std.specs.List.{All, Contains};
ghost use Rattle.std.specs.List.Sorted.{IsSorted, IsStrictlySortedBy};
ghost use Rattle.graphql_text.specs.declared.position.SourcePosition.{SourcePosition};
ghost use Rattle.graphql_rule_errors.specs.Places.{places};
ghost use Rattle.graphql_bundles.specs.Conflicts as conflicts;
ghost use Rattle.graphql_bundles.specs.Conflicts.{HasFirstReason, error_of};
ghost use Rattle.graphql_bundles.specs.declared.conflict.Conflict.{Conflict};

use graphql_bundles::Conflict;
use graphql_rule_errors::RuleError;
use graphql_text::{Items, SourcePosition};
use std::alloc::{AllocError, Global};

/// The errors that say these conflicts, in order. An error of the call is want of memory.
fn errors_of(alloc: Global, found: Vec<Conflict>) -> Result<Items<RuleError>, AllocError>
    ensures { IfOk result (λ errors. errors ≡ map error_of found.items) }
{
    let mut errors = Items::with_capacity(alloc, found.len())?;
    for conflict in found {
        errors.push(conflict.into_error())?;
    }
    Ok(errors)
}

/// The errors of these conflicts in the order of their places: of those that name the same places
/// the error of one with the first reason. An error of the call is want of memory.
pub(crate) fn put_in_order(
    alloc: Global,
    found: Items<Conflict>,
) -> Result<Items<RuleError>, AllocError>
    ensures sorted { IfOk result (IsSorted ⟦<RuleError as Ord>⟧.cmp) }
    ensures once { IfOk result (λ errors.
        IsStrictlySortedBy ⟦<Items<SourcePosition> as Ord>⟧.cmp (places errors)) }
    ensures same { IfOk result (λ errors. (e : List SourcePosition) →
        Contains (conflicts.places found) e ↔ Contains (places errors) e) }
    ensures first { IfOk result (All (λ error.
        (c : Conflict) × HasFirstReason found c × (error ≡ error_of c))) }
{
    let mut conflicts = found.into_vec();
    conflicts.sort()?;
    conflicts.dedup_by(|later, earlier| later.locations == earlier.locations);
    errors_of(alloc, conflicts)
}
