//! Fragments that no operation reaches (GraphQL October 2021, 5.5.1.4 Fragments Must Be Used).

ghost use Rattle.std.specs.Prelude.{◌≡◌, ◌∷◌, [], List, OnOk, map, not, false};
ghost use Rattle.std.specs.List.{flat_map};
ghost use Rattle.graphql_text.specs.Memory.{GivesBy};
ghost use Rattle.graphql_names.specs.Names.{Bytes, is_one_of};
ghost use Rattle.graphql_rules_document.specs.Lent.{fragment_of, operation_of, spread_of};
ghost use Rattle.graphql_rules_document.specs.NoUnusedFragments.{no_unused_fragments_faults};
ghost use Rattle.graphql_rules_document.specs.NoUnusedFragments.{unused_fragment};
ghost use Rattle.graphql_rule_errors.specs.Places.{Reports, error_if};

use crate::document_rule::DocumentRule;
use crate::once::Once;
use crate::{FragmentIndex, FragmentScope, OperationScope, ReachedFragments, Spread};
use graphql_rule_errors::{RuleError, report};
use graphql_schema::{SchemaScalar, SchemaType};
use graphql_text::Items;
use std::alloc::{AllocError, Global};

/// Operations reach each fragment by spreads (GraphQL October 2021, 5.5.1.4 Fragments Must Be
/// Used).
///
/// An error names the start of the fragment.
#[derive(Drop)]
pub struct NoUnusedFragments;

/// The rule, as a visitor.
pub fn factory() -> Once<NoUnusedFragments>
    ensures { result.is_asked ≡ false }
{
    Once::new(NoUnusedFragments)
}

/// Adds an error for each fragment that no operation reaches, where it begins. Takes time in
/// proportion to what the operations and the fragments hold. An error of the call is want of
/// memory.
pub fn no_unused_fragments<'a, 't, S>(
    alloc: Global,
    operations: &[OperationScope<'a, 't, S>],
    index: &FragmentIndex<'_, 'a>,
    errors: &mut Items<RuleError>,
) -> Result<(), AllocError>
    ensures { OnOk result (Reports (no_unused_fragments_faults (map operation_of operations.now)
        (map fragment_of index.now.fragments.now)) errors.old errors.new) }
{
    let spreads = all_spreads(alloc, operations)?;
    let mut reached = ReachedFragments::new(alloc);
    reached.search(index, spreads.as_slice())?;
    report_all(alloc, &reached, index, errors)
}

/// The spreads of all operations.
fn all_spreads<'a, 't, S>(
    alloc: Global,
    operations: &[OperationScope<'a, 't, S>],
) -> Result<Items<Spread<'a>>, AllocError>
    ensures { GivesBy (map spread_of) result
        (flat_map (λ o. o.spreads) (map operation_of operations.now)) }
{
    let mut spreads = Items::new(alloc);
    'operations: for operation in operations {
        spreads.extend_from_slice(operation.spreads.as_slice())?;
    }
    Ok(spreads)
}

/// The errors for the fragments that were not reached.
fn report_all(
    alloc: Global,
    reached: &ReachedFragments,
    index: &FragmentIndex<'_, '_>,
    errors: &mut Items<RuleError>,
) -> Result<(), AllocError>
    ensures { OnOk result ((names : List Bytes)
        → reached.now.marks
        ≡ map
        (λ f. is_one_of names f.name) (map fragment_of index.now.fragments.now) → Reports (flat_map
        (unused_fragment names) (map fragment_of index.now.fragments.now)) errors.old errors.new) }
{
    'fragments: for (place, fragment) in index.fragments().iter().enumerate() {
        report_unused(alloc, reached.is_reached(place), fragment, errors)?;
    }
    Ok(())
}

/// The error, if the fragment is not reached.
fn report_unused(
    alloc: Global,
    is_reached: bool,
    fragment: &FragmentScope<'_>,
    errors: &mut Items<RuleError>,
) -> Result<(), AllocError>
    ensures { OnOk result
        (Reports (error_if (not is_reached) (fragment.now.place ∷ [])) errors.old errors.new) }
{
    if is_reached {
        return Ok(());
    }
    let name = fragment.name;
    let message = format!(in alloc; "Fragment \"{name}\" is never used")?;
    report(alloc, errors, message, &[fragment.place])
}

impl<S: SchemaScalar> DocumentRule<S> for NoUnusedFragments {
    ghost use Rattle.std.specs.Prelude.{OnOk, map};
    ghost use Rattle.graphql_rule_errors.specs.Places.{Reports};
    ghost use Rattle.graphql_rules_document.specs.NoUnusedFragments.{no_unused_fragments_faults};
    ghost use Rattle.graphql_rules_document.specs.Lent.{fragment_of, operation_of};

    ghost says = { λ types operations fragments. no_unused_fragments_faults operations fragments };

    fn add_errors<'a, 't>(
        &self,
        alloc: Global,
        schema: &SchemaType<S>,
        operations: &[OperationScope<'a, 't, S>],
        index: &FragmentIndex<'_, 'a>,
        errors: &mut Items<RuleError>,
    ) -> Result<(), AllocError>
        ensures { let held = map operation_of operations.now in
            let fragments = map fragment_of index.now.fragments.now in
            OnOk result
            (Reports (no_unused_fragments_faults held fragments) errors.old errors.new) }
    {
        no_unused_fragments(alloc, operations, index, errors)
    }
}
