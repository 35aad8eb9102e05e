//! Fragments that spread themselves (GraphQL October 2021, 5.5.2.2 Fragment Spreads Must Not Form
//! Cycles).

ghost use Rattle.std.specs.Prelude.{◌≡◌, OnOk, map, slice_get, Some, false};
ghost use Rattle.graphql_rules_document.specs.Components.{IsComponents};
ghost use Rattle.graphql_rules_document.specs.Lent.{fragment_of, spread_of};
ghost use Rattle.graphql_rules_document.specs.NoFragmentCycles.{cycle_at, cycles_in};
ghost use Rattle.graphql_rules_document.specs.NoFragmentCycles.{no_fragment_cycles_faults};
ghost use Rattle.graphql_rule_errors.specs.Places.{Reports};

use crate::document_rule::DocumentRule;
use crate::once::Once;
use crate::{
    FragmentComponents, FragmentIndex, FragmentScope, OperationScope, ReachedFragments, Spread,
};
use graphql_rule_errors::{RuleError, report};
use graphql_schema::{SchemaScalar, SchemaType};
use graphql_text::Items;
use std::alloc::{AllocError, Global};

/// No fragment reaches itself by spreads (GraphQL October 2021, 5.5.2.2 Fragment Spreads Must Not
/// Form Cycles).
///
/// An error names the start of a spread whose target is the fragment in which it stands, or reaches
/// it.
#[derive(Drop)]
pub struct NoFragmentCycles;

/// The rule, as a visitor.
pub fn factory() -> Once<NoFragmentCycles>
    ensures { result.is_asked ≡ false }
{
    Once::new(NoFragmentCycles)
}

/// Adds an error for each spread in a fragment whose target is that fragment or reaches it, where
/// the spread begins. Takes time in proportion to the fragments and their spreads. An error of the
/// call is want of memory.
pub fn no_fragment_cycles(
    alloc: Global,
    index: &FragmentIndex<'_, '_>,
    errors: &mut Items<RuleError>,
) -> Result<(), AllocError>
    ensures { OnOk result (Reports (no_fragment_cycles_faults
        (map fragment_of index.now.fragments.now)) errors.old errors.new) }
{
    let components = FragmentComponents::new(alloc, index)?;
    let mut search = ReachedFragments::new(alloc);
    'fragments: for (place, fragment) in index.fragments().iter().enumerate() {
        report_cycles(
            alloc,
            &components,
            &mut search,
            index,
            place,
            fragment,
            errors,
        )?;
    }
    Ok(())
}

/// The errors for the spreads in the fragment at `place`.
fn report_cycles(
    alloc: Global,
    components: &FragmentComponents,
    search: &mut ReachedFragments,
    index: &FragmentIndex<'_, '_>,
    place: usize,
    fragment: &FragmentScope<'_>,
    errors: &mut Items<RuleError>,
) -> Result<(), AllocError>
    ensures { OnOk result (IsComponents index.now.fragments.now components.now
        → slice_get index.now.fragments.now place ≡ Some fragment.now → Reports (cycles_in (map
        fragment_of index.now.fragments.now) (fragment_of fragment.now)) errors.old errors.new) }
{
    'spreads: for spread in fragment.spreads.as_slice() {
        report_cycle(
            alloc, components, search, index, place, fragment, spread, errors,
        )?;
    }
    Ok(())
}

/// The error, if the target of the spread reaches the fragment at `place`.
fn report_cycle(
    alloc: Global,
    components: &FragmentComponents,
    search: &mut ReachedFragments,
    index: &FragmentIndex<'_, '_>,
    place: usize,
    fragment: &FragmentScope<'_>,
    spread: &Spread<'_>,
    errors: &mut Items<RuleError>,
) -> Result<(), AllocError>
    ensures { OnOk result
        (IsComponents index.now.fragments.now components.now
        → slice_get index.now.fragments.now
        place ≡ Some fragment.now → Reports (cycle_at (map fragment_of index.now.fragments.now)
        (fragment_of fragment.now) (spread_of spread.now)) errors.old errors.new) }
{
    let is_cycle = components.leads_back(index, search, place, spread)?;
    if !is_cycle {
        return Ok(());
    }
    let name = spread.name;
    let message = format!(in alloc; "Cannot spread fragment \"{name}\"")?;
    report(alloc, errors, message, &[spread.place])
}

impl<S: SchemaScalar> DocumentRule<S> for NoFragmentCycles {
    ghost use Rattle.std.specs.Prelude.{OnOk, map};
    ghost use Rattle.graphql_rule_errors.specs.Places.{Reports};
    ghost use Rattle.graphql_rules_document.specs.NoFragmentCycles.{no_fragment_cycles_faults};
    ghost use Rattle.graphql_rules_document.specs.Lent.{fragment_of};

    ghost says = { λ types operations fragments. no_fragment_cycles_faults fragments };

    fn add_errors<'a, 't>(
        &self,
        alloc: Global,
        schema: &SchemaType<S>,
        operations: &[OperationScope<'a, 't, S>],
        index: &FragmentIndex<'_, 'a>,
        errors: &mut Items<RuleError>,
    ) -> Result<(), AllocError>
        ensures { OnOk result (Reports (no_fragment_cycles_faults
            (map fragment_of index.now.fragments.now)) errors.old errors.new) }
    {
        no_fragment_cycles(alloc, index, errors)
    }
}
