//! Names that stand more than once among fragments (GraphQL October 2021, 5.5.1.1 Fragment Name
//! Uniqueness).

ghost use Rattle.std.specs.Prelude.{◌≡◌, OnOk, false, map};
ghost use Rattle.graphql_text.specs.Memory.{GivesBy};
ghost use Rattle.graphql_rule_errors.specs.Places.{Reports};
ghost use Rattle.graphql_rule_errors.specs.Repeats.{mention_lent};
ghost use Rattle.graphql_rules_document.specs.UniqueFragmentNames.{fragment_mention};
ghost use Rattle.graphql_rules_document.specs.UniqueFragmentNames.{unique_fragment_names_faults};
ghost use Rattle.graphql_rules_document.specs.Lent.{fragment_of};

use crate::document_rule::DocumentRule;
use crate::once::Once;
use crate::{FragmentIndex, FragmentScope, OperationScope};
use graphql_rule_errors::{LentMention, RuleError, report_repeats};
use graphql_schema::{SchemaScalar, SchemaType};
use graphql_text::Items;
use std::alloc::{AllocError, Global};

/// No two fragments have one name (GraphQL October 2021, 5.5.1.1 Fragment Name Uniqueness).
///
/// An error names where the first fragment of the name begins, and where a later one does.
#[derive(Drop)]
pub struct UniqueFragmentNames;

/// The rule, as a visitor.
pub fn factory() -> Once<UniqueFragmentNames>
    ensures { result.is_asked ≡ false }
{
    Once::new(UniqueFragmentNames)
}

/// Adds an error for each fragment whose name an earlier one has: where the first of that name
/// begins, and where it does. An error of the call is want of memory.
pub fn unique_fragment_names(
    alloc: Global,
    fragments: &[FragmentScope<'_>],
    errors: &mut Items<RuleError>,
) -> Result<(), AllocError>
    ensures { OnOk result (Reports (unique_fragment_names_faults (map fragment_of fragments.now))
        errors.old errors.new) }
{
    let mentions = fragment_names(alloc, fragments)?;
    report_repeats(alloc, errors, "fragment", mentions.as_slice())
}

/// The names of fragments, where they begin.
fn fragment_names<'a>(
    alloc: Global,
    fragments: &[FragmentScope<'a>],
) -> Result<Items<LentMention<'a>>, AllocError>
    ensures { GivesBy (map mention_lent) result
        (map fragment_mention (map fragment_of fragments.now)) }
{
    let mut mentions = Items::with_capacity(alloc, fragments.len())?;
    'fragments: for fragment in fragments {
        mentions.push(LentMention {
            name: fragment.name,
            place: fragment.place,
        })?;
    }
    Ok(mentions)
}

impl<S: SchemaScalar> DocumentRule<S> for UniqueFragmentNames {
    ghost use Rattle.std.specs.Prelude.{OnOk, map};
    ghost use Rattle.graphql_rule_errors.specs.Places.{Reports};
    ghost use Rattle.graphql_rules_document.specs.UniqueFragmentNames.{unique_fragment_names_faults};
    ghost use Rattle.graphql_rules_document.specs.Lent.{fragment_of};

    ghost says = { λ types operations fragments. unique_fragment_names_faults fragments };

    fn add_errors<'a, 't>(
        &self,
        alloc: Global,
        schema: &SchemaType<S>,
        operations: &[OperationScope<'a, 't, S>],
        index: &FragmentIndex<'_, 'a>,
        errors: &mut Items<RuleError>,
    ) -> Result<(), AllocError>
        ensures { OnOk result (Reports (unique_fragment_names_faults
            (map fragment_of index.now.fragments.now)) errors.old errors.new) }
    {
        unique_fragment_names(alloc, index.fragments(), errors)
    }
}
