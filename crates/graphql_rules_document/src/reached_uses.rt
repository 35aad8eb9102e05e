//! The uses of variables that an operation reaches.

ghost use Rattle.std.specs.Prelude.{◌≡◌, ◌++◌, [], Bool, OnOk, map, if◌then◌else◌};
ghost use Rattle.std.specs.List.{filter, flat_map};
ghost use Rattle.graphql_text.specs.Memory.{GivesBy};
ghost use Rattle.graphql_rules_document.specs.Lent.{fragment_of, operation_of, use_of};
ghost use Rattle.graphql_rules_document.specs.Reached.{uses_from};
ghost use Rattle.graphql_rules_document.specs.Scopes.{FragmentScope};

use crate::fragment_index::FragmentIndex;
use crate::reached_fragments::ReachedFragments;
use crate::scopes;
use crate::scopes::{OperationScope, Use};
use graphql_text::Items;
use std::alloc::{AllocError, Global};

impl ReachedFragments {
    /// The uses of variables in an operation and in the fragments that it reaches (GraphQL October
    /// 2021, 5.8.3 All Variable Uses Defined): first those of the operation, then those of the
    /// fragments, each in the order of the document. Searches anew. An error is want of memory.
    pub fn uses<'a, 't, S>(
        &mut self,
        alloc: Global,
        index: &FragmentIndex<'_, 'a>,
        operation: &OperationScope<'a, 't, S>,
    ) -> Result<Items<Use<'a>>, AllocError>
        ensures { GivesBy (map use_of) result
            (uses_from (map fragment_of index.now.fragments.now) (operation_of operation.now)) }
    {
        self.search(index, operation.spreads.as_slice())?;
        let mut uses = Items::new(alloc);
        uses.extend_from_slice(operation.uses.as_slice())?;
        self.add_uses(&mut uses, index)?;
        Ok(uses)
    }

    /// Adds the uses in the fragments that are marked.
    fn add_uses<'a>(
        &self,
        uses: &mut Items<Use<'a>>,
        index: &FragmentIndex<'_, 'a>,
    ) -> Result<(), AllocError>
        ensures { OnOk result ((test : FragmentScope → Bool)
            → self.now.marks
            ≡ map test
            (map fragment_of index.now.fragments.now)
            → map use_of uses.new
            ≡ map use_of uses.old
            ++ flat_map (λ f. f.uses) (filter test (map fragment_of index.now.fragments.now))) }
    {
        'fragments: for (place, fragment) in index.fragments().iter().enumerate() {
            add_if(uses, self.is_reached(place), fragment)?;
        }
        Ok(())
    }
}

/// Adds the uses in a fragment, if it is marked.
fn add_if<'a>(
    uses: &mut Items<Use<'a>>,
    is_marked: bool,
    fragment: &scopes::FragmentScope<'a>,
) -> Result<(), AllocError>
    ensures { OnOk result (map use_of uses.new
        ≡ map use_of uses.old
        ++ (if is_marked then map use_of fragment.now.uses else [])) }
{
    if is_marked {
        uses.extend_from_slice(fragment.uses.as_slice())?;
    }
    Ok(())
}
