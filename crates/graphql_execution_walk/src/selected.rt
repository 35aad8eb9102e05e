//! What is selected from the objects of an answer.

ghost use Rattle.std.specs.Prelude.{◌≡◌, IfOk, List};
ghost use Rattle.graphql_tree.specs.declared.document.Fragment.{Fragment};
ghost use Rattle.graphql_execution_walk.specs.Sets.{kept_sets, set_given, sets_of};

use graphql_collected::CollectedField;
use graphql_look_ahead::Selected;
use graphql_text::Items;
use graphql_tree::Selection;
use std::alloc::{AllocError, Global};

/// What is selected from the items of a list, kept while the list is in progress.
#[derive(Drop)]
pub(crate) enum KeptSelected<'d, 'a, S> {
    /// The selections of a set.
    Set(&'d [Selection<'a, S>]),

    /// Those of the sets of these fields together.
    Below(Items<CollectedField<'d, 'a, S>>),
}

/// The selections of a set that is given, none where no set is.
pub(crate) fn selections_of<'s, 'a, S>(
    set: Option<&'s [Selection<'a, S>]>,
) -> &'s [Selection<'a, S>]
    ensures { result.now ≡ set_given set.entry }
{
    match set {
        Some(set) => set,
        None => &[],
    }
}

/// The fields, lent once more. An error is want of memory.
fn lent_again<'d, 'a, S>(
    alloc: Global,
    fields: &[CollectedField<'d, 'a, S>],
) -> Result<Items<CollectedField<'d, 'a, S>>, AllocError>
    ensures { IfOk result (λ xs. xs ≡ fields.now) }
{
    let mut these = Items::with_capacity(alloc, fields.len())?;
    for occurrence in fields {
        these.push(*occurrence)?;
    }
    Ok(these)
}

impl<'d, 'a, S> KeptSelected<'d, 'a, S> {
    /// Keeps what is selected. An error is want of memory.
    pub fn new(
        alloc: Global,
        selected: Selected<'_, 'd, 'a, S>,
    ) -> Result<KeptSelected<'d, 'a, S>, AllocError>
        ensures { IfOk result (λ kept. (fragments : List (Fragment S))
            → kept_sets fragments kept ≡ sets_of fragments selected.entry) }
    {
        match selected {
            Selected::Set(set) => Ok(KeptSelected::Set(set)),
            Selected::Below(fields) => Ok(KeptSelected::Below(lent_again(alloc, fields)?)),
        }
    }

    /// What is selected, lent.
    pub fn lent(&self) -> Selected<'_, 'd, 'a, S>
        ensures { (fragments : List (Fragment S))
            → sets_of fragments result ≡ kept_sets fragments self.now }
    {
        match *self {
            KeptSelected::Set(set) => Selected::Set(set),
            KeptSelected::Below(ref fields) => Selected::Below(fields.as_slice()),
        }
    }
}
