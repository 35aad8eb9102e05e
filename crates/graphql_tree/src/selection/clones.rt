//! Clones of selections, and of what holds them.

ghost use Rattle.std.specs.Prelude.{◌≡◌};
ghost use Rattle.graphql_text.specs.Memory.{Gives};

use super::{Field, FragmentSpread, InlineFragment, Selection};
use crate::directive::copy_of_directives;
use graphql_text::{Items, Spanning};
use graphql_values::ScalarValue;
use std::alloc::AllocError;

impl<'a, S: ScalarValue + Drop> Clone for Selection<'a, S> {
    ghost is_clone = { λ selection copy. copy ≡ selection };

    /// The same selection once more. Takes stack for each level that selection sets and values
    /// nest. An error is want of memory.
    fn clone(&self) -> Result<Selection<'a, S>, AllocError> {
        copy_of(self)
    }
}

impl<'a, S: ScalarValue + Drop> Clone for Field<'a, S> {
    ghost is_clone = { λ field copy. copy ≡ field };

    /// The same field once more. Takes stack for each level that selection sets and values nest. An
    /// error is want of memory.
    fn clone(&self) -> Result<Field<'a, S>, AllocError> {
        copy_of_field(self)
    }
}

impl<'a, S: ScalarValue + Drop> Clone for InlineFragment<'a, S> {
    ghost is_clone = { λ inline copy. copy ≡ inline };

    /// The same fragment once more. Takes stack for each level that selection sets and values nest.
    /// An error is want of memory.
    fn clone(&self) -> Result<InlineFragment<'a, S>, AllocError> {
        copy_of_inline(self)
    }
}

impl<'a, S: ScalarValue + Drop> Clone for FragmentSpread<'a, S> {
    ghost is_clone = { λ spread copy. copy ≡ spread };

    /// The same spread once more. Takes stack for each level that a value nests. An error is want
    /// of memory.
    fn clone(&self) -> Result<FragmentSpread<'a, S>, AllocError> {
        let name = self.name.clone()?;
        let directives = copy_of_directives(&self.directives)?;
        Ok(FragmentSpread { name, directives })
    }
}

/// The same selection once more.
#[cycle(copies)]
fn copy_of<'a, S: ScalarValue + Drop>(
    selection: &Selection<'a, S>,
) -> Result<Selection<'a, S>, AllocError>
    ensures { Gives result selection.now }
{
    match selection {
        Selection::Field(field) => {
            let item = copy_of_field(&field.item)?;
            let span = field.span;
            Ok(Selection::Field(Spanning { item, span }))
        }
        Selection::FragmentSpread(spread) => Ok(Selection::FragmentSpread(spread.clone()?)),
        Selection::InlineFragment(inline) => {
            let item = copy_of_inline(&inline.item)?;
            let span = inline.span;
            Ok(Selection::InlineFragment(Spanning { item, span }))
        }
    }
}

/// The same field once more.
#[cycle(copies)]
fn copy_of_field<'a, S: ScalarValue + Drop>(
    field: &Field<'a, S>,
) -> Result<Field<'a, S>, AllocError>
    ensures { Gives result field.now }
{
    match &field.selection_set {
        Some(set) => field_with(field, Some(copy_of_set(set)?)),
        None => field_with(field, None),
    }
}

/// The same inline fragment once more.
#[cycle(copies)]
fn copy_of_inline<'a, S: ScalarValue + Drop>(
    inline: &InlineFragment<'a, S>,
) -> Result<InlineFragment<'a, S>, AllocError>
    ensures { Gives result inline.now }
{
    inline_with(inline, copy_of_set(&inline.selection_set)?)
}

/// The same selections once more.
#[cycle(copies)]
fn copy_of_set<'a, S: ScalarValue + Drop>(
    set: &Items<Selection<'a, S>>,
) -> Result<Items<Selection<'a, S>>, AllocError>
    ensures { Gives result set.now }
{
    let mut copies = Items::with_capacity(*set.allocator(), set.len())?;
    for selection in set.as_slice() {
        copies.push(copy_of(selection)?)?;
    }
    Ok(copies)
}

/// The same field once more, but of this set.
fn field_with<'a, S: ScalarValue + Drop>(
    field: &Field<'a, S>,
    selection_set: Option<Items<Selection<'a, S>>>,
) -> Result<Field<'a, S>, AllocError>
    ensures { Gives result (record field.now { selection_set = selection_set.entry }) }
{
    let alias = field.alias.clone()?;
    let name = field.name.clone()?;
    let arguments = field.arguments.clone()?;
    let directives = copy_of_directives(&field.directives)?;
    Ok(Field {
        alias,
        name,
        arguments,
        directives,
        selection_set,
    })
}

/// The same inline fragment once more, but of this set.
fn inline_with<'a, S: ScalarValue + Drop>(
    inline: &InlineFragment<'a, S>,
    selection_set: Items<Selection<'a, S>>,
) -> Result<InlineFragment<'a, S>, AllocError>
    ensures { Gives result (record inline.now { selection_set = selection_set.entry }) }
{
    let type_condition = inline.type_condition.clone()?;
    let directives = copy_of_directives(&inline.directives)?;
    Ok(InlineFragment {
        type_condition,
        directives,
        selection_set,
    })
}
