//! Whether types have the same wraps.

ghost use Rattle.std.specs.Prelude.{◌≡◌, ◌↔◌, IsTrue, map};
ghost use Rattle.graphql_merging.specs.Merging.{is_list, SameWraps};

use graphql_names::TypeModifier;

/// Whether the wrap is a list.
fn is_list(wrap: &TypeModifier) -> bool
    ensures { result ≡ is_list wrap.now }
{
    match wrap {
        TypeModifier::List(_) => true,
        TypeModifier::NonNull => false,
    }
}

/// Whether the wraps are the same lists and non-nulls; the sizes of lists do not count.
pub(crate) fn same_wraps(left: &[TypeModifier], right: &[TypeModifier]) -> bool
    ensures { IsTrue result ↔ SameWraps left.now right.now }
{
    if left.len() != right.len() {
        return false;
    }
    for (index, wrap) in left.iter().enumerate() {
        if is_list(wrap) != is_list(&right[index]) {
            return false;
        }
    }
    true
}
