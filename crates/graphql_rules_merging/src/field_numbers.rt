//! Numbers of fields, by which two of them are compared.

ghost use Rattle.std.specs.Prelude.{◌≡◌, ◌||◌, List, get_or, not, IsTrue};
ghost use Rattle.std.specs.Str.{bytes_eq};
ghost use Rattle.graphql_tree.specs.declared.document.Fragment.{Fragment};
ghost use Rattle.graphql_merging.specs.Merging.{apart};
ghost use Rattle.graphql_merging.specs.Selected.{member_of};
ghost use Rattle.graphql_bundles.specs.Groups as groups;
ghost use Rattle.graphql_rules_merging.specs.Classes.{TellKeys, TellParents, unnumbered};

use graphql_merging::{WrittenField, is_excused};
use graphql_written_out::response_key;

/// The numbers of a field: fields of one key, one class or one parent have the same. Zero tells
/// nothing.
#[derive(Clone, Copy)]
pub(crate) struct FieldNumbers {
    /// One more than the place of the response key among all of them.
    pub(crate) key: usize,

    /// One more than the place of the first field of its class: of those that have one response
    /// key, one name with arguments and one shape.
    pub(crate) class: usize,

    /// One more than the place of the parent's name among those of object types; none for a parent
    /// that is no object type.
    pub(crate) parent: usize,
}

/// The numbers of the field that has an own set of this number.
pub(crate) fn numbers_at(numbers: &[FieldNumbers], own: usize) -> FieldNumbers
    ensures { result ≡ get_or numbers.now own unnumbered }
{
    match numbers.get(own) {
        Some(known) => *known,
        None => FieldNumbers {
            key: 0,
            class: 0,
            parent: 0,
        },
    }
}

/// Whether two fields of these numbers are of one class.
pub(crate) fn are_of_one_class(one: FieldNumbers, other: FieldNumbers) -> bool
    ensures { IsTrue result → (one.class ≡ other.class) × (one.class ≡ 0 → ⊥) }
{
    one.class != 0 && one.class == other.class
}

/// Whether two fields of these numbers have different response keys. Texts are compared only where
/// one of them has no number.
pub(crate) fn have_other_keys<S, C>(
    one: FieldNumbers,
    other: FieldNumbers,
    left: &WrittenField<'_, '_, S, C>,
    right: &WrittenField<'_, '_, S, C>,
) -> bool
    requires { TellKeys one other left.now right.now }
    ensures { result ≡ not (bytes_eq (groups.key_at left.now) (groups.key_at right.now)) }
{
    if one.key != 0 && other.key != 0 {
        return one.key != other.key;
    }
    response_key(&left.selected.field.item) != response_key(&right.selected.field.item)
}

/// Whether of two fields of these numbers shapes alone are asked. Names of parents are compared
/// only where both are object types and one of them has no number.
pub(crate) fn are_excused<S, C>(
    around: bool,
    one: FieldNumbers,
    other: FieldNumbers,
    left: &WrittenField<'_, '_, S, C>,
    right: &WrittenField<'_, '_, S, C>,
) -> bool
    requires { TellParents one other left.now right.now }
    ensures { (fragments : List (Fragment S)) → result
        ≡ (around || apart (member_of fragments left.now.selected)
        (member_of fragments right.now.selected)) }
{
    if one.parent != 0 && other.parent != 0 {
        return around || one.parent != other.parent;
    }
    is_excused(around, &left.selected, &right.selected)
}
