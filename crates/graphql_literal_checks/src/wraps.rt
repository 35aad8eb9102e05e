//! What the wraps of a type ask of a value (GraphQL October 2021, 3.11 List, 3.12 Non-Null).

ghost use Rattle.std.specs.Prelude.{◌≡◌, ℕ, List, MatchOption, Option, true, false};
ghost use Rattle.graphql_names.specs.TypeReference.{nullable};
ghost use Rattle.graphql_names.specs.declared.type_modifier.TypeModifier.{TypeModifier};
ghost use Rattle.graphql_literal_checks.specs.InputTypes as spec;
ghost use Rattle.graphql_literal_checks.specs.Judged.{IsListOf};
ghost use Rattle.std.specs.List.{list_all};

use graphql_names::TypeModifier;

/// Whether a list may have so many items: the size that is asked for, where one is.
pub(crate) fn allows(size: Option<usize>, count: usize) -> bool
    ensures { result ≡ spec.allows size count }
{
    match size {
        Some(size) => count == size,
        None => true,
    }
}

/// The size that lists of this wrap are to have, where it is not one.
fn other_size(wrap: TypeModifier) -> Option<usize>
    ensures { MatchOption result (spec.may_hold_one wrap ≡ true)
        (λ _. spec.may_hold_one wrap ≡ false) }
{
    match wrap {
        TypeModifier::List(Some(size)) if size != 1 => Some(size),
        _ => None,
    }
}

/// The first size of a list, from the named type outward, that is not one: a value that is no list
/// may stand as the one item of each list where there is none.
pub(crate) fn size_but_one(wraps: &[TypeModifier]) -> Option<usize>
    ensures { MatchOption result (list_all spec.may_hold_one wraps.now ≡ true)
        (λ _. list_all spec.may_hold_one wraps.now ≡ false) }
{
    for wrap in wraps {
        if let Some(size) = other_size(*wrap) {
            return Some(size);
        }
    }
    None
}

/// The wraps of the same type with `null`.
fn nullable(wraps: &[TypeModifier]) -> &[TypeModifier]
    ensures { result.now ≡ nullable wraps.now }
{
    match wraps.last() {
        Some(TypeModifier::NonNull) => &wraps[..wraps.len() - 1],
        _ => wraps,
    }
}

/// The size that the list is to have, where it is to have one, and the wraps of its items; `None`
/// where the type is no list.
pub(crate) fn list_within(wraps: &[TypeModifier]) -> Option<(Option<usize>, &[TypeModifier])>
    ensures { MatchOption result ((size : Option ℕ) (within : List TypeModifier)
        → IsListOf wraps.now size within → ⊥) (λ list. IsListOf wraps.now list.0 list.1.now) }
{
    let wraps = nullable(wraps);
    match wraps.last() {
        Some(TypeModifier::List(size)) => Some((*size, &wraps[..wraps.len() - 1])),
        _ => None,
    }
}
