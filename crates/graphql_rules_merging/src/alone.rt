//! Sets in which no two fields of one response key stand together.

ghost use Rattle.std.specs.Prelude.{◌≡◌, IsTrue};
ghost use Rattle.std.specs.List.{All, list_any};
ghost use Rattle.std.specs.Str.{bytes_eq};
ghost use Rattle.graphql_bundles.specs.Groups.{key_at};
ghost use Rattle.graphql_rules_merging.specs.Alone.{SetStandsAlone, keys_differ};

use crate::fields::after;
use graphql_merging::{SetTable, WrittenField, WrittenSet};
use graphql_names::same_name;
use graphql_written_out::response_key;

/// So many fields of a set, at most, are compared each with each by their response keys.
const FEW: usize = 16;

/// The response key of a field.
fn key_of<'d, S, C>(field: &WrittenField<'d, '_, S, C>) -> &'d str
    ensures { result.now ≡ key_at field.now }
{
    response_key(&field.selected.field.item)
}

/// Whether one of the fields has this response key.
fn has_key<S, C>(fields: &[WrittenField<'_, '_, S, C>], key: &str) -> bool
    ensures { result ≡ list_any (λ field. bytes_eq key.now (key_at field)) fields.now }
{
    fields.iter().any(|field| same_name(key, key_of(field)))
}

/// Whether no two of the fields have one response key. In time that is quadratic in the fields.
fn have_different_keys<S, C>(fields: &[WrittenField<'_, '_, S, C>]) -> bool
    ensures { result ≡ keys_differ fields.now }
{
    for (place, field) in fields.iter().enumerate() {
        if has_key(after(fields, place), key_of(field)) {
            return false;
        }
    }
    true
}

/// Whether a set is known to stand alone: no fragment stands in it, and it has few fields, no two
/// of which have one response key.
fn stands_alone<S, C>(set: &WrittenSet<'_, '_, S, C>) -> bool
    ensures { IsTrue result → SetStandsAlone set.now }
{
    set.inner.is_empty() && set.fields.len() <= FEW && have_different_keys(set.fields.as_slice())
}

/// Whether each set of a table is known to stand alone. Then each two fields that stand together
/// are one field, and merge.
pub(crate) fn all_stand_alone<S, C>(table: &SetTable<'_, '_, S, C>) -> bool
    ensures { IsTrue result → All SetStandsAlone table.now.sets }
{
    for set in table.sets.as_slice() {
        if !stands_alone(set) {
            return false;
        }
    }
    true
}
