//! What integers stand for.

ghost use Rattle.std.specs.Prelude.{◌≡◌, ◌==◌, slice_index};
ghost use Rattle.graphql_scalars.specs.IntValue.{int_value};

/// Whether a text begins with `+`, which the numbers of GraphQL do not.
fn begins_with_plus(text: &str) -> bool
    ensures { result ≡ (slice_index text.now 0 == 43) }
{
    match text.as_bytes() {
        [first, ..] => *first == b'+',
        [] => false,
    }
}

/// The number that a minus or none and decimal digits write, if it is one of 32 bits (GraphQL
/// October 2021, 2.9.1 Int Value, 3.5.1 Int).
pub(crate) fn int_value(text: &str) -> Option<i32>
    ensures { result ≡ int_value text.now }
{
    if begins_with_plus(text) {
        return None;
    }
    match i32::from_str_radix(text, 10) {
        Ok(value) => Some(value),
        Err(_) => None,
    }
}
