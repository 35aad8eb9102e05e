//! Letting the values within a value go, one by one.
//!
//! What is left is always one value, so that neither a stack nor a list is needed for what is still
//! to go. The last part of it is taken out, and the others are put into that part, in the place of
//! a value that has no parts, which goes. The values gone through on the way there stand first in
//! one another from then on, and only a part behind the first is gone through. So each value is
//! gone through once.

ghost use Rattle.std.specs.Prelude.{◌≡◌, ◌+◌, MatchOption};
ghost use Rattle.graphql_values.specs.Counts.{value_count};

use super::InputValue;
use std::mem;

impl<S: Drop> InputValue<S> {
    /// Lets one of the values go that stand in this one, itself among them, and gives the others as
    /// one value; `None` where there is no other. Takes no memory.
    pub(super) fn let_one_go(self) -> Option<InputValue<S>>
        ensures { MatchOption result (value_count self ≡ 1)
            (λ others. value_count self ≡ value_count others + 1) }
    {
        match self {
            InputValue::Null | InputValue::Scalar(_) => None,
            InputValue::Enum(_) | InputValue::Variable(_) => None,
            InputValue::List(mut items) => match items.pop() {
                None => {
                    items.into_vec().destroy_empty();
                    None
                }
                Some(last) if items.is_empty() => {
                    items.into_vec().destroy_empty();
                    Some(last.item)
                }
                Some(last) => Some(last.item.inside_out(InputValue::List(items))),
            },
            InputValue::Object(mut pairs) => match pairs.pop() {
                None => {
                    pairs.into_vec().destroy_empty();
                    None
                }
                Some((_, last)) if pairs.is_empty() => {
                    pairs.into_vec().destroy_empty();
                    Some(last.item)
                }
                Some((_, last)) => Some(last.item.inside_out(InputValue::Object(pairs))),
            },
        }
    }

    /// Lets the value go that is met first without parts, from this one down by first parts, and
    /// gives the others and `rest` as one value: the list or object that held it comes outermost,
    /// and each one on the way there holds in its first place what was around it; this value holds
    /// `rest`. Takes no memory.
    fn inside_out(mut self, rest: InputValue<S>) -> InputValue<S>
        ensures { value_count self + value_count rest ≡ value_count result + 1 }
    {
        let mut around = rest;
        'inwards: loop {
            match self {
                InputValue::Null | InputValue::Scalar(_) => return around,
                InputValue::Enum(_) | InputValue::Variable(_) => return around,
                InputValue::List(mut items) => {
                    if items.is_empty() {
                        items.into_vec().destroy_empty();
                        return around;
                    }
                    self = mem::replace(&mut items[0].item, around);
                    around = InputValue::List(items);
                }
                InputValue::Object(mut pairs) => {
                    if pairs.is_empty() {
                        pairs.into_vec().destroy_empty();
                        return around;
                    }
                    self = mem::replace(&mut pairs[0].1.item, around);
                    around = InputValue::Object(pairs);
                }
            }
        }
    }
}
