//! Letting the values within a value go, one by one.
//!
//! What is left is always one value, so that neither a stack nor a list is needed for what is still
//! to go. The last part of it is taken out, and the others are put into that part, in the place of
//! a value that has no parts, which goes. The values gone through on the way there stand first in
//! one another from then on, and only a part behind the first is gone through. So each value is
//! gone through once.

ghost use Rattle.std.specs.Prelude.{◌≡◌, ◌+◌, MatchOption};
ghost use Rattle.graphql_output_values.specs.Counts.{value_count};

use super::Value;
use crate::object::Object;
use std::mem;

impl<S: Drop> Value<S> {
    /// Lets one of the values go that stand in this one, itself among them, and gives the others as
    /// one value; `None` where there is no other. Takes no memory.
    pub(super) fn let_one_go(self) -> Option<Value<S>>
        ensures { MatchOption result (value_count self ≡ 1)
            (λ others. value_count self ≡ value_count others + 1) }
    {
        match self {
            Value::Null => None,
            Value::Scalar(_) => None,
            Value::List(mut items) => match items.pop() {
                None => {
                    items.into_vec().destroy_empty();
                    None
                }
                Some(last) if items.is_empty() => {
                    items.into_vec().destroy_empty();
                    Some(last)
                }
                Some(last) => Some(last.inside_out(Value::List(items))),
            },
            Value::Object(object) => {
                let mut fields = object.fields;
                match fields.pop() {
                    None => {
                        fields.into_vec().destroy_empty();
                        None
                    }
                    Some((_, last)) if fields.is_empty() => {
                        fields.into_vec().destroy_empty();
                        Some(last)
                    }
                    Some((_, last)) => Some(last.inside_out(Value::Object(Object { fields }))),
                }
            }
        }
    }

    /// Lets the value go that is met first without parts, from this one down by first parts, and
    /// gives the others and `rest` as one value: the list or object that held it comes outermost,
    /// and each one on the way there holds in its first place what was around it; this value holds
    /// `rest`. Takes no memory.
    fn inside_out(mut self, rest: Value<S>) -> Value<S>
        ensures { value_count self + value_count rest ≡ value_count result + 1 }
    {
        let mut around = rest;
        'inwards: loop {
            match self {
                Value::Null => return around,
                Value::Scalar(_) => return around,
                Value::List(mut items) => {
                    if items.is_empty() {
                        items.into_vec().destroy_empty();
                        return around;
                    }
                    self = mem::replace(&mut items[0], around);
                    around = Value::List(items);
                }
                Value::Object(object) => {
                    let mut fields = object.fields;
                    if fields.is_empty() {
                        fields.into_vec().destroy_empty();
                        return around;
                    }
                    self = mem::replace(&mut fields[0].1, around);
                    around = Value::Object(Object { fields });
                }
            }
        }
    }
}
