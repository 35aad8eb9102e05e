//! Whether input values are the same wherever they stand.

ghost use Rattle.std.specs.Prelude.{◌≡◌, ◌↔◌, ◌+◌, ◌<◌, ◌≤◌, IsTrue, IfOk};
ghost use Rattle.std.specs.List.{sum_by};
ghost use Rattle.graphql_values.specs.Comparing.{IsByName, LeavesSame, left_count, lent};
ghost use Rattle.graphql_values.specs.Counts.{value_count};
ghost use Rattle.graphql_values.specs.SameValue.{SameValue, SameItems, SameFields, names};

use super::InputValue;
use graphql_text::{Items, Spanning, Text};
use std::alloc::{AllocError, Global};

/// Two values that have to be the same.
type Both<'a, S> = (&'a InputValue<S>, &'a InputValue<S>);

/// A field of an input object, lent.
type Field<'a, S> = &'a (Spanning<Text>, Spanning<InputValue<S>>);

impl<S: PartialEq> InputValue<S> {
    /// Whether the two are the same value, wherever they stand in a text: scalars by their own
    /// equality, enums and variables by name, lists item by item, input objects by their fields,
    /// whose order does not count (GraphQL October 2021, 2.9 Input Values): under each name the
    /// same values, in order. Takes time for each value once, and for each name once where the
    /// names of two objects come in the same order; else both are sorted. What is left to compare
    /// stands on the heap, so deep values take no more stack. An error is want of memory.
    pub fn unlocated_eq(&self, alloc: Global, other: &InputValue<S>) -> Result<bool, AllocError>
        ensures { IfOk result (λ same. IsTrue same ↔ SameValue S S.eq self.now other.now) }
    {
        let mut waiting = Items::new(alloc);
        waiting.push((self, other))?;
        'values: while let Some((left, right)) = waiting.pop() {
            if !same_form(left, right, &mut waiting)? {
                return Ok(false);
            }
        }
        Ok(true)
    }
}

/// Whether the two have one form, and are the same in what is not a value within them; the values
/// within them are left to compare.
fn same_form<'a, S: PartialEq>(
    left: &'a InputValue<S>,
    right: &'a InputValue<S>,
    waiting: &mut Items<Both<'a, S>>,
) -> Result<bool, AllocError>
    ensures leaves { IfOk result (λ stands.
        LeavesSame S.eq (SameValue S S.eq left.now right.now) waiting.old waiting.new stands) }
    ensures fewer { IfOk result
        (λ _. left_count waiting.new < left_count waiting.old + value_count left.now) }
{
    match left {
        InputValue::Null => Ok(right.is_null()),
        InputValue::Scalar(scalar) => match right {
            InputValue::Scalar(other) => Ok(scalar == other),
            _ => Ok(false),
        },
        InputValue::Enum(name) => match right {
            InputValue::Enum(other) => Ok(name.is(other.as_str())),
            _ => Ok(false),
        },
        InputValue::Variable(name) => match right {
            InputValue::Variable(other) => Ok(name.is(other.as_str())),
            _ => Ok(false),
        },
        InputValue::List(items) => match right {
            InputValue::List(others) => leave_items(items, others, waiting),
            _ => Ok(false),
        },
        InputValue::Object(pairs) => match right {
            InputValue::Object(others) => leave_fields(pairs, others, waiting),
            _ => Ok(false),
        },
    }
}

/// Whether there are equally many items, which are left to compare one by one.
fn leave_items<'a, S: PartialEq>(
    left: &'a Items<Spanning<InputValue<S>>>,
    right: &'a Items<Spanning<InputValue<S>>>,
    waiting: &mut Items<Both<'a, S>>,
) -> Result<bool, AllocError>
    ensures leaves { IfOk result (λ stands.
        LeavesSame S.eq (SameItems S S.eq left.now right.now) waiting.old waiting.new stands) }
    ensures count { IfOk result (λ _. left_count waiting.new ≤ left_count waiting.old
        + sum_by (λ x. value_count x.item) left.now) }
{
    if left.len() != right.len() {
        return Ok(false);
    }
    let others = right.as_slice();
    for (index, part) in left.as_slice().iter().enumerate() {
        waiting.push((&part.item, &others[index].item))?;
    }
    Ok(true)
}

/// Whether there is a value on the right for each on the left, the k-th of a name for the k-th of
/// it, and no other; these are left to compare (GraphQL October 2021, 2.9.8 Input Object Values:
/// fields are unordered).
fn leave_fields<'a, S: PartialEq>(
    left: &'a Items<(Spanning<Text>, Spanning<InputValue<S>>)>,
    right: &'a Items<(Spanning<Text>, Spanning<InputValue<S>>)>,
    waiting: &mut Items<Both<'a, S>>,
) -> Result<bool, AllocError>
    ensures leaves { IfOk result (λ stands.
        LeavesSame S.eq (SameFields S S.eq left.now right.now) waiting.old waiting.new stands) }
    ensures count { IfOk result (λ _. left_count waiting.new ≤ left_count waiting.old
        + sum_by (λ p. value_count p.1.item) left.now) }
{
    let left = lent_fields(left)?;
    let right = lent_fields(right)?;
    if have_same_names(&left, &right) {
        leave_in_order(&left, &right, waiting)
    } else {
        leave_by_name(left, right, waiting)
    }
}

/// The fields, lent.
fn lent_fields<S>(
    fields: &Items<(Spanning<Text>, Spanning<InputValue<S>>)>,
) -> Result<Items<Field<'_, S>>, AllocError>
    ensures { IfOk result (λ all. lent all ≡ fields.now) }
{
    let mut all = Items::with_capacity(*fields.allocator(), fields.len())?;
    for pair in fields.as_slice() {
        all.push(pair)?;
    }
    Ok(all)
}

/// Whether the same names stand in the same order.
fn have_same_names<S>(left: &Items<Field<'_, S>>, right: &Items<Field<'_, S>>) -> bool
    ensures { IsTrue result ↔ (names (lent left.now) ≡ names (lent right.now)) }
{
    let others = right.as_slice();
    if left.len() != others.len() {
        return false;
    }
    for (index, pair) in left.as_slice().iter().enumerate() {
        if !pair.0.item.is(others[index].0.item.as_str()) {
            return false;
        }
    }
    true
}

/// Leaves the values of fields whose names stand in the same order to be compared, place by place.
fn leave_in_order<'a, S: PartialEq>(
    left: &Items<Field<'a, S>>,
    right: &Items<Field<'a, S>>,
    waiting: &mut Items<Both<'a, S>>,
) -> Result<bool, AllocError>
    requires { names (lent left.now) ≡ names (lent right.now) }
    ensures leaves { IfOk result (λ stands. LeavesSame S.eq
        (SameFields S S.eq (lent left.now) (lent right.now)) waiting.old waiting.new stands) }
    ensures count { IfOk result (λ _. left_count waiting.new ≤ left_count waiting.old
        + sum_by (λ p. value_count p.1.item) (lent left.now)) }
{
    let others = right.as_slice();
    for (index, pair) in left.as_slice().iter().enumerate() {
        waiting.push((&pair.1.item, &others[index].1.item))?;
    }
    Ok(true)
}

/// Whether the fields have the same names, each as often, in any order: those of the same name and
/// of the same rank among those of its name are left to compare.
fn leave_by_name<'a, S: PartialEq>(
    left: Items<Field<'a, S>>,
    right: Items<Field<'a, S>>,
    waiting: &mut Items<Both<'a, S>>,
) -> Result<bool, AllocError>
    ensures leaves { IfOk result (λ stands. LeavesSame S.eq
        (SameFields S S.eq (lent left.entry) (lent right.entry)) waiting.old waiting.new stands) }
    ensures count { IfOk result (λ _. left_count waiting.new ≤ left_count waiting.old
        + sum_by (λ p. value_count p.1.item) (lent left.entry)) }
{
    let left = by_name(left)?;
    let right = by_name(right)?;
    if have_same_names(&left, &right) {
        leave_in_order(&left, &right, waiting)
    } else {
        Ok(false)
    }
}

/// The fields in the order of their names by bytes, those of one name in the order that they had.
fn by_name<'a, S>(fields: Items<Field<'a, S>>) -> Result<Items<Field<'a, S>>, AllocError>
    ensures { IfOk result (λ sorted. IsByName (lent fields.entry) (lent sorted)) }
{
    let mut sorted = fields.into_vec();
    sorted.sort_by(|one, other| one.0.item.as_str().cmp(other.0.item.as_str()))?;
    Ok(Items::from_vec(sorted))
}
