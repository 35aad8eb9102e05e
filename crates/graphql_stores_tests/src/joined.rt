//! Data that differ under a key, and three data joined.

ghost use Rattle.std.specs.Prelude.{◌≡◌, false, IfOk};
ghost use Rattle.graphql_output_values.specs.DistinctKeys.{HasDistinctKeysThroughout};
ghost use Rattle.graphql_output_values.specs.declared.value.Value.{Value};
ghost use Rattle.graphql_scalars.specs.declared.default_scalar.DefaultScalarValue.{
  DefaultScalarValue,
};
ghost use Rattle.graphql_joined_data.specs.Joining.{AreOneWhereEqual, HaveNoJoin};
ghost use Rattle.graphql_stores_tests.specs.Joined.{GivesTwice, IsJoinOfThree, TellsKey};
ghost use Rattle.graphql_stores_tests.specs.Joined.{object_with};

use graphql_joined_data::laws::{default_scalars_are_one_where_equal, differing_have_no_join};
use graphql_joined_data::{JoinFault, join_data};
use graphql_joins::laws::joins_are_one;
use graphql_output_values::laws::distinct_by_forms;
use graphql_output_values::{Key, Object, ScalarValue, Value};
use graphql_text::Text;
use graphql_values::DefaultScalarValue;
use std::alloc::{AllocError, Global};

type Data = Value<DefaultScalarValue>;

/// The object that has this scalar under this key. An error is want of memory.
fn object_of(alloc: Global, key: &Text, scalar: &DefaultScalarValue) -> Result<Data, AllocError>
    ensures is { IfOk result (λ made. made ≡ object_with key.now scalar.now) }
    ensures distinct { IfOk result HasDistinctKeysThroughout }
{
    distinct_by_forms::<DefaultScalarValue>();
    let mut object = Object::with_capacity(alloc, 1)?;
    let value = Value::Scalar(scalar.clone()?);
    let _ = object.add_field(Key::from_str(alloc, key.as_str())?, value)?;
    Ok(Value::Object(object))
}

/// Joins two objects that have these scalars under this key, and nothing else. Where the scalars
/// are not equal there is no join, and it is told that the two differ under the key, or memory ran
/// out.
pub fn differ_under(
    alloc: Global,
    key: &Text,
    one: &DefaultScalarValue,
    other: &DefaultScalarValue,
) -> Result<Data, JoinFault>
    ensures told { ⟦<DefaultScalarValue as PartialEq>⟧.eq one.now other.now ≡ false
        → TellsKey key.now result }
    ensures none { ⟦<DefaultScalarValue as PartialEq>⟧.eq one.now other.now ≡ false
        → HaveNoJoin (object_with key.now one.now) (object_with key.now other.now) }
{
    differing_have_no_join::<DefaultScalarValue>();
    default_scalars_are_one_where_equal();
    let first = object_of(alloc, key, one)?;
    let second = object_of(alloc, key, other)?;
    join_data(alloc, &first, &second)
}

/// The join of three data, once with the first two joined first, and once with the last two. What
/// is their join either way, both are; an error is then want of memory.
pub fn joined_both_ways<S: ScalarValue + Drop>(
    alloc: Global,
    first: &Value<S>,
    second: &Value<S>,
    third: &Value<S>,
) -> Result<(Value<S>, Value<S>), JoinFault>
    requires first_distinct { HasDistinctKeysThroughout first.now }
    requires second_distinct { HasDistinctKeysThroughout second.now }
    requires third_distinct { HasDistinctKeysThroughout third.now }
    ensures { AreOneWhereEqual S.eq → (whole : Value S)
        → IsJoinOfThree first.now second.now third.now whole → GivesTwice whole result }
{
    joins_are_one::<S>();
    let front = join_data(alloc, first, second)?;
    let one = join_data(alloc, &front, third)?;
    let back = join_data(alloc, second, third)?;
    let other = join_data(alloc, first, &back)?;
    Ok((one, other))
}

/// The same of data of the default scalars, of which equal ones are one.
pub fn join_of_three(
    alloc: Global,
    first: &Data,
    second: &Data,
    third: &Data,
) -> Result<(Data, Data), JoinFault>
    requires first_distinct { HasDistinctKeysThroughout first.now }
    requires second_distinct { HasDistinctKeysThroughout second.now }
    requires third_distinct { HasDistinctKeysThroughout third.now }
    ensures { (whole : Value DefaultScalarValue)
        → IsJoinOfThree first.now second.now third.now whole → GivesTwice whole result }
{
    default_scalars_are_one_where_equal();
    joined_both_ways(alloc, first, second, third)
}
