//! The laws of values with a premise, each at values that meet it.

ghost use Rattle.std.specs.Prelude.{◌≡◌, [], ◌∷◌, Some, None, IfSome, nat_eq, true, codes};
ghost use Rattle.std.specs.Map.{set_value};
ghost use Rattle.std.specs.Str.{bytes_eq};
ghost use Rattle.graphql_text.specs.declared.text.Text.{Text as Name};
ghost use Rattle.graphql_output_values.specs.DistinctKeys.{HasDistinctKeysThroughout};
ghost use Rattle.graphql_output_values.specs.DistinctKeys.{ObjectHasDistinctKeysThroughout};
ghost use Rattle.graphql_output_values.specs.Equality.{equal, fields_equal};
ghost use Rattle.graphql_output_values.specs.Laws.{StandIn};
ghost use Rattle.graphql_output_values.specs.Objects.{field_value, with_fields};
ghost use Rattle.graphql_output_values.specs.declared.value.Value.TheVariants as output;
ghost use Rattle.graphql_values.specs.SameValue.{SameValue};
ghost use Rattle.graphql_values.specs.Variables.{IsConstant, Occurs, constant_of};
ghost use Rattle.graphql_values.specs.declared.input_value.InputValue.TheVariants as input;
ghost use Rattle.graphql_law_rows.specs.SampleValues as spec;

use graphql_output_values::laws as output_laws;
use graphql_values::laws as input_laws;

/// An object equals the one of its fields in another order, in which each of its fields stands.
pub fn object_equals_its_turn()
    ensures equals { fields_equal (equal nat_eq) spec.sample_object.fields spec.turned.fields
        ≡ true }
    ensures stand_in { StandIn (equal nat_eq) spec.sample_object.fields spec.turned.fields }
{
    output_laws::equal_in_any_order::<u8>();
    output_laws::equal_by_fields::<u8>();
}

/// An object of distinct keys however deep, of which one stands below it, keeps them when a value
/// is written; and so has one that is made of pairs of which two have one key.
pub fn objects_keep_distinct_keys()
    ensures inner { HasDistinctKeysThroughout (output.Object spec.inner) }
    ensures under { IfSome (field_value spec.sample_object.fields (codes "a"))
        HasDistinctKeysThroughout }
    ensures written { let fields =
        set_value (bytes_eq (codes "b")) spec.sample_object.fields spec.inner_list in
        ObjectHasDistinctKeysThroughout (record { fields = fields }) }
    ensures made { ObjectHasDistinctKeysThroughout (record { fields = with_fields [] spec.pairs }) }
{
    output_laws::distinct_by_forms::<u8>();
    output_laws::distinct_under_keys::<u8>();
    output_laws::distinct_once_written::<u8>();
    output_laws::made_distinct_throughout::<u8>();
}

/// An input object is the same as the one of its fields in another order, and so the other way
/// round.
pub fn input_object_is_its_turn()
    ensures same { SameValue _ nat_eq (input.Object spec.sample_fields)
        (input.Object spec.turned_fields) }
    ensures either_way { SameValue _ nat_eq (input.Object spec.turned_fields)
        (input.Object spec.sample_fields) }
    ensures by_a_third { SameValue _ nat_eq (input.Object spec.sample_fields)
        (input.Object spec.sample_fields) }
{
    input_laws::same_objects_have_the_same_fields::<u8>();
    input_laws::same_value_is_an_equivalence::<u8>();
}

/// A list of a variable becomes the list of its value, in which no variable stands and which stays
/// as it is; where the variable has no value it becomes nothing.
pub fn variable_becomes_its_value()
    ensures constant { IsConstant spec.constants }
    ensures stays { constant_of spec.nothing spec.constants ≡ Some spec.constants }
    ensures lacks { (name : Name) × Occurs _ name spec.variables × (spec.nothing name ≡ None) }
{
    input_laws::variables_are_listed::<u8>();
    input_laws::variables_are_replaced::<u8>();
}
