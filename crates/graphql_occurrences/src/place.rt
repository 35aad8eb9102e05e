//! Where values stand.

ghost use Rattle.std.specs.Prelude.{◌≡◌};
ghost use Rattle.std.specs.Option.{option_and_then, option_copied, option_map};
ghost use Rattle.graphql_occurrences.specs.DeclaredLookups.{declarations_of};
ghost use Rattle.graphql_occurrences.specs.Lookups as spec;
ghost use Rattle.graphql_occurrences.specs.Lent.{arguments_lent, lent_input, literal_of};

use crate::{DeclaredArguments, SchemaType, TypeLiteral};
use graphql_schema::{Argument, InputObjectMeta, MetaType};

/// Where a value stands: in an argument, in a list, in an input object, or as the default of a
/// variable (GraphQL October 2021, 5.8.5 All Variable Usages Are Allowed).
#[derive(Clone, Copy)]
pub struct InputPlace<'a> {
    /// The type of the values that are asked for.
    pub asked: TypeLiteral<'a>,

    /// Whether the place has a default, which stands where no value is given.
    pub has_default: bool,

    /// Whether it is the one field that is given of an input object, which refuses `null` by
    /// itself: no default stands in for `null`.
    pub is_only_field: bool,
}

impl<'a> InputPlace<'a> {
    /// A place for values of this type, without a default.
    pub fn bare(asked: TypeLiteral<'a>) -> InputPlace<'a>
        ensures { lent_input result ≡ spec.bare_place (literal_of asked.entry) }
    {
        InputPlace {
            asked,
            has_default: false,
            is_only_field: false,
        }
    }
}

/// Where the value of an argument, or of a field of an input object, stands.
fn place_in<'a, S>(argument: &'a Argument<S>) -> InputPlace<'a>
    ensures { lent_input result ≡ spec.input_place_of argument.now }
{
    InputPlace {
        asked: TypeLiteral::of(&argument.arg_type),
        has_default: argument.default_value.is_some(),
        is_only_field: false,
    }
}

/// The same, where there is one.
fn place_in_some<'a, S>(argument: Option<&'a Argument<S>>) -> Option<InputPlace<'a>>
    ensures { option_map lent_input result ≡ option_map spec.input_place_of
        (option_copied argument.entry) }
{
    match argument {
        Some(argument) => Some(place_in(argument)),
        None => None,
    }
}

/// Where the value of the argument of this name stands, if the argument is declared.
pub fn place_of_argument<'a, S>(
    declared: Option<DeclaredArguments<'a, S>>,
    name: &str,
) -> Option<InputPlace<'a>>
    ensures { option_map lent_input result
        ≡ spec.argument_place (option_map arguments_lent declared.entry) name.now }
{
    match declared {
        Some(declared) => place_in_some(declared.get(name)),
        None => None,
    }
}

/// Where the items of a list of this type stand.
fn place_in_list<'a>(literal: TypeLiteral<'a>) -> Option<InputPlace<'a>>
    ensures { option_map lent_input result
        ≡ option_map spec.bare_place (spec.item_type (literal_of literal.entry)) }
{
    match literal.items() {
        Some(asked) => Some(InputPlace::bare(asked)),
        None => None,
    }
}

/// Where the items of a list stand, if a list is asked for.
pub fn place_of_items<'a>(input: Option<InputPlace<'a>>) -> Option<InputPlace<'a>>
    ensures { option_map lent_input result ≡ spec.item_place (option_map lent_input input.entry) }
{
    match input {
        Some(place) => place_in_list(place.asked),
        None => None,
    }
}

/// The input object within every wrap of a reference.
fn input_object<'a, S, C>(
    schema: &'a SchemaType<S, C>,
    asked: TypeLiteral<'a>,
) -> Option<&'a InputObjectMeta<S, C>>
    ensures { option_copied result
        ≡ spec.input_object_within (declarations_of schema.now) (literal_of asked.entry) }
{
    match schema.concrete_type_by_name(asked.name) {
        Some(MetaType::InputObject(meta)) => Some(meta),
        _ => None,
    }
}

/// Where the value of the field of this name of an input object stands, if the field is declared.
fn place_within<'a, S, C>(meta: &'a InputObjectMeta<S, C>, name: &str) -> Option<InputPlace<'a>>
    ensures { option_map lent_input result ≡ spec.place_within name.now meta.now }
{
    match place_in_some(meta.input_fields.get(name)) {
        Some(place) => Some(InputPlace {
            is_only_field: meta.is_one_of(),
            ..place
        }),
        None => None,
    }
}

/// The same, where there is one.
fn place_within_some<'a, S, C>(
    meta: Option<&'a InputObjectMeta<S, C>>,
    name: &str,
) -> Option<InputPlace<'a>>
    ensures { option_map lent_input result
        ≡ option_and_then (spec.place_within name.now) (option_copied meta.entry) }
{
    match meta {
        Some(meta) => place_within(meta, name),
        None => None,
    }
}

/// Where the value of a field of an input object stands, if the object and the field are known.
pub fn place_of_field<'a, S, C>(
    schema: &'a SchemaType<S, C>,
    input: Option<InputPlace<'a>>,
    name: &str,
) -> Option<InputPlace<'a>>
    ensures { option_map lent_input result
        ≡ spec.field_place (declarations_of schema.now)
        (option_map lent_input input.entry) name.now }
{
    match input {
        Some(place) => place_within_some(input_object(schema, place.asked), name),
        None => None,
    }
}
