//! Subtypes, possible types and types that overlap, in a schema that is given, and wraps of types.

ghost use Rattle.std.specs.Prelude.{◌≡◌, ◌↔◌, ◌&&◌, true, IfSome};
ghost use Rattle.std.specs.Option.{is_some};
ghost use Rattle.graphql_names.specs.Names.{passes};
ghost use Rattle.graphql_schema.specs.Executable.{is_executable};
ghost use Rattle.graphql_schema.specs.Schemas.{roots_of};
ghost use Rattle.graphql_schema.specs.Subtypes.{IsSubtypeOf, IsWrappedSubtype, is_named_subtype};
ghost use Rattle.graphql_schema.specs.Lookups.{is_object, type_named};
ghost use Rattle.graphql_law_rows.specs.SampleWraps as wraps;

use graphql_names::{Type, TypeModifier};
use graphql_schema::{MetaType, SchemaType};
use graphql_text::Text;
use graphql_validation::laws::{
    overlap_is_symmetric, possible_is_below, subtype_is_reflexive, subtype_is_transitive,
    wrapped_subtype_decides,
};

/// Whether a type is a subtype of itself: always.
pub fn is_subtype_of_itself<S, C>(schema: &SchemaType<S, C>, reference: &Type<Text>) -> bool
    ensures { result ≡ true }
{
    subtype_is_reflexive(schema, reference);
    schema.is_subtype(reference, reference)
}

/// Whether requests can be executed against the schema, and the first type is a subtype of the
/// second, and this one of the third: then the first is one of the third.
pub fn is_subtype_by_way_of<S, C>(
    schema: &SchemaType<S, C>,
    lowest: &Type<Text>,
    middle: &Type<Text>,
    highest: &Type<Text>,
) -> bool
    ensures by_way { let IsBelow = IsSubtypeOf schema.now.types in
        let executable = is_executable schema.now.types (roots_of schema.now) in
        (result ≡ true) ↔ ((executable ≡ true)
        × IsBelow lowest.now middle.now × IsBelow middle.now highest.now) }
    ensures itself { result ≡ true → IsSubtypeOf schema.now.types lowest.now highest.now }
{
    subtype_is_transitive(schema, lowest, middle, highest);
    schema.schema_is_executable()
        && schema.is_subtype(lowest, middle)
        && schema.is_subtype(middle, highest)
}

/// Whether two types overlap in the one order as in the other: always.
pub fn overlaps_either_way<S, C>(
    schema: &SchemaType<S, C>,
    a: &MetaType<S, C>,
    b: &MetaType<S, C>,
) -> bool
    ensures { result ≡ true }
{
    overlap_is_symmetric(schema, a, b);
    schema.type_overlap(a, b) == schema.type_overlap(b, a)
}

/// Whether the object type of the one name is possible at the type of the other: exactly where the
/// one name is a subtype of the other. `None` where the schema has no type of a name, or the first
/// is no object.
pub fn is_possible_at<S, C>(schema: &SchemaType<S, C>, object: &str, of: &str) -> Option<bool>
    ensures known { let types = schema.now.types in
        is_some result ≡ (passes is_object (type_named types object.now)
        && is_some (type_named types of.now)) }
    ensures value { IfSome result (λ is. is ≡ is_named_subtype schema.now.types object.now of.now) }
{
    let Some(possible) = schema.concrete_type_by_name(object) else {
        return None;
    };
    let Some(abstract_type) = schema.concrete_type_by_name(of) else {
        return None;
    };
    possible_is_below(schema, abstract_type, possible);
    match possible {
        MetaType::Object(_) => Some(schema.is_possible_type(abstract_type, possible)),
        _ => None,
    }
}

/// The wraps of `[T!]!`, the outermost first.
const WITHOUT_NULL: &[TypeModifier] = &[
    TypeModifier::NonNull,
    TypeModifier::List(None),
    TypeModifier::NonNull,
];

/// The wraps of `[T]`.
const WITH_NULL: &[TypeModifier] = &[TypeModifier::List(None)];

/// By their wraps, `[T!]!` can be a subtype of `[T]`, and not the other way round.
pub fn list_without_null_is_a_list()
    ensures allowed { IsWrappedSubtype wraps.without_null wraps.list_with_null }
    ensures other_way { IsWrappedSubtype wraps.list_with_null wraps.without_null → ⊥ }
{
    wrapped_subtype_decides(WITHOUT_NULL, WITH_NULL);
    wrapped_subtype_decides(WITH_NULL, WITHOUT_NULL);
}
