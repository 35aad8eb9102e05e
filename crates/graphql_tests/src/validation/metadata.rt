use crate::validation::examples::{
    Meta, alone, any_value, argument, declared_alone, non_null, nullable, reference, says, text,
};
use graphql_text::Items;
use graphql_validation::{
    Argument, DeprecationStatus, EnumMeta, EnumValue, Field, InputObjectMeta, InterfaceMeta,
    ListMeta, MetaType, NullableMeta, ObjectMeta, PlaceholderMeta, ScalarMeta, TypeKind, UnionMeta,
};
use graphql_values::{DefaultScalarValue, InputValue};
use std::alloc::Global;
use std::process::Abort;

/// The argument `episode: Episode = RED`.
fn episode(rt: &impl Abort, alloc: Global) -> Argument<DefaultScalarValue> {
    let red = InputValue::enum_value(alloc, "RED").expect(rt, "memory");
    argument(rt, alloc, "episode", nullable("Episode"))
        .description(text(rt, alloc, "Which film"))
        .default_value(red)
}

/// The field `hero(episode: Episode = RED): Human`, deprecated.
fn hero(rt: &impl Abort, alloc: Global) -> Field<DefaultScalarValue> {
    let field = Field {
        name: text(rt, alloc, "hero"),
        description: None,
        arguments: None,
        field_type: reference(rt, alloc, nullable("Human")),
        deprecation_status: DeprecationStatus::Current,
    };
    field
        .description(text(rt, alloc, "Who saves the world"))
        .deprecated(Some(text(rt, alloc, "Two heroes")))
        .argument(alloc, episode(rt, alloc))
        .expect(rt, "memory")
}

/// The enum value `RED`, deprecated without a reason.
fn red(rt: &impl Abort, alloc: Global) -> EnumValue {
    EnumValue::new(text(rt, alloc, "RED"))
        .description(text(rt, alloc, "As blood"))
        .deprecated(None)
}

/// Whether the field tells what it was made of.
fn is_hero(field: &Field<DefaultScalarValue>) -> bool {
    field.deprecation_status.is_deprecated()
        && !field.is_builtin()
        && says(field.deprecation_status.reason(), "Two heroes")
        && field.arguments().len() == 1
}

#[test]
fn fields_are_made(rt: HostRuntime) {
    let told = is_hero(&hero(&rt, rt.alloc()));
    assert!(rt; told);
    let copy = hero(&rt, rt.alloc()).clone().expect(&rt, "memory");
    assert!(rt; is_hero(&copy));
}

/// Whether it is deprecated without a reason.
fn is_deprecated(status: &DeprecationStatus) -> bool {
    status.is_deprecated() && status.reason().is_none()
}

#[test]
fn values_are_made(rt: HostRuntime) {
    let told = is_deprecated(&red(&rt, rt.alloc()).deprecation_status);
    assert!(rt; told && !DeprecationStatus::Current.is_deprecated());
    let copy = red(&rt, rt.alloc()).clone().expect(&rt, "memory");
    assert!(rt; copy == red(&rt, rt.alloc()));
}

fn query(rt: &impl Abort, alloc: Global) -> Meta {
    let interfaces = alone(rt, alloc, text(rt, alloc, "Node"));
    let fields = declared_alone(rt, alloc, hero(rt, alloc));
    ObjectMeta::new(alloc, text(rt, alloc, "Query"), fields)
        .description(text(rt, alloc, "All queries"))
        .interfaces(interfaces)
        .into_meta()
}

/// Whether the metadata are of an object, and of no other kind.
fn is_object(meta: &Meta) -> bool {
    matches!(meta.type_kind(), Some(TypeKind::Object))
        && meta.is_composite()
        && !meta.is_leaf()
        && !meta.is_abstract()
        && !meta.is_input()
        && !meta.is_builtin()
}

/// Whether the metadata have the field `hero` and no field `Hero`.
fn has_hero(meta: &Meta) -> bool {
    let found = match meta.field_by_name("hero") {
        Some(field) => field.name.is("hero"),
        None => false,
    };
    found && meta.field_by_name("Hero").is_none() && meta.input_field_by_name("hero").is_none()
}

/// Whether the metadata have one field and one interface, and no parts of other kinds.
fn has_object_parts(meta: &Meta) -> bool {
    meta.fields().len() == 1
        && meta.interface_names().len() == 1
        && meta.member_names().is_empty()
        && meta.enum_values().is_empty()
}

/// Whether the metadata tell what they were made of.
fn is_query(meta: &Meta) -> bool {
    says(meta.name(), "Query")
        && says(meta.description(), "All queries")
        && is_object(meta)
        && has_hero(meta)
        && has_object_parts(meta)
}

#[test]
fn objects_are_made(rt: HostRuntime) {
    let told = is_query(&query(&rt, rt.alloc()));
    assert!(rt; told);
}

fn node(rt: &impl Abort, alloc: Global) -> Meta {
    let fields = declared_alone(rt, alloc, hero(rt, alloc));
    InterfaceMeta::new(alloc, text(rt, alloc, "Node"), fields)
        .description(text(rt, alloc, "Has a hero"))
        .interfaces(Items::new(alloc))
        .into_meta()
}

fn any(rt: &impl Abort, alloc: Global) -> Meta {
    let members = alone(rt, alloc, text(rt, alloc, "Human"));
    UnionMeta::new(text(rt, alloc, "__Any"), members)
        .description(text(rt, alloc, "Anyone"))
        .into_meta()
}

/// Whether the metadata are of an interface with the field.
fn is_node(meta: &Meta) -> bool {
    meta.is_abstract() && meta.field_by_name("hero").is_some()
}

#[test]
fn interfaces_are_made(rt: HostRuntime) {
    let told = is_node(&node(&rt, rt.alloc()));
    assert!(rt; told);
}

/// Whether the metadata are of a union of one member.
fn is_any(meta: &Meta) -> bool {
    meta.is_abstract() && meta.is_composite() && meta.is_builtin() && meta.member_names().len() == 1
}

#[test]
fn unions_are_made(rt: HostRuntime) {
    let told = is_any(&any(&rt, rt.alloc()));
    assert!(rt; told);
}

fn id(rt: &impl Abort, alloc: Global) -> Meta {
    ScalarMeta::new(text(rt, alloc, "ID"), any_value(alloc))
        .description(text(rt, alloc, "A key"))
        .specified_by_url(text(rt, alloc, "https://id"))
        .into_meta()
}

fn color(rt: &impl Abort, alloc: Global) -> Meta {
    let values = declared_alone(rt, alloc, red(rt, alloc));
    EnumMeta::new(text(rt, alloc, "Color"), values, any_value(alloc))
        .description(text(rt, alloc, "Of light"))
        .into_meta()
}

fn point(rt: &impl Abort, alloc: Global) -> Meta {
    let fields = declared_alone(rt, alloc, argument(rt, alloc, "__x", nullable("Int")));
    InputObjectMeta::new(text(rt, alloc, "Point"), fields, any_value(alloc))
        .description(text(rt, alloc, "In a plane"))
        .into_meta()
}

/// Whether the metadata are of a scalar with an address and a check.
fn is_id(meta: &Meta) -> bool {
    says(meta.specified_by_url(), "https://id")
        && meta.is_leaf()
        && meta.is_input()
        && meta.is_builtin()
        && meta.input_value_parse_fn().is_some()
}

#[test]
fn scalars_are_made(rt: HostRuntime) {
    let told = is_id(&id(&rt, rt.alloc()));
    assert!(rt; told);
}

/// Whether the metadata are of an enum of one value.
fn is_color(meta: &Meta) -> bool {
    matches!(meta.type_kind(), Some(TypeKind::Enum)) && meta.enum_values().len() == 1
}

#[test]
fn enums_are_made(rt: HostRuntime) {
    let told = is_color(&color(&rt, rt.alloc()));
    assert!(rt; told);
}

/// Whether the metadata are of an input object of one field, whose name is reserved.
fn is_point(meta: &Meta) -> bool {
    let reserved = match meta.input_field_by_name("__x") {
        Some(field) => field.is_builtin(),
        None => false,
    };
    reserved && meta.is_input() && meta.input_fields().len() == 1
}

#[test]
fn input_objects_are_made(rt: HostRuntime) {
    let told = is_point(&point(&rt, rt.alloc()));
    assert!(rt; told);
}

fn list(rt: &impl Abort, alloc: Global) -> Meta {
    ListMeta::new(reference(rt, alloc, non_null("Int")), None).into_meta()
}

fn needed(rt: &impl Abort, alloc: Global) -> Meta {
    let list = reference(rt, alloc, nullable("Int")).wrap_list(None);
    let needed = list.expect(rt, "memory").wrap_non_null();
    NullableMeta::new(needed.expect(rt, "memory")).into_meta()
}

fn placeholder(rt: &impl Abort, alloc: Global) -> Meta {
    let of_type = reference(rt, alloc, nullable("Human"));
    MetaType::Placeholder(PlaceholderMeta { of_type })
}

/// The reference to the type as it is written.
fn written(rt: &impl Abort, alloc: Global, meta: &Meta) -> String {
    let of_type = meta.as_type(alloc).expect(rt, "memory");
    of_type.to_string(alloc).expect(rt, "memory")
}

/// Whether the reference to the type is written so, and it is of this kind. Takes the metadata, so
/// that they are let go of in one place.
fn refers(rt: &impl Abort, alloc: Global, meta: Meta, words: &str, kind: Option<TypeKind>) -> bool {
    written(rt, alloc, &meta).as_str() == words && meta.type_kind() == kind
}

#[test]
fn types_are_referred_to(rt: HostRuntime) {
    let alloc = rt.alloc();
    let of_union = Some(TypeKind::Union);
    assert!(rt; refers(&rt, alloc, any(&rt, alloc), "__Any!", of_union));
    let of_list = Some(TypeKind::List);
    assert!(rt; refers(&rt, alloc, list(&rt, alloc), "[Int!]!", of_list));
    assert!(rt; refers(&rt, alloc, needed(&rt, alloc), "[Int]", None));
    assert!(rt; refers(&rt, alloc, placeholder(&rt, alloc), "Human", None));
}
