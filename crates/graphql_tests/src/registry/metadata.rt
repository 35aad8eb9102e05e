use crate::registry::rows::object_registered_twice;
use crate::told::check;
use graphql_registry::{EmptyMutation, Registry};
use graphql_schema::{EnumValue, MetaType};
use graphql_text::{Items, Text};
use graphql_values::DefaultScalarValue;
use std::alloc::{AllocError, Global};
use std::collections::BTreeMap;

/// Metadata whose checks are numbers.
type Meta = MetaType<DefaultScalarValue, u8>;

type Types = Registry<DefaultScalarValue, u8>;

/// A registry without types.
fn no_types(alloc: Global) -> Types {
    Registry::new(BTreeMap::new(alloc))
}

/// The reference to a type, and two fields, one of them with arguments.
fn told_fields(alloc: Global) -> Result<String, AllocError> {
    let registry = no_types(alloc);
    let reference = registry.get_type::<Vec<EmptyMutation>>(alloc)?;
    let first = registry.arg_with_default::<i32>(alloc, "first", &5)?;
    let after = registry.arg::<Option<String>>(alloc, "after")?;
    let field = registry.field::<Vec<i32>>(alloc, "ages")?;
    let field = field.argument(alloc, first)?.argument(alloc, after)?;
    let other = registry.field_convert::<Option<bool>>(alloc, "alive")?;
    let mut told = format!(in alloc; "{reference} {}: {}", field.name, field.field_type)?;
    for argument in field.arguments() {
        write!(told, " {}: {}", argument.name, argument.arg_type)?;
        if let Some(value) = &argument.default_value {
            write!(told, " = {value}")?;
        }
    }
    write!(told, " {}: {}", other.name, other.field_type)?;
    Ok(told)
}

#[test]
fn fields_have_types(rt: HostRuntime) {
    check(
        &rt,
        told_fields(rt.alloc()),
        "[_EmptyMutation!]! ages: [Int!]! first: Int! = 5 after: String alive: Boolean",
    );
}

/// The metadata of an enum and an input object.
fn inputs(alloc: Global, registry: &Types) -> Result<Items<Meta>, AllocError> {
    let mut values = Items::new(alloc);
    values.push(EnumValue::new(Text::from_str(alloc, "JEDI")?))?;
    let mut fields = Items::new(alloc);
    fields.push(registry.arg::<i32>(alloc, "stars")?)?;
    let episode = registry.build_enum_type(alloc, "Episode", values, 2)?;
    let review = registry.build_input_object_type(alloc, "Review", fields, 3)?;
    let mut metadata = Items::new(alloc);
    metadata.push(episode.into_meta())?;
    metadata.push(review.into_meta())?;
    Ok(metadata)
}

/// The metadata of an interface, a union and an object.
fn outputs(alloc: Global, registry: &Types) -> Result<Items<Meta>, AllocError> {
    let mut members = Items::new(alloc);
    members.push(Text::from_str(alloc, "Human")?)?;
    let named = registry.build_interface_type(alloc, "Named", Items::new(alloc))?;
    let result = registry.build_union_type(alloc, "Result", members)?;
    let human = registry.build_object_type(alloc, "Human", Items::new(alloc))?;
    let mut metadata = Items::new(alloc);
    metadata.push(named.into_meta())?;
    metadata.push(result.into_meta())?;
    metadata.push(human.into_meta())?;
    Ok(metadata)
}

/// The metadata of a scalar, lists and a type with null.
fn plain(alloc: Global, registry: &Types) -> Result<Items<Meta>, AllocError> {
    let scalar = registry.build_scalar_type(alloc, "Date", 1)?;
    let list = registry.build_list_type::<i32>(alloc, None)?;
    let nullable = registry.build_nullable_type::<i32>(alloc)?;
    let wrong = registry.build_scalar_type(alloc, "2 Date", 1)?;
    let mut metadata = Items::new(alloc);
    metadata.push(scalar.into_meta())?;
    metadata.push(list.into_meta())?;
    metadata.push(nullable.into_meta())?;
    metadata.push(wrong.into_meta())?;
    Ok(metadata)
}

/// Registers each of the metadata, and counts those that are handed back.
fn register_all(
    alloc: Global,
    registry: &mut Types,
    metadata: Items<Meta>,
) -> Result<u64, AllocError> {
    let mut back = 0;
    for meta in metadata {
        if registry.register(alloc, meta)?.is_some() {
            back = u64::saturating_add(back, 1);
        }
    }
    Ok(back)
}

/// The types of metadata, in order.
fn told_types(alloc: Global, metadata: &[Meta]) -> Result<String, AllocError> {
    let mut told = String::new(alloc);
    for meta in metadata {
        let reference = meta.as_type(alloc)?;
        let fields = meta.fields().len();
        write!(told, "{reference} {fields} ")?;
    }
    Ok(told)
}

/// How many of some metadata are handed back, and which types the registry has then.
fn told_registry(alloc: Global) -> Result<String, AllocError> {
    let mut registry = no_types(alloc);
    let metadata = outputs(alloc, &registry)?;
    let outputs_back = register_all(alloc, &mut registry, metadata)?;
    let metadata = inputs(alloc, &registry)?;
    let inputs_back = register_all(alloc, &mut registry, metadata)?;
    let metadata = plain(alloc, &registry)?;
    let plain_back = register_all(alloc, &mut registry, metadata)?;
    let metadata = registry.into_metadata(alloc)?;
    let types = told_types(alloc, metadata.as_slice())?;
    format!(in alloc; "{types}back: {outputs_back} {inputs_back} {plain_back}")
}

#[test]
fn types_are_registered(rt: HostRuntime) {
    check(
        &rt,
        told_registry(rt.alloc()),
        "Date! 0 Episode! 0 Human! 1 Named! 1 Result! 0 Review! 0 back: 0 0 3",
    );
}

/// Whether metadata are handed back.
fn are_back(outcome: Result<Option<Meta>, AllocError>) -> Result<bool, AllocError> {
    Ok(outcome?.is_some())
}

/// The types of a registry into which an object is put twice, and which time it is handed back.
fn told_twice(alloc: Global) -> Result<String, AllocError> {
    let (first, second, metadata) = object_registered_twice::<u8>(alloc);
    let back = (are_back(first), are_back(second));
    let types = told_types(alloc, metadata?.as_slice())?;
    format!(in alloc; "{types}back: {back:?}")
}

#[test]
fn an_object_is_registered_once(rt: HostRuntime) {
    check(
        &rt,
        told_twice(rt.alloc()),
        "A! 2 back: (Ok(false), Ok(true))",
    );
}
