//! What types answer (GraphQL October 2021, 4.2.2 The __Type Type).

ghost use Rattle.std.specs.Prelude.{◌≡◌, map};
ghost use Rattle.std.specs.List.{filter_map};
ghost use Rattle.graphql_text.specs.Memory.{Gives, GivesBy};
ghost use Rattle.graphql_arguments.specs.GivenValues.{arguments_told};
ghost use Rattle.graphql_schema.specs.Lookups.{type_named};
ghost use Rattle.graphql_introspection.specs.Nodes as nodes;
ghost use Rattle.graphql_introspection.specs.TypeAnswers as spec;

use crate::given::includes_deprecated;
use crate::leaves::{kind_or_null, text_or_null, truth};
use crate::nodes::{SchemaAnswer, arguments, bare_types, enum_values, fields, wrapped};
use graphql_arguments::Arguments;
use graphql_field_results::Resolved;
use graphql_names::TypeModifier;
use graphql_schema::{MetaType, SchemaScalar, SchemaType, TypeKind};
use graphql_text::{Items, Text};
use std::alloc::{AllocError, Global};

/// The fields of an object or an interface; `null` of any other type. An error is want of memory.
fn fields_of<'s, S: SchemaScalar + Drop>(
    alloc: Global,
    include: bool,
    meta: &'s MetaType<S>,
) -> Result<SchemaAnswer<'s, S>, AllocError>
    ensures { Gives result (spec.fields_answer include meta.now) }
{
    match meta {
        MetaType::Object(object) => fields(alloc, include, object.fields.as_slice()),
        MetaType::Interface(interface) => fields(alloc, include, interface.fields.as_slice()),
        _ => Ok(Resolved::Null),
    }
}

/// The fields of an input object; `null` of any other type. An error is want of memory.
fn input_fields_of<'s, S: SchemaScalar + Drop>(
    alloc: Global,
    meta: &'s MetaType<S>,
) -> Result<SchemaAnswer<'s, S>, AllocError>
    ensures { Gives result (spec.input_fields_of meta.now) }
{
    match meta {
        MetaType::InputObject(object) => arguments(alloc, object.input_fields.as_slice()),
        _ => Ok(Resolved::Null),
    }
}

/// Whether exactly one field is given of the values of an input object; `null` of any other type.
fn is_one_of_or_null<'s, S: SchemaScalar>(meta: &MetaType<S>) -> SchemaAnswer<'s, S>
    ensures { result ≡ spec.is_one_of_or_null S.of_bool meta.now }
{
    match meta {
        MetaType::InputObject(object) => truth(object.is_one_of()),
        _ => Resolved::Null,
    }
}

/// The values of an enum; `null` of any other type. An error is want of memory.
fn values_of<'s, S: SchemaScalar + Drop>(
    alloc: Global,
    include: bool,
    meta: &'s MetaType<S>,
) -> Result<SchemaAnswer<'s, S>, AllocError>
    ensures { Gives result (spec.values_answer include meta.now) }
{
    match meta {
        MetaType::Enum(declared) => enum_values(alloc, include, declared.values.as_slice()),
        _ => Ok(Resolved::Null),
    }
}

/// The types of these names, lent, in the order of the names. An error is want of memory.
fn types_of_names<'s, S: SchemaScalar>(
    alloc: Global,
    schema: &'s SchemaType<S>,
    names: &[Text],
) -> Result<Items<&'s MetaType<S>>, AllocError>
    ensures { GivesBy (map (λ m. m.now)) result
        (filter_map (type_named schema.now.types) names.now) }
{
    let mut found = Items::new(alloc);
    'names: for name in names {
        if let Some(named) = schema.concrete_type_by_name(name.as_str()) {
            found.push(named)?;
        }
    }
    Ok(found)
}

/// The types of these names, in the order of the names. An error is want of memory.
fn named_types<'s, S: SchemaScalar + Drop>(
    alloc: Global,
    schema: &'s SchemaType<S>,
    names: &[Text],
) -> Result<SchemaAnswer<'s, S>, AllocError>
    ensures { Gives result (nodes.named_types schema.now.types names.now) }
{
    let found = types_of_names(alloc, schema, names)?;
    bare_types(alloc, found.as_slice())
}

/// The interfaces that an object or an interface lists; `null` of any other type. An error is want
/// of memory.
fn interfaces_of<'s, S: SchemaScalar + Drop>(
    alloc: Global,
    schema: &'s SchemaType<S>,
    meta: &MetaType<S>,
) -> Result<SchemaAnswer<'s, S>, AllocError>
    ensures { Gives result (spec.interfaces_of schema.now.types meta.now) }
{
    match meta {
        MetaType::Object(object) => named_types(alloc, schema, object.interface_names.as_slice()),
        MetaType::Interface(interface) => {
            named_types(alloc, schema, interface.interface_names.as_slice())
        }
        _ => Ok(Resolved::Null),
    }
}

/// The possible types of an interface or a union; `null` of any other type. An error is want of
/// memory.
fn possible_types_of<'s, S: SchemaScalar + Drop>(
    alloc: Global,
    schema: &'s SchemaType<S>,
    meta: &MetaType<S>,
) -> Result<SchemaAnswer<'s, S>, AllocError>
    ensures { Gives result (spec.possible_types_of schema.now.types meta.now) }
{
    match meta {
        MetaType::Interface(_) | MetaType::Union(_) => {
            let found = schema.possible_types(alloc, meta)?;
            bare_types(alloc, found.as_slice())
        }
        _ => Ok(Resolved::Null),
    }
}

/// What a named type answers. An error is want of memory.
fn of_named<'s, S: SchemaScalar + Drop>(
    alloc: Global,
    schema: &'s SchemaType<S>,
    meta: &'s MetaType<S>,
    field: &str,
    arguments: &Arguments<'_, S>,
) -> Result<SchemaAnswer<'s, S>, AllocError>
    ensures { Gives result (spec.of_named S.of_text S.of_bool S.answer schema.now.types meta.now
        field.now (arguments_told arguments.now)) }
{
    match field {
        "kind" => kind_or_null(alloc, meta.type_kind()),
        "name" => text_or_null(alloc, meta.name()),
        "description" => text_or_null(alloc, meta.description()),
        "specifiedByUrl" => text_or_null(alloc, meta.specified_by_url()),
        "fields" => fields_of(alloc, includes_deprecated(arguments), meta),
        "interfaces" => interfaces_of(alloc, schema, meta),
        "possibleTypes" => possible_types_of(alloc, schema, meta),
        "enumValues" => values_of(alloc, includes_deprecated(arguments), meta),
        "inputFields" => input_fields_of(alloc, meta),
        "isOneOf" => Ok(is_one_of_or_null(meta)),
        _ => Ok(Resolved::Null),
    }
}

/// The kind of a type that a wrap makes of the type within it.
fn kind_of_wrap(wrap: TypeModifier) -> TypeKind
    ensures { result ≡ spec.kind_of_wrap wrap }
{
    match wrap {
        TypeModifier::NonNull => TypeKind::NonNull,
        TypeModifier::List(_) => TypeKind::List,
    }
}

/// What a type answers around which this wrap is the outermost, and these are those within it. An
/// error is want of memory.
fn of_wrapped<'s, S: SchemaScalar + Drop>(
    alloc: Global,
    meta: &'s MetaType<S>,
    outermost: TypeModifier,
    within: &'s [TypeModifier],
    field: &str,
) -> Result<SchemaAnswer<'s, S>, AllocError>
    ensures { Gives result (spec.of_wrapped S.of_text meta.now (outermost, within.now) field.now) }
{
    match field {
        "kind" => kind_or_null(alloc, Some(kind_of_wrap(outermost))),
        "ofType" => Ok(wrapped(meta, within)),
        _ => Ok(Resolved::Null),
    }
}

/// What a type within wraps, the innermost first, answers. An error is want of memory.
#[tactic(auto, using(crate::proofs::Apart::apart_snoc))]
pub fn of_type<'s, S: SchemaScalar + Drop>(
    alloc: Global,
    schema: &'s SchemaType<S>,
    meta: &'s MetaType<S>,
    wraps: &'s [TypeModifier],
    field: &str,
    arguments: &Arguments<'_, S>,
) -> Result<SchemaAnswer<'s, S>, AllocError>
    ensures { Gives result (spec.of_type S.of_text S.of_bool S.answer schema.now.types meta.now
        wraps.now field.now (arguments_told arguments.now)) }
{
    match wraps.split_last() {
        None => of_named(alloc, schema, meta, field, arguments),
        Some((outermost, within)) => of_wrapped(alloc, meta, *outermost, within, field),
    }
}
