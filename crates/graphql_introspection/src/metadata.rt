//! The metadata of the types of introspection.

ghost use Rattle.std.specs.Prelude.{◌≡◌, map};
ghost use Rattle.graphql_text.specs.Memory.{Gives};
ghost use Rattle.graphql_introspection.specs.Metadata as spec;

use crate::names::{kind_name, location_name};
use crate::part::PartKind;
use crate::rows::{DIRECTIVE_LOCATIONS, FieldForm, FieldRow, OBJECTS, TYPE_KINDS, rows_of};
use graphql_names::{NamedItems, Type, TypeModifier};
use graphql_scalars::ScalarValue;
use graphql_schema::{
    Argument, DeprecationStatus, DirectiveLocation, EnumMeta, EnumValue, Field,
    IntrospectionChecks, MetaType, ObjectMeta, SchemaScalar, TypeKind,
};
use graphql_text::{Items, Text};
use graphql_values::InputValue;
use std::alloc::{AllocError, Global};

/// A reference to the type of this name within these wraps, the innermost first (GraphQL October
/// 2021, 2.11 Type References). An error is want of memory.
pub fn type_reference(
    alloc: Global,
    name: &str,
    wraps: &[TypeModifier],
) -> Result<Type<Text>, AllocError>
    ensures { Gives result (record { name = name.now; modifiers = wraps.now }) }
{
    let mut modifiers = Items::new(alloc);
    modifiers.extend_from_slice(wraps)?;
    Ok(Type {
        name: Text::from_str(alloc, name)?,
        modifiers,
    })
}

/// `includeDeprecated: Boolean = false`. An error is want of memory.
fn include_deprecated<S: ScalarValue + Drop>(alloc: Global) -> Result<Argument<S>, AllocError>
    ensures { Gives result (spec.include_deprecated S.of_bool) }
{
    let name = Text::from_str(alloc, "includeDeprecated")?;
    let boolean = type_reference(alloc, "Boolean", &[])?;
    Ok(Argument::new(name, boolean).default_value(InputValue::Scalar(S::from_bool(false))))
}

/// What a field of this form takes. An error is want of memory.
fn arguments<S: ScalarValue + Drop>(
    alloc: Global,
    form: FieldForm,
) -> Result<NamedItems<Argument<S>>, AllocError>
    ensures { Gives result (spec.form_arguments S.of_bool form) }
{
    let mut list = NamedItems::new(alloc);
    if let FieldForm::Including = form {
        list.push(include_deprecated(alloc)?)?;
    }
    Ok(list)
}

/// Whether a field of this form is deprecated. An error is want of memory.
fn status(alloc: Global, form: FieldForm) -> Result<DeprecationStatus, AllocError>
    ensures { Gives result (spec.form_status form) }
{
    match form {
        FieldForm::Deprecated => {
            let reason = Text::from_str(alloc, "Use the locations array instead")?;
            Ok(DeprecationStatus::Deprecated(Some(reason)))
        }
        _ => Ok(DeprecationStatus::Current),
    }
}

/// The field of this row. An error is want of memory.
fn field<S: ScalarValue + Drop>(alloc: Global, row: FieldRow) -> Result<Field<S>, AllocError>
    ensures { Gives result (spec.row_field S.of_bool (spec.row row.entry)) }
{
    Ok(Field {
        name: Text::from_str(alloc, row.0)?,
        description: None,
        arguments: Some(arguments(alloc, row.3)?),
        field_type: type_reference(alloc, row.1, row.2)?,
        deprecation_status: status(alloc, row.3)?,
    })
}

/// The fields of these rows. An error is want of memory.
fn fields<S: ScalarValue + Drop>(
    alloc: Global,
    rows: &[FieldRow],
) -> Result<NamedItems<Field<S>>, AllocError>
    ensures { Gives result (map (spec.row_field S.of_bool) (map spec.row rows.now)) }
{
    let mut items = Items::new(alloc);
    'rows: for row in rows {
        items.push(field(alloc, *row)?)?;
    }
    NamedItems::from_items(items)
}

/// A type of introspection that is an object. An error is want of memory.
fn object<S: SchemaScalar + Drop>(alloc: Global, kind: PartKind) -> Result<MetaType<S>, AllocError>
    ensures { Gives result (spec.object_of S.of_bool kind) }
{
    let fields = fields(alloc, rows_of(kind))?;
    let name = Text::from_str(alloc, kind.name())?;
    Ok(ObjectMeta::new(alloc, name, fields).into_meta())
}

/// These types of introspection. An error is want of memory.
fn objects<S: SchemaScalar + Drop>(
    alloc: Global,
    kinds: &[PartKind],
) -> Result<Items<MetaType<S>>, AllocError>
    ensures { Gives result (map (spec.object_of S.of_bool) kinds.now) }
{
    let mut items = Items::new(alloc);
    'kinds: for kind in kinds {
        items.push(object(alloc, *kind)?)?;
    }
    Ok(items)
}

/// The enum value of this name. An error is want of memory.
fn value(alloc: Global, name: &str) -> Result<EnumValue, AllocError>
    ensures { Gives result (spec.enum_value_of name.now) }
{
    Ok(EnumValue::new(Text::from_str(alloc, name)?))
}

/// The values of `__TypeKind` that these kinds are. An error is want of memory.
fn kind_values(alloc: Global, kinds: &[TypeKind]) -> Result<NamedItems<EnumValue>, AllocError>
    ensures { Gives result (map spec.kind_value kinds.now) }
{
    let mut items = Items::new(alloc);
    'kinds: for kind in kinds {
        items.push(value(alloc, kind_name(*kind))?)?;
    }
    NamedItems::from_items(items)
}

/// The values of `__DirectiveLocation` that these places are. An error is want of memory.
fn location_values(
    alloc: Global,
    places: &[DirectiveLocation],
) -> Result<NamedItems<EnumValue>, AllocError>
    ensures { Gives result (map spec.location_value places.now) }
{
    let mut items = Items::new(alloc);
    'places: for place in places {
        items.push(value(alloc, location_name(*place))?)?;
    }
    NamedItems::from_items(items)
}

/// The enum of this name and these values that accepts what the check accepts. An error is want of
/// memory.
fn enumeration<S: SchemaScalar>(
    alloc: Global,
    name: &str,
    values: NamedItems<EnumValue>,
    check: S::Check,
) -> Result<MetaType<S>, AllocError>
    ensures { Gives result (spec.enumeration name.now values check) }
{
    let name = Text::from_str(alloc, name)?;
    Ok(EnumMeta::new(name, values, check).into_meta())
}

/// The metadata of the types of introspection, without descriptions (GraphQL October 2021, 4.2
/// Schema Introspection): the objects `__Schema`, `__Type`, `__Field`, `__InputValue`,
/// `__EnumValue` and `__Directive`, and the enums `__TypeKind` and `__DirectiveLocation`, which
/// accept what their checks accept. An error is want of memory.
pub fn introspection_metadata<S: SchemaScalar + Drop>(
    alloc: Global,
    checks: IntrospectionChecks<S::Check>,
) -> Result<Items<MetaType<S>>, AllocError>
    ensures { Gives result (spec.introspection_types S.of_bool checks) }
{
    let mut types = objects(alloc, OBJECTS)?;
    let kinds = kind_values(alloc, TYPE_KINDS)?;
    types.push(enumeration(alloc, "__TypeKind", kinds, checks.type_kind)?)?;
    let places = location_values(alloc, DIRECTIVE_LOCATIONS)?;
    let name = "__DirectiveLocation";
    types.push(enumeration(alloc, name, places, checks.directive_location)?)?;
    Ok(types)
}
