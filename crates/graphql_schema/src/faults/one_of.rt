//! Input objects of which exactly one field is given.

ghost use Rattle.std.specs.Prelude.{◌≡◌, ◌&&◌};
ghost use Rattle.std.specs.List.{list_all, list_any};
ghost use Rattle.graphql_names.specs.Names.{Finds, is_named};
ghost use Rattle.graphql_schema.specs.Faults as spec;
ghost use Rattle.graphql_schema.specs.Lookups.{own_name};

use crate::{Argument, MetaType};

/// Whether `null` is among the values of the field, and it has no default.
fn is_nullable_without_default<S>(field: &Argument<S>) -> bool
    ensures { result ≡ spec.is_nullable_without_default field.now }
{
    !field.arg_type.is_non_null() & field.default_value.is_none()
}

/// The same of each of the fields.
fn are_nullable_without_default<S>(fields: &[Argument<S>]) -> bool
    ensures { result ≡ list_all spec.is_nullable_without_default fields.now }
{
    fields
        .iter()
        .all(|field| is_nullable_without_default(field))
}

/// The name of an input object of which exactly one field is given, if one of its fields is
/// non-null or has a default.
fn bad_name<S, C>(meta: &MetaType<S, C>) -> Option<&str>
    ensures { Finds (λ name. is_named own_name name meta.now && spec.is_bad_one_of meta.now)
        result }
{
    match meta {
        MetaType::InputObject(object) if object.is_one_of() => {
            if are_nullable_without_default(object.input_fields.as_slice()) {
                None
            } else {
                Some(object.name.as_str())
            }
        }
        _ => None,
    }
}

/// The name of such an input object among the types.
pub(super) fn bad_one_of<S, C>(types: &[MetaType<S, C>]) -> Option<&str>
    ensures { Finds (λ name.
        list_any (λ m. is_named own_name name m && spec.is_bad_one_of m) types.now) result }
{
    'types: for meta in types {
        if let Some(name) = bad_name(meta) {
            return Some(name);
        }
    }
    None
}
