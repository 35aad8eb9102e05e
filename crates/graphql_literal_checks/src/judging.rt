//! Whether a value conforms to a named type, by the kind of the type.

ghost use Rattle.std.specs.Prelude.{◌≡◌, ◌↔◌, ℕ, List, true, IsTrue, IfSome, MatchOption};
ghost use Rattle.graphql_text.specs.Memory.{Told};
ghost use Rattle.std.specs.List.{list_any};
ghost use Rattle.graphql_names.specs.Names.{is_named};
ghost use Rattle.graphql_literal_checks.specs.InputTypes as spec;
ghost use Rattle.graphql_literal_checks.specs.InputTypes.{WholeFits, is_complete};
ghost use Rattle.graphql_literal_checks.specs.Judged.{EnumFits, IsMemory, IsOfEnum, Judged, Names};
ghost use Rattle.graphql_literal_checks.specs.Judged.{ScalarFits, is_constant};

use crate::input_fields::{first_undeclared, missing};
use crate::misfit::Misfit;
use crate::open_values::Pair;
use crate::reasons::{
    invalid_enum_value, invalid_value, missing_field, not_one_given, unknown_field,
};
use crate::source::Source;
use graphql_names::{BorrowedType, NamedItems};
use graphql_scalars::CheckError;
use graphql_schema::{
    Check, EnumMeta, EnumValue, InputObjectMeta, Meaning, MetaType, ScalarMeta, SchemaScalar,
    SchemaType,
};
use graphql_values::InputValue;
use std::alloc::Global;

/// Whether the value is a scalar that the type accepts (3.5 Scalars).
pub(crate) fn judge_scalar<S: SchemaScalar>(
    alloc: Global,
    meta: &ScalarMeta<S::Check>,
    value: &InputValue<S>,
) -> Result<bool, Misfit>
    ensures { Judged (ScalarFits ⟦<S as Meaning>⟧.meaning meta.now value.now)
        (is_constant value.now) result }
{
    match value {
        InputValue::Scalar(_) => match meta.check.check(value) {
            Ok(()) => Ok(true),
            Err(error) => Err(Misfit::of_check(error)),
        },
        _ => Err(invalid_value(alloc, meta.name.as_str(), value)),
    }
}

/// The name of an enum's value: that of a literal, or a text that was sent (3.9 Enums).
fn enum_name<S: SchemaScalar>(source: Source, value: &InputValue<S>) -> Option<&str>
    ensures name { MatchOption result ((name : List ℕ) → Names S.answer source value.now name → ⊥)
        (λ name. Names S.answer source value.now name.now) }
    ensures constant { IfSome result (λ _. is_constant value.now ≡ true) }
{
    match value {
        InputValue::Enum(name) => Some(name.as_str()),
        InputValue::Scalar(scalar) => match source {
            Source::Sent => scalar.try_as_str(),
            Source::Literal => None,
        },
        _ => None,
    }
}

/// Whether one of the values has the name. Finds it by binary search.
fn declares(values: &NamedItems<EnumValue>, name: &str) -> bool
    ensures { result ≡ list_any (is_named (λ v. v.name) name.now) values.now }
{
    values.get(name).is_some()
}

/// Whether the value is one that the enum declares.
fn is_of_enum<S: SchemaScalar>(
    source: Source,
    meta: &EnumMeta<S::Check>,
    value: &InputValue<S>,
) -> bool
    ensures of_enum { IsTrue result ↔ IsOfEnum S.answer source meta.now value.now }
    ensures constant { IsTrue result → is_constant value.now ≡ true }
{
    match enum_name(source, value) {
        Some(name) => declares(&meta.values, name),
        None => false,
    }
}

/// Whether the value is one that the enum declares and accepts (3.9 Enums).
pub(crate) fn judge_enum<S: SchemaScalar>(
    alloc: Global,
    source: Source,
    meta: &EnumMeta<S::Check>,
    value: &InputValue<S>,
) -> Result<bool, Misfit>
    ensures { Judged (EnumFits ⟦<S as Meaning>⟧.meaning source meta.now value.now)
        (is_constant value.now) result }
{
    if !is_of_enum(source, meta, value) {
        return Err(invalid_enum_value(alloc, meta.name.as_str(), value));
    }
    match meta.check.check(value) {
        Ok(()) => Ok(true),
        Err(CheckError::Memory) => Err(Misfit::Memory),
        Err(CheckError::Message(_)) => Err(invalid_enum_value(alloc, meta.name.as_str(), value)),
    }
}

/// Whether one field is given, and not `null`.
fn is_one_given<S>(pairs: &[Pair<S>]) -> bool
    ensures { result ≡ spec.is_one_given pairs.now }
{
    match pairs {
        [pair] => !pair.1.item.is_null(),
        _ => false,
    }
}

/// That exactly one field is given where the input object asks for that: `Ok` where it is. Of
/// several fields one that is not declared is told first.
pub(crate) fn one_if_asked<S, C>(
    alloc: Global,
    meta: &InputObjectMeta<S, C>,
    pairs: &[Pair<S>],
) -> Result<(), Misfit>
    ensures { Told IsMemory result (spec.is_one_if_asked meta.now pairs.now ≡ true) }
{
    if !meta.is_one_of() || is_one_given(pairs) {
        return Ok(());
    }
    let type_name = meta.name.as_str();
    match first_undeclared(meta, pairs) {
        Some(name) => Err(unknown_field(alloc, name, type_name)),
        None => Err(not_one_given(alloc, type_name)),
    }
}

/// That as many fields are given as the input object asks for: `Ok` where they are.
fn complete<S, C>(
    alloc: Global,
    meta: &InputObjectMeta<S, C>,
    pairs: &[Pair<S>],
) -> Result<(), Misfit>
    ensures { Told IsMemory result (is_complete meta.now pairs.now ≡ true) }
{
    if meta.is_one_of() {
        return one_if_asked(alloc, meta, pairs);
    }
    match missing(alloc, meta.input_fields.as_slice(), pairs) {
        Ok(None) => Ok(()),
        Ok(Some(field)) => Err(missing_field(alloc, field.name.as_str(), &field.arg_type)),
        Err(_) => Err(Misfit::Memory),
    }
}

/// What is asked of an object whose fields conform: no field is missing, and where no variable
/// stands in it, the type accepts it.
pub(crate) fn judge_whole<S: SchemaScalar>(
    alloc: Global,
    meta: &InputObjectMeta<S, S::Check>,
    pairs: &[Pair<S>],
    value: &InputValue<S>,
    constant: bool,
) -> Result<bool, Misfit>
    ensures { Judged (WholeFits S.Check.accepts meta.now value.now pairs.now (constant ≡ true))
        constant result }
{
    complete(alloc, meta, pairs)?;
    if !constant {
        return Ok(false);
    }
    match meta.check.check(value) {
        Ok(()) => Ok(true),
        Err(error) => Err(Misfit::of_check(error)),
    }
}

/// A list where the type is none.
pub(crate) fn no_list<S: SchemaScalar>(
    alloc: Global,
    schema: &SchemaType<S>,
    asked: &BorrowedType<'_>,
    value: &InputValue<S>,
) -> Misfit {
    let type_name = asked.name.as_str();
    match schema.concrete_type_by_name(type_name) {
        Some(MetaType::Enum(_)) => invalid_enum_value(alloc, type_name, value),
        _ => invalid_value(alloc, type_name, value),
    }
}
