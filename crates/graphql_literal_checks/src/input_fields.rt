//! The declared fields of an input object, and those that are given (GraphQL October 2021, 3.10
//! Input Objects).

ghost use Rattle.std.specs.Prelude.{◌≡◌, ◌||◌, ℕ, List, IfOk, MatchOption, map, true, false};
ghost use Rattle.std.specs.List.{list_all};
ghost use Rattle.std.specs.Option.{option_copied};
ghost use Rattle.graphql_names.specs.Names.{is_one_of};
ghost use Rattle.graphql_names.specs.NameSets.{has_name};
ghost use Rattle.graphql_literal_checks.specs.InputTypes as spec;

use graphql_schema::{Argument, InputObjectMeta};
use graphql_text::{Spanning, Text};
use graphql_values::InputValue;
use std::alloc::{AllocError, Global};
use std::collections::HashSet;

/// The declared field of this name, the first where several have it, by binary search.
pub(crate) fn declared_field<'s, S, C>(
    meta: &'s InputObjectMeta<S, C>,
    name: &str,
) -> Option<&'s Argument<S>>
    ensures { option_copied result ≡ spec.argument_named meta.now.input_fields name.now }
{
    meta.input_fields.get(name)
}

/// The name of the first field that is given and not declared.
pub(crate) fn first_undeclared<'a, S, C>(
    meta: &InputObjectMeta<S, C>,
    pairs: &'a [(Spanning<Text>, Spanning<InputValue<S>>)],
) -> Option<&'a str> {
    for pair in pairs {
        let name = pair.0.item.as_str();
        if declared_field(meta, name).is_none() {
            return Some(name);
        }
    }
    None
}

/// Whether the field need not be given: `null` is among its values, or it has a default.
fn is_optional<S>(field: &Argument<S>) -> bool
    ensures { result ≡ spec.is_optional field.now }
{
    !field.arg_type.is_non_null() || field.default_value.is_some()
}

/// Whether the field need not be given, or is.
fn is_settled<S>(field: &Argument<S>, given: &HashSet<&str>) -> bool
    ensures { result ≡ (spec.is_optional field.now || has_name given.now field.now.name) }
{
    is_optional(field) || given.contains(field.name.as_str())
}

/// The first declared field that has to be given, and is not. Takes time in proportion to the
/// fields. An error is want of memory.
pub(crate) fn missing<'s, S>(
    alloc: Global,
    declared: &'s [Argument<S>],
    pairs: &[(Spanning<Text>, Spanning<InputValue<S>>)],
) -> Result<Option<&'s Argument<S>>, AllocError>
    ensures { IfOk result
        (λ found. MatchOption found (spec.none_missing declared.now (map (λ p. p.0.item) pairs.now)
        ≡ true) (λ _. spec.none_missing declared.now (map (λ p. p.0.item) pairs.now) ≡ false)) }
{
    let given = names_of(alloc, pairs)?;
    Ok(first_unsettled(declared, &given))
}

/// The first field that has to be given, and is not.
fn first_unsettled<'s, S>(
    declared: &'s [Argument<S>],
    given: &HashSet<&str>,
) -> Option<&'s Argument<S>>
    ensures { MatchOption result
        (list_all (λ a. spec.is_optional a || has_name given.now a.name) declared.now ≡ true) (λ _.
        list_all (λ a. spec.is_optional a || has_name given.now a.name) declared.now ≡ false) }
{
    for field in declared {
        if !is_settled(field, given) {
            return Some(field);
        }
    }
    None
}

/// The names of the fields that are given. An error is want of memory.
fn names_of<'a, S>(
    alloc: Global,
    pairs: &'a [(Spanning<Text>, Spanning<InputValue<S>>)],
) -> Result<HashSet<&'a str>, AllocError>
    ensures { IfOk result
        (λ names. (q : List ℕ) → has_name names q ≡ is_one_of (map (λ p. p.0.item) pairs.now) q) }
{
    let mut names: HashSet<&str> = HashSet::new(alloc);
    'pairs: for pair in pairs {
        names.insert(pair.0.item.as_str())?;
    }
    Ok(names)
}
