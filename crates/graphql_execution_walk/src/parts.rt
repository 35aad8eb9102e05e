//! Parts of a run that recurse into nothing.

ghost use Rattle.std.specs.Prelude.{◌≡◌, ◌++◌, [], ◌∷◌, reverse, unwrap_or};
ghost use Rattle.graphql_output_values.specs.declared.value.Value.TheVariants as null;
ghost use Rattle.graphql_text.specs.Memory.{Gives};
ghost use Rattle.graphql_semantics.specs.Completion.{is_required};
ghost use Rattle.graphql_semantics.specs.Outcomes.{shown, both};
ghost use Rattle.graphql_execution_walk.specs.Parts.{IsOuter, null_here};

use graphql_field_results::Resolved;
use graphql_names::TypeModifier;
use graphql_output_values::{Key, Value};
use graphql_text::{Items, TextRef};
use std::alloc::AllocError;

/// The outermost wrap of a type, and those within it.
#[derive(Clone, Copy)]
pub(crate) enum Outer<'t> {
    /// No wrap.
    Named,

    /// No null.
    NonNull(&'t [TypeModifier]),

    /// A list.
    List(&'t [TypeModifier]),
}

/// Takes the outermost wrap off; the wraps have the innermost first.
pub(crate) fn take_apart(wraps: &[TypeModifier]) -> Outer<'_>
    ensures { IsOuter wraps.now result }
{
    match wraps {
        [] => Outer::Named,
        [rest @ .., TypeModifier::NonNull] => Outer::NonNull(rest),
        [rest @ .., TypeModifier::List(_)] => Outer::List(rest),
    }
}

/// Whether null is kept out, by wraps that have the innermost first.
pub fn is_required(wraps: &[TypeModifier]) -> bool
    ensures { result ≡ is_required (reverse wraps.now) }
{
    match take_apart(wraps) {
        Outer::Named => false,
        Outer::NonNull(_) => true,
        Outer::List(_) => false,
    }
}

/// What a place shows: its value; where it has none, `null` if that may stand there, else nothing.
pub fn shown<S>(is_required: bool, value: Option<Value<S>>) -> Option<Value<S>>
    ensures { result ≡ shown is_required value }
{
    match value {
        Some(x) => Some(x),
        None => { if is_required { None } else { Some(Value::Null) } }
    }
}

/// The value, `null` where there is none.
pub fn or_null<S>(value: Option<Value<S>>) -> Value<S>
    ensures { result ≡ unwrap_or value null.Null }
{
    match value {
        Some(value) => value,
        None => Value::Null,
    }
}

/// Whether the answer is null.
pub(crate) fn is_null<S, N>(answer: &Resolved<S, N>) -> bool
    ensures { result ≡ null_here answer.now }
{
    match answer {
        Resolved::Null => true,
        Resolved::Scalar(_) => false,
        Resolved::List(_) => false,
        Resolved::Node(_) => false,
    }
}

/// The values with one more item, nothing where either is nothing.
pub(crate) fn with_item<S: Drop>(
    values: Option<Items<Value<S>>>,
    value: Option<Value<S>>,
) -> Result<Option<Items<Value<S>>>, AllocError>
    ensures { Gives result (both (λ xs x. xs ++ x ∷ []) values value) }
{
    match values {
        None => Ok(None),
        Some(values) => match value {
            None => Ok(None),
            Some(value) => {
                let mut values = values;
                values.push(value)?;
                Ok(Some(values))
            }
        },
    }
}

/// The members with one more, nothing where either is nothing.
pub(crate) fn with_member<S: Drop>(
    members: Option<Items<(Key, Value<S>)>>,
    key: &TextRef<'_>,
    value: Option<Value<S>>,
) -> Result<Option<Items<(Key, Value<S>)>>, AllocError>
    ensures { Gives result (both (λ xs x. xs ++ (key.now, x) ∷ []) members value) }
{
    match members {
        None => Ok(None),
        Some(members) => match value {
            None => Ok(None),
            Some(value) => {
                let mut members = members;
                let key = Key::from_str(*members.allocator(), key.as_str())?;
                members.push((key, value))?;
                Ok(Some(members))
            }
        },
    }
}
