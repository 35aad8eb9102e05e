//! Whether what a file declares has names.

ghost use Rattle.std.specs.Prelude.{◌≡◌};
ghost use Rattle.std.specs.List.{list_all};
ghost use Rattle.graphql_schema_files.specs.NamedDrafts as spec;

use crate::drafts::{ArgumentDraft, FieldDraft, TypeDraft};
use graphql_names::Name;

/// Whether a text is a name.
pub(crate) fn is_name(text: &str) -> bool
    ensures { result ≡ spec.is_name text.now }
{
    Name::is_valid(text)
}

/// Whether the argument's name is a name.
fn argument_is_named(argument: &ArgumentDraft<'_>) -> bool
    ensures { result ≡ spec.argument_is_named argument.now }
{
    is_name(argument.name.as_str())
}

/// Whether the name of each argument is a name.
fn arguments_are_named(arguments: &[ArgumentDraft<'_>]) -> bool
    ensures { result ≡ list_all spec.argument_is_named arguments.now }
{
    arguments.iter().all(|argument| argument_is_named(argument))
}

/// Whether the names of the field and its arguments are names.
fn field_is_named(field: &FieldDraft<'_>) -> bool
    ensures { result ≡ spec.field_is_named field.now }
{
    is_name(field.name.as_str()) && arguments_are_named(field.arguments.as_slice())
}

/// Whether the names of each field and its arguments are names.
fn fields_are_named(fields: &[FieldDraft<'_>]) -> bool
    ensures { result ≡ list_all spec.field_is_named fields.now }
{
    fields.iter().all(|field| field_is_named(field))
}

/// Whether the names of the type, its fields and their arguments are names.
fn type_is_named(draft: &TypeDraft<'_>) -> bool
    ensures { result ≡ spec.type_is_named draft.now }
{
    is_name(draft.name.as_str()) && fields_are_named(draft.fields.as_slice())
}

/// Whether the names of the types, their fields and their arguments are names (GraphQL October
/// 2021, 2.1.9 Names). What a type lists is not judged. Takes no memory.
pub fn are_named(types: &[TypeDraft<'_>]) -> bool
    ensures { result ≡ list_all spec.type_is_named types.now }
{
    types.iter().all(|draft| type_is_named(draft))
}
