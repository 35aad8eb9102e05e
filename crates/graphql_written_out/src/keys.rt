//! Response keys of fields.

ghost use Rattle.std.specs.Prelude.{◌≡◌};
ghost use Rattle.graphql_written_out.specs.Written as spec;

use graphql_tree::Field;

/// The key under which a field answers: its alias, else its name (GraphQL October 2021, 2.7 Field
/// Alias).
pub fn response_key<'f, S>(field: &'f Field<'_, S>) -> &'f str
    ensures { result.now ≡ spec.response_key field.now.alias field.now.name }
{
    match &field.alias {
        Some(alias) => alias.item.as_str(),
        None => field.name.item.as_str(),
    }
}
