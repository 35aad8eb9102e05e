//! Fields and possible types, looked up.

ghost use Rattle.std.specs.Prelude.{◌≡◌};
ghost use Rattle.std.specs.Option.{option_copied};
ghost use Rattle.graphql_names.specs.Names.{is_one_of};
ghost use Rattle.graphql_records.specs.Answers as spec;

use crate::table_type::{TableField, TableType};
use graphql_names::NamedItems;
use graphql_text::Text;

/// What a table knows of a field of the type of this name. Found by binary search.
pub fn known_field<'a>(
    types: &'a NamedItems<TableType>,
    of_type: &str,
    field: &str,
) -> Option<&'a TableField>
    ensures { option_copied result ≡ spec.known_field types.now of_type.now field.now }
{
    match types.get(of_type) {
        Some(found) => found.fields.get(field),
        None => None,
    }
}

/// Whether the name is one of the names.
fn has_name(names: &[Text], name: &Text) -> bool
    ensures { result ≡ is_one_of names.now name.now }
{
    names.iter().any(|other| name.is(other.as_str()))
}

/// Whether an object of the one type can stand at a place of the other.
pub fn is_possible(types: &NamedItems<TableType>, at: &str, object: &Text) -> bool
    ensures { result ≡ spec.is_possible types.now at.now object.now }
{
    match types.get(at) {
        Some(of_type) => has_name(of_type.possible.as_slice(), object),
        None => false,
    }
}
