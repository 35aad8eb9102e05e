//! What stands first in a type's row: its name, and a description before it.

ghost use Rattle.std.specs.Prelude.{◌≡◌};
ghost use Rattle.graphql_schema_rows.specs.Heads as spec;

use graphql_text::Text;

/// A type's name, and what its row tells of it (GraphQL October 2021, 3.2 Descriptions).
#[derive(Drop)]
pub struct Head {
    /// The name.
    pub name: Text,

    /// What it is for, in words.
    pub description: Option<Text>,
}

/// The part of a head that has to be the type's name: what stands behind the last quote and the
/// blanks there. Without a quote it is all of the head.
pub(crate) fn name_part(head: &str) -> &str
    ensures { result.now ≡ spec.name_part head.now }
{
    match head.rsplit_once('"') {
        Some((_, behind)) => behind.trim_start(),
        None => head,
    }
}
