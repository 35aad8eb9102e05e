//! What the program's arguments name.

ghost use Rattle.std.specs.Prelude.{◌≡◌};
ghost use Rattle.allowed_queries.specs.Named as spec;

use crate::failure::Failure;

/// What the program's arguments name: the paths of three files.
#[derive(Drop)]
pub struct Arguments {
    /// The path of the file of a schema.
    pub schema: String,

    /// The path of the file of its records.
    pub records: String,

    /// The path of the file of allowed queries.
    pub allowed: String,
}

/// What the first four words behind the program's name name, as far as there are so many. An error
/// is `Failure::Usage`.
pub fn arguments_of(
    schema: Option<String>,
    records: Option<String>,
    allowed: Option<String>,
    more: Option<String>,
) -> Result<Arguments, Failure>
    ensures { result ≡ spec.program_arguments schema records allowed more }
{
    match (schema, records, allowed, more) {
        (Some(schema), Some(records), Some(allowed), None) => Ok(Arguments {
            schema,
            records,
            allowed,
        }),
        _ => Err(Failure::Usage),
    }
}
