//! What the program's arguments name.

ghost use Rattle.std.specs.Prelude.{◌≡◌};
ghost use Rattle.cached_answers.specs.Arguments as spec;

use crate::failure::Failure;

/// What the program's arguments name: the paths of two files, and how many bytes of answers are
/// kept at most.
#[derive(Drop)]
pub struct Arguments {
    /// The path of the file of a schema.
    pub schema: String,

    /// The path of the file of its records.
    pub records: String,

    /// The number of bytes, in digits.
    pub bytes: String,
}

/// What the first four words behind the program's name are. An error is `Failure::Usage`, where
/// they are not three.
pub fn arguments_of(
    schema: Option<String>,
    records: Option<String>,
    bytes: Option<String>,
    more: Option<String>,
) -> Result<Arguments, Failure>
    ensures { result ≡ spec.program_arguments schema records bytes more }
{
    match (schema, records, bytes, more) {
        (Some(schema), Some(records), Some(bytes), None) => Ok(Arguments {
            schema,
            records,
            bytes,
        }),
        _ => Err(Failure::Usage),
    }
}
